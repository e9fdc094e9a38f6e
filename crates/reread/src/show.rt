// A frame's line: letter, place, iteration and time as the walk has them;
// the raw numbers and the values of the second reading; the frames of the history.
// Raw numbers are signed by their encodings, values by their sign items, as 32-bit patterns are meant.
use crate::again::Second;
use frame::fields::{FieldValues, Unread};
use frame::{MainFrame, Mark};
use history::History;
use reader::Cursor;
use std::io;
use std::io::Write;

fn pattern(out: &mut impl Write, v: u32, signed: bool) -> io::Result<()> {
    if signed {
        return write!(out, " {}", v.cast_signed());
    }
    write!(out, " {v}")
}

// The place behind the fields, or why there is none; a refusal by its number and place.
pub fn place(
    out: &mut impl Write,
    reading: Result<(FieldValues, Cursor), Unread>,
) -> io::Result<()> {
    match reading {
        Ok((_, behind)) => write!(out, "next {}", behind.at)?,
        Err(Unread::Cut) => write!(out, "cut")?,
        Err(Unread::Corrupt) => write!(out, "corrupt")?,
        Err(why) => {
            if let Some((number, place)) = why.refusal() {
                write!(out, "refused {number} {place}")?;
            }
        }
    }
    out.write_all(b"\n")
}

pub fn frame(
    out: &mut impl Write,
    x: Second,
    reading: Result<(FieldValues, Cursor), Unread>,
) -> io::Result<()> {
    let fields = match reading {
        Ok((fields, _)) => fields,
        Err(_) => FieldValues {
            raws: [0u32; 62],
            values: [0u32; 62],
        },
    };
    let first = x.first;
    let n = x.n.min(62);
    let records = x.records;
    write!(out, "{} {}", letter(x.mark), first.at)?;
    write!(out, " {} {} raw", first.iteration, first.time)?;
    for i in 0..n {
        let signed = predictor::is_signed(records[i].encoding);
        pattern(out, fields.raws[i], signed)?;
    }
    out.write_all(b" values")?;
    for i in 0..n {
        pattern(out, fields.values[i], records[i].signed)?;
    }
    out.write_all(b" ")?;
    place(out, reading)
}

// The letter that a frame's kind byte is.
fn letter(mark: Mark) -> &'static str {
    match mark {
        Mark::Absent => "none",
        Mark::Intra => "I",
        Mark::Inter => "P",
    }
}

fn held(out: &mut impl Write, f: MainFrame) -> io::Result<()> {
    match f.mark {
        Mark::Absent => write!(out, " none"),
        mark => write!(out, " {} {}", letter(mark), f.iteration),
    }
}

pub fn history(out: &mut impl Write, h: History) -> io::Result<()> {
    out.write_all(b"last")?;
    held(out, h.last)?;
    out.write_all(b" older")?;
    held(out, h.older)?;
    out.write_all(b"\n")
}
