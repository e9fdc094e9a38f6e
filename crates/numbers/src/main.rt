// Runs the readers of numbers on cases from standard input, up to 65,536 bytes of them, and prints each case with its answer.
// A case is a line `READER GROUP PLACE BYTES`, so that vectors are data and not code: vectors/README.md says how they are made.
#![tactic(auto)]

use decode::negative_14_bit::negative_14_bit;
use decode::tagged_variable::tagged_variable;
use decode::variable::{variable, variable_signed};
use reader::{Cursor, RestorePoint};
use std::io;
use std::io::{BufWriter, Write};
use tagged::tagged_16::tagged_16;
use tagged::tagged_32::tagged_32;

mod show;

use show::Answer;

// What the reader of a case's first word answers: an encoding by its number, the two others by a word.
// Only encoding 6 is told how many fields its group has.
fn read_by(reader: &[u8], group: usize, place: usize, s: &[u8]) -> Option<Answer> {
    let from = Cursor { at: place };
    if reader == b"6".as_slice() {
        return Some(Answer::Group(tagged_variable(s, from, group), group));
    }
    if group != 0 {
        return None;
    }
    match reader {
        b"0" => Some(Answer::Signed(variable_signed(s, from))),
        b"1" => Some(Answer::Unsigned(variable(s, from))),
        b"3" => Some(Answer::Signed(negative_14_bit(s, from))),
        b"7" => Some(Answer::Group(tagged_32(s, from), 3)),
        b"8" => Some(Answer::Group(tagged_16(s, from), 4)),
        b"9" => Some(Answer::Unsigned(decode::null(from))),
        b"byte" => Some(Answer::Byte(reader::read_u8(s, from))),
        b"search" => Some(Answer::Search(reader::skip_to_frame(s, RestorePoint(place)))),
        _ => None,
    }
}

// The same of a section as it is written. Its buffer stands here, since a function pays for it at entry.
fn read_section(reader: &[u8], group: usize, place: usize, digits: &[u8]) -> Option<Answer> {
    let mut space = [0u8; 256];
    let n = words::section::bytes(digits, &mut space)?;
    read_by(reader, group, place, &space[..n])
}

// The answer of a line, or none where it is no case.
fn answer_of(line: &[u8]) -> Option<Answer> {
    let (reader, rest) = words::split(line, b' ');
    let (group, rest) = words::split(rest, b' ');
    let (place, digits) = words::split(rest, b' ');
    let group = digits::decimal(group)?;
    let place = digits::decimal(place)?;
    read_section(reader, group, place, digits)
}

// Answers whether the line is a case, and prints nothing where it is not.
fn case(out: &mut impl Write, line: &[u8]) -> io::Result<bool> {
    let Some(answer) = answer_of(line) else {
        return Ok(false);
    };
    out.write_all(line)?;
    write!(out, " = {answer}")?;
    Ok(true)
}

fn main(rt: HostRuntime) -> io::Result<()> {
    let mut text = terminal::large_buffer::<65536>();
    let n = terminal::read_full(&mut rt.stdin(), &mut text)?;
    let mut out = BufWriter::new(rt.alloc(), rt.stdout())?;
    words::table::each_line(&text[..n], |line| {
        words::table::answer_line(&mut out, line, |out, line| case(out, line))
    })?;
    out.flush()
}
