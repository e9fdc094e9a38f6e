// What a reader answered: the values and the place behind them, or why there are none.
// Patterns are printed as signed numbers, but for the encodings that are unsigned.
use reader::{Cursor, Fault, Group};
use std::fmt;

#[derive(Clone, Copy)]
pub enum Answer {
    Signed(Result<(u32, Cursor), Fault>),
    Unsigned(Result<(u32, Cursor), Fault>),
    // A group, and how many values it has.
    Group(Group, usize),
    Byte(Option<(u8, Cursor)>),
    Search(Option<usize>),
}

fn fault<W: fmt::Write>(f: &mut fmt::Formatter<W>, why: Fault) -> fmt::Result {
    match why {
        Fault::Cut => write!(f, "cut"),
        Fault::Corrupt => write!(f, "corrupt"),
    }
}

// The first n values, of which a group has eight at the most.
fn values<W: fmt::Write>(f: &mut fmt::Formatter<W>, v: [u32; 8], n: usize) -> fmt::Result {
    for (i, v) in v.iter().take(n).enumerate() {
        if 0 < i {
            write!(f, " ")?;
        }
        write!(f, "{}", v.cast_signed())?;
    }
    Ok(())
}

impl fmt::Display for Answer {
    fn fmt<W: fmt::Write>(&self, f: &mut fmt::Formatter<W>) -> fmt::Result {
        match *self {
            Answer::Signed(Ok((v, behind))) => write!(f, "{} next {}", v.cast_signed(), behind.at),
            Answer::Unsigned(Ok((v, behind))) => write!(f, "{v} next {}", behind.at),
            Answer::Signed(Err(why)) => fault(f, why),
            Answer::Unsigned(Err(why)) => fault(f, why),
            Answer::Group(group, n) => match group.step {
                Ok(behind) => {
                    values(f, group.values, n)?;
                    write!(f, " next {}", behind.at)
                }
                Err(why) => fault(f, why),
            },
            Answer::Byte(Some((v, behind))) => write!(f, "{v} next {}", behind.at),
            Answer::Byte(None) => write!(f, "end"),
            Answer::Search(Some(by)) => write!(f, "by {by}"),
            Answer::Search(None) => write!(f, "nothing"),
        }
    }
}
