// The case `shapes`: which lists of one to five items pass the checks of lengths.
// A shape has a number of items for each of the lists 0 to 5. There is a line for each of lists 0, 1, 2 and in it a character for each of
// lists 3, 4, 5, the last turning fastest: a dot for lists that pass, else the refusal's number.
ghost use Rattle.std.specs.Prelude.{◌<◌};

use items::{Lists, MainLists, SlowLists, Stretch};
use std::io;
use std::io::Write;

// The first items of a list of names, and one more than `more`.
fn some_names(more: usize) -> Option<Stretch> {
    let end = match more {
        0 => 13,
        1 => 18,
        2 => 20,
        3 => 22,
        _ => 24,
    };
    Some(Stretch { start: 0, end })
}

// The same of a list of digits that starts at a place.
fn some_digits(start: usize, more: usize) -> Option<Stretch>
    requires { (start < 64) × (more < 5) }
{
    Some(Stretch {
        start,
        end: start + 2 * more + 1,
    })
}

fn shape(out: &mut impl Write, line: usize, column: usize) -> io::Result<()>
    requires { (line < 125) × (column < 125) }
{
    let text = b"loopIteration,time,a,a,a 0,0,0,0,0 6,2,0,0,0 1,1,0,0,0 9,0,0,0,0";
    let main = MainLists {
        names: some_names(line / 25),
        intra_predictors: some_digits(25, line / 5 % 5),
        inter_predictors: some_digits(35, line % 5),
        intra_encodings: some_digits(45, column / 25),
        inter_encodings: some_digits(55, column / 5 % 5),
        signs: some_digits(25, column % 5),
    };
    let slow = SlowLists {
        names: None,
        predictors: None,
        encodings: None,
        signs: None,
    };
    match definition::define_plainly(text, Lists { main, slow }).verdict {
        Ok(()) => out.write_all(b"."),
        Err(why) => write!(out, "{}", why.paper().number),
    }
}

pub fn all(out: &mut impl Write) -> io::Result<()> {
    for line in 0..125 {
        if 0 < line {
            out.write_all(b"\n")?;
        }
        for column in 0..125 {
            shape(out, line, column)?;
        }
    }
    Ok(())
}
