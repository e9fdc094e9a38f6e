// A table of cases, a line each: its lines, and how the programs that run cases answer one.
ghost use Rattle.std.specs.Fn.{CalledAt};
ghost use Rattle.words.specs.Owes.{EachLineOwes, AnswerLineOwes};

use crate::{is_heading, split};
use std::io;
use std::io::Write;

// Hands each line of a text, without its line feed, to `each`, until one fails.
pub fn each_line<F: FnMut(&[u8]) -> io::Result<()>>(text: &[u8], mut each: F) -> io::Result<()>
    requires { F.IsAlwaysCallable each }
    ensures { EachLineOwes (CalledAt F.FnMut) each text.now result }
{
    let mut rest = text;
    while !rest.is_empty() {
        let (line, behind) = split(rest, b'\n');
        each(line)?;
        rest = behind;
    }
    Ok(())
}

// A line that begins with # is a heading of the table, and is copied; any other is handed to `case`, and copied behind ? where that is none of its cases.
pub fn answer_line<W: Write, F: FnOnce(&mut W, &[u8]) -> io::Result<bool>>(
    out: &mut W,
    line: &[u8],
    case: F,
) -> io::Result<()>
    requires { F.IsAlwaysCallable case }
    ensures { AnswerLineOwes line.now (W.contents out.old) (W.contents out.new) result }
{
    if is_heading(line) {
        out.write_all(line)?;
    } else if !case(out, line)? {
        out.write_all(b"? ")?;
        out.write_all(line)?;
    }
    out.write_all(b"\n")
}
