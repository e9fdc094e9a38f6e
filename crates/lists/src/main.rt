// Runs the definition of lists on cases from standard input, up to 131,072 bytes of them, and prints each case's label with its answer.
// A case is a line, so that vectors are data and not code: vectors/README.md says what cases there are and how they are made.
#![tactic(auto)]

use std::io;
use std::io::{BufWriter, Write};

mod define;
mod name;
mod said;
mod shapes;
mod show;

// The longest text of a case.
const LONGEST: usize = 2048;

// Answers whether the line is a case, and prints nothing where it is not.
fn case(out: &mut impl Write, line: &[u8]) -> io::Result<bool> {
    let (kind, rest) = words::split(line, b' ');
    match kind {
        b"define" => define::case(out, rest),
        b"name" => name::case(out, rest),
        b"said" => said::case(out, rest),
        _ if line == b"shapes".as_slice() => {
            shapes::all(out)?;
            Ok(true)
        }
        _ => Ok(false),
    }
}

fn main(rt: HostRuntime) -> io::Result<()> {
    let mut text = terminal::large_buffer::<131072>();
    let n = terminal::read_full(&mut rt.stdin(), &mut text)?;
    let mut out = BufWriter::new(rt.alloc(), rt.stdout())?;
    words::table::each_line(&text[..n], |line| {
        words::table::answer_line(&mut out, line, |out, line| case(out, line))
    })?;
    out.flush()
}
