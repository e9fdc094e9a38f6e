// Runs predictors, frames and fields by lists on cases from standard input, up to 65,536 bytes of them, and prints each case, or its label, with its answer.
// A case is a line, so that vectors are data and not code: vectors/README.md says what cases there are and how they are made.
#![tactic(auto)]

use std::io;
use std::io::{BufWriter, Write};

mod define;
mod earlier;
mod fields;
mod main_frame;
mod parse;
mod predict;
mod show;
mod slow;

// The longest section of a case.
const LONGEST: usize = 512;

// Answers whether the line is a case, and prints nothing where it is not.
fn case(out: &mut impl Write, line: &[u8]) -> io::Result<bool> {
    let (kind, rest) = words::split(line, b' ');
    match kind {
        b"predict" => predict::case(out, line, rest),
        b"intra" => main_frame::case(out, false, rest),
        b"inter" => main_frame::case(out, true, rest),
        b"slow" => slow::case(out, rest),
        b"fields" => fields::case(out, rest),
        _ => Ok(false),
    }
}

fn main(rt: HostRuntime) -> io::Result<()> {
    let mut text = terminal::large_buffer::<65536>();
    let n = terminal::read_full(&mut rt.stdin(), &mut text)?;
    let mut out = BufWriter::new(rt.alloc(), rt.stdout())?;
    words::table::each_line(&text[..n], |line| {
        words::table::answer_line(&mut out, line, |out, line| case(out, line))
    })?;
    out.flush()
}
