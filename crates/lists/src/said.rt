// A case `said LABEL LOG`: what a log's own header lines say beside its lists, three header numbers and the intervals I, N, D.
use crate::{LONGEST, show};
use std::io;
use std::io::Write;
use words::escapes;

// Answers whether the line is a case, and prints nothing where it is not.
pub fn case(out: &mut impl Write, rest: &[u8]) -> io::Result<bool> {
    let (label, log) = words::split(rest, b' ');
    let mut space = [0u8; LONGEST];
    let Some(n) = escapes::unescape(log, &mut space) else {
        return Ok(false);
    };
    let said = settings::read(&space[..n]);
    out.write_all(label)?;
    out.write_all(b" = numbers")?;
    show::numbers(out, said.numbers)?;
    out.write_all(b" interval")?;
    show::interval(out, said.interval)?;
    Ok(true)
}
