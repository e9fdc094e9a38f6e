// Frames: their numbers and the place behind them, all of them unsigned.
use frame::MainFrame;
use reader::{Cursor, Fault};
use std::io;
use std::io::Write;

// The first n values, of which a frame has 62 at the most, each with a space behind it, and the place behind: a slow frame, or fields by lists.
pub fn fields(out: &mut impl Write, v: [u32; 62], n: usize, behind: Cursor) -> io::Result<()> {
    for v in v.iter().take(n) {
        write!(out, "{v} ")?;
    }
    write!(out, "next {}", behind.at)
}

pub fn main_frame(
    out: &mut impl Write,
    frame: MainFrame,
    n: usize,
    behind: Cursor,
) -> io::Result<()> {
    write!(out, "{} {} ", frame.iteration, frame.time)?;
    fields(out, frame.values, n, behind)
}

pub fn fault(out: &mut impl Write, why: Fault) -> io::Result<()> {
    match why {
        Fault::Cut => write!(out, "cut"),
        Fault::Corrupt => write!(out, "corrupt"),
    }
}
