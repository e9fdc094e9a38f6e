// Reads a log from standard input and prints its session: document 01's program `walk`.
// The buffer has one byte more than the longest log, so that a longer one is seen to be too long.
#![tactic(auto)]

use std::io;
use std::io::{BufWriter, Write};

fn main(rt: HostRuntime) -> io::Result<()> {
    let mut text = terminal::large_buffer::<81921>();
    let n = terminal::read_full(&mut rt.stdin(), &mut text)?;
    let mut out = BufWriter::new(rt.alloc(), rt.stdout())?;
    session::print(&mut out, &text[..n])?;
    out.flush()
}
