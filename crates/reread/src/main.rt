// Walks the section of a log from standard input and reads each main frame a second time by the two forms by reference: its fields by records that are lent
// as a slice, behind the frames of a history that is pushed to where it stands. No more than 65,536 bytes are read: a longer log is taken to end there.
#![tactic(auto)]

ghost use Rattle.std.specs.Prelude.{true, ◌≡◌};
ghost use Rattle.plan.specs.Sound.{sound};

use history::History;
use plan::Definition;
use std::io;
use std::io::{BufWriter, Write};

mod again;
mod show;

// Each main frame of a walk is read again, and pushed.
fn walk(out: &mut impl Write, d: Definition, s: &[u8]) -> io::Result<()>
    requires { sound d ≡ true }
{
    let mut h = History::empty();
    session::each_answer(d, s, |answer, _| {
        h = again::answer(out, d, s, answer, h)?;
        Ok(())
    })?;
    Ok(())
}

fn log(out: &mut impl Write, log: &[u8]) -> io::Result<()> {
    let header = header::read(log);
    let defined = definition::define_plainly(log, header.lists);
    match defined.verdict {
        Ok(()) => {
            let d = defined.definition;
            let s = &log[header.section..];
            walk(out, d, s)?;
            again::counts(out, d, s)
        }
        Err(_) => out.write_all(b"refused\n"),
    }
}

fn main(rt: HostRuntime) -> io::Result<()> {
    let mut text = terminal::large_buffer::<65536>();
    let n = terminal::read_full(&mut rt.stdin(), &mut text)?;
    let mut out = BufWriter::new(rt.alloc(), rt.stdout())?;
    log(&mut out, &text[..n])?;
    out.flush()
}
