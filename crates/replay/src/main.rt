// Prints the sessions of logs from standard input, up to 1,048,576 bytes of them, each behind its label.
// A log is a line, so that vectors are data and not code: vectors/README.md says what logs there are and how they are made.
#![tactic(auto)]

ghost use Rattle.std.specs.Prelude.{◌≤◌};

use plan::{Definition, Numbers, Settings};
use std::io;
use std::io::{BufWriter, Write};
use words::{escapes, interval, three};

// The longest log.
const LONGEST: usize = 8192;

// What stands of the logs behind it: what the last line `lists` says, the first bytes of each and its header numbers, and what the last line `set`
// does, its settings.
// The buffer has its length beside it: `unescape` refuses what has no room there, and a Vec would have room.
#[derive(Drop)]
struct Common {
    log: [u8; LONGEST],
    length: usize,
    ghost within: { length ≤ 8192 },
    numbers: Numbers,
    settings: Settings,
}

impl Common {
    fn new() -> Common {
        Common {
            log: [0u8; LONGEST],
            length: 0,
            numbers: Definition::nothing().numbers,
            settings: Settings::plain(),
        }
    }

    // A line `lists T B M TEXT`, which puts TEXT in front of the buffer. One that is not written so leaves all as it was.
    fn lists(&mut self, rest: &[u8]) -> Option<()> {
        let numbers = three::numbers(rest)?;
        self.length = escapes::unescape(three::behind_three(rest), &mut self.log)?;
        self.numbers = numbers;
        Some(())
    }

    // A line `set plain` or `set interval I N D`. One that is not written so leaves all as it was.
    fn set(&mut self, rest: &[u8]) -> Option<()> {
        if rest == b"plain".as_slice() {
            self.settings = Settings::plain();
            return Some(());
        }
        let (what, three) = words::split(rest, b' ');
        if what != b"interval".as_slice() || !three::behind_three(three).is_empty() {
            return None;
        }
        self.settings.interval = interval::read(three)?;
        Some(())
    }

    // A case `LABEL REST`: the log goes on with REST behind the lists. Answers whether the line is one, and prints nothing where it is not.
    fn case(&mut self, out: &mut impl Write, line: &[u8]) -> io::Result<bool> {
        let (label, rest) = words::split(line, b' ');
        if label.is_empty() {
            return Ok(false);
        }
        let start = self.length;
        let Some(n) = escapes::unescape(rest, &mut self.log[start..]) else {
            return Ok(false);
        };
        out.write_all(b"= ")?;
        out.write_all(label)?;
        out.write_all(b"\n")?;
        session::print_with(out, &self.log[..start + n], self.numbers, self.settings)?;
        Ok(true)
    }

    // A line that begins with # is a heading of the table, and is copied; lines `lists` and `set` print nothing.
    fn line(&mut self, out: &mut impl Write, line: &[u8]) -> io::Result<()> {
        if words::is_heading(line) {
            out.write_all(line)?;
            return out.write_all(b"\n");
        }
        let (kind, rest) = words::split(line, b' ');
        let is_right = match kind {
            b"lists" => self.lists(rest).is_some(),
            b"set" => self.set(rest).is_some(),
            _ => self.case(out, line)?,
        };
        if is_right {
            return Ok(());
        }
        out.write_all(b"? ")?;
        out.write_all(line)?;
        out.write_all(b"\n")
    }
}

fn main(rt: HostRuntime) -> io::Result<()> {
    let mut text = terminal::large_buffer::<1048576>();
    let n = terminal::read_full(&mut rt.stdin(), &mut text)?;
    let mut out = BufWriter::new(rt.alloc(), rt.stdout())?;
    let mut common = Common::new();
    words::table::each_line(&text[..n], |line| common.line(&mut out, line))?;
    out.flush()
}
