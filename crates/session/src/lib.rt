// A log's session as document 01 prints it: the frames that a walk through its section finds, or why there is none.
// H lines may have 16,384 bytes and the section 65,536; more is too long.
#![tactic(auto)]

ghost use Rattle.std.specs.Prelude.{true, ◌≡◌, ◌≤◌, length};
ghost use Rattle.plan.specs.Sound.{sound};
ghost use Rattle.session.specs.Owes.{EachAnswerOwes};

use header::Header;
use plan::{Definition, Numbers, Settings};
use section::{Answer, Tally, Walk};
use std::io;
use std::io::Write;

mod show;

const HEADER: usize = 16384;

const SECTION: usize = 65536;

// Calls until one is over, and hands each answer before to `each`, with the buffer of its frame's values. Answers what the walk has counted.
// The flag goes from call to call, so that a barren search is made once.
pub fn each_answer<F: FnMut(Answer, &[u32; 62]) -> io::Result<()>>(
    d: Definition,
    s: &[u8],
    mut each: F,
) -> io::Result<Tally>
    requires sound { sound d ≡ true }
    requires callable { F.IsAlwaysCallable each }
    ensures { EachAnswerOwes d s.now result }
{
    let mut walk = Walk::start();
    let mut barren = false;
    let mut values = [0u32; 62];
    loop {
        let called = calls::step(d, walk, s, barren, &mut values);
        let answer = called.looked.answer;
        let next = called.looked.walk;
        if answer.is_over() {
            return Ok(next.tally);
        }
        each(answer, &values)?;
        walk = next;
        barren = called.barren;
    }
}

// A line for each frame, and the last line.
fn walk(out: &mut impl Write, d: Definition, s: &[u8]) -> io::Result<()>
    requires { sound d ≡ true }
{
    out.write_all(b"kind at values\n")?;
    let tally = each_answer(d, s, |answer, values| show::frame(out, d, answer, values))?;
    show::end(out, tally)
}

// Refused lists are not walked with.
fn defined(
    out: &mut impl Write,
    log: &[u8],
    header: Header,
    numbers: Numbers,
    settings: Settings,
) -> io::Result<()>
    requires { header.section ≤ length log.now }
{
    let defined = definition::define(log, header.lists, numbers, settings);
    match defined.verdict {
        Ok(()) => walk(out, defined.definition, &log[header.section..]),
        Err(why) => show::refusal(out, why),
    }
}

// Prints a log's session. The header numbers and settings are given, since document 01 takes none from a log's lines.
pub fn print_with(
    out: &mut impl Write,
    log: &[u8],
    numbers: Numbers,
    settings: Settings,
) -> io::Result<()> {
    let header = header::read(log);
    if HEADER < header.section || SECTION < log.len() - header.section {
        return out.write_all(b"too long\n");
    }
    defined(out, log, header, numbers, settings)
}

// Prints a log's session with no header numbers and plain settings.
pub fn print(out: &mut impl Write, log: &[u8]) -> io::Result<()> {
    print_with(out, log, Definition::nothing().numbers, Settings::plain())
}
