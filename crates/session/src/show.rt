// The lines of a walk: a frame's letter, place and numbers; the last line; a refusal.
// Iteration and time are printed unsigned, fields by their sign items.
use definition::Refusal;
use event::Event;
use plan::Definition;
use section::{Answer, Ending, MainAnswer, Tally};
use std::io;
use std::io::Write;

// The first n values by their signs, or as many as there are, and the end of their line.
fn fields(out: &mut impl Write, values: &[u32], signs: &[u8], n: usize) -> io::Result<()> {
    for i in 0..n.min(signs.len()).min(values.len()) {
        let v = values[i];
        if signs[i] == 0 {
            write!(out, " {v}")?;
        } else {
            write!(out, " {}", v.cast_signed())?;
        }
    }
    out.write_all(b"\n")
}

fn main_frame(
    out: &mut impl Write,
    letter: char,
    frame: MainAnswer,
    d: Definition,
    values: &[u32],
) -> io::Result<()> {
    write!(
        out,
        "{letter} {} {} {}",
        frame.at, frame.iteration, frame.time
    )?;
    fields(out, values, &d.main.signs, d.main.fields())
}

fn slow_frame(out: &mut impl Write, at: usize, d: Definition, values: &[u32]) -> io::Result<()> {
    write!(out, "S {at}")?;
    fields(out, values, &d.slow.signs, d.slow.n)
}

// As many numbers as the event's type has.
fn event(out: &mut impl Write, at: usize, event: Event) -> io::Result<()> {
    write!(out, "E {at} {}", event.code)?;
    if matches!(event.code, 0 | 14 | 15 | 30) {
        write!(out, " {}", event.first)?;
    }
    if matches!(event.code, 14 | 30) {
        write!(out, " {}", event.second)?;
    }
    out.write_all(b"\n")
}

// The line of an accepted frame; no other answer of a call has one of its own.
pub fn frame(
    out: &mut impl Write,
    d: Definition,
    answer: Answer,
    values: &[u32],
) -> io::Result<()> {
    match answer {
        Answer::Event(x) => event(out, x.at, x.event),
        Answer::Intra(x) => main_frame(out, 'I', x, d, values),
        Answer::Inter(x) => main_frame(out, 'P', x, d, values),
        Answer::Slow(x) => slow_frame(out, x.at, d, values),
        _ => Ok(()),
    }
}

fn ending(e: Ending) -> &'static str {
    match e {
        Ending::Going => "",
        Ending::Done => "done",
        Ending::Out => "out of data",
        Ending::Cut(_, _) => "cut",
    }
}

// The last line, of a walk that has ended.
pub fn end(out: &mut impl Write, t: Tally) -> io::Result<()> {
    let counts = t.counts;
    let main = counts[0];
    let event = counts[1];
    let slow = counts[2];
    let rejected = counts[3];
    let ending = ending(t.ending);
    let tried = t.trials;
    write!(out, "end {ending} main {main} event {event}")?;
    writeln!(out, " slow {slow} tried {tried} rejected {rejected}")
}

// Only refusal 3 has a round beside its place.
pub fn refusal(out: &mut impl Write, why: Refusal) -> io::Result<()> {
    let paper = why.paper();
    write!(out, "refused {} {}", paper.number, paper.place)?;
    if paper.number == 3 {
        write!(out, " {}", paper.round)?;
    }
    out.write_all(b"\n")
}
