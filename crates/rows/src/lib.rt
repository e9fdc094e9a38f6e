// Rows: the accepted frames of a walk as bytes of one length, as many as a lent buffer has room for, and the walk behind them.
// A walk that goes on from there gives the rows that follow, so that a section of any length is imported through a small buffer.
#![tactic(auto)]

ghost use Rattle.std.specs.Prelude.{true, Ok, ◌≡◌, ◌+◌, ◌*◌, ◌/◌, ◌≤◌, length};
ghost use Rattle.std.proofs.lemmas.List.Edits.{sets};
ghost use Rattle.section.specs.Refusals.{admitted};
ghost use Rattle.rows.specs.Owes.{RowLengthOwes, CheckOwes, NextOwes};
ghost use Rattle.rows.specs.Rows.{width, row_length, row_for, row_bytes, rows_from, told, laid_out};
ghost use Rattle.rows.specs.Lent.{row_beside};

use calls::quick::step_in;
use plan::Definition;
use section::{Answer, Refusal, Walk};

// What a row says of a frame before its values: its letter, iteration, place and time. What a frame does not have is 0.
// Numbers, and not an enum, since a row is bytes of a layout that C reads (`row_bytes`).
#[derive(Clone, Copy)]
pub struct Heading {
    pub letter: u32,
    pub iteration: u32,
    pub place: usize,
    pub time: u64,
}

// How many rows were laid out, and the walk behind them.
#[derive(Clone, Copy)]
pub struct Laid {
    pub count: usize,
    pub walk: Walk,
}

// Why no row was laid out, and the walk that was given.
#[derive(Clone, Copy)]
pub struct Unlaid {
    pub why: Refusal,
    pub walk: Walk,
}

// How many values a row has: a place for every field, and for the three numbers of an event.
#[tactic(auto, unfolding(crate::specs::Rows::width))]
fn width(d: Definition) -> usize
    ensures { (result ≡ width d) × (result ≤ 62) }
{
    section::refusals::room_needed(d).max(3).min(62)
}

// How many bytes a row takes.
#[tactic(auto, unfolding(crate::specs::Rows::row_length))]
pub fn row_length(d: Definition) -> usize
    ensures { RowLengthOwes d result }
{
    24 + 4 * width(d)
}

fn headed(letter: u32, iteration: u32, place: usize, time: u64) -> Heading
    ensures { result ≡ record { letter = letter; iteration = iteration; place = place; time = time } }
{
    Heading {
        letter,
        iteration,
        place,
        time,
    }
}

// An event shows its type and both its numbers in the places of the fields.
#[tactic(auto, unfolding(crate::specs::Rows::row_for))]
fn row_for(answer: Answer, values: &mut [u32; 62]) -> Heading
    ensures { row_beside result values.new ≡ row_for answer values.old }
{
    match answer {
        Answer::Event(x) => {
            values[0] = u32::from(x.event.code);
            values[1] = x.event.first;
            values[2] = x.event.second;
            headed(69, 0, x.at, 0)
        }
        Answer::Intra(x) => headed(73, x.iteration, x.at, x.time),
        Answer::Inter(x) => headed(80, x.iteration, x.at, x.time),
        Answer::Slow(x) => headed(83, 0, x.at, 0),
        Answer::Passed | Answer::Rejected(_, _) | Answer::Over(_) | Answer::Refused(_) => {
            headed(0, 0, 0, 0)
        }
    }
}

#[tactic(auto, using(crate::proofs::OneRow::put_row_all))]
fn put_row(out: &mut [u8], at: usize, n: usize, r: Heading, values: &[u32; 62])
    requires { (n ≤ 62) × (at + (24 + 4 * n) ≤ length out.old) }
    ensures { out.new ≡ sets out.old at (row_bytes n (row_beside r values.now)) }
{
    octets::put32(out, at, r.letter);
    octets::put32(out, at + 4, r.iteration);
    octets::put64(out, at + 8, r.place as u64);
    octets::put64(out, at + 16, r.time);
    octets::put_values(out, at + 24, &values[..n]);
}

// The rows of an admitted walk. The state is checked once, and a barren search is made once; the values of its frames stay in the same rooms throughout.
fn lay(d: Definition, w: Walk, s: &[u8], out: &mut [u8]) -> Laid
    requires { admitted d (length s.now) w ≡ true }
    ensures { told (Ok result) out.new ≡ laid_out (rows_from d s.now (length out.old / row_length d) w) out.old }
{
    let n = width(d);
    let size = row_length(d);
    let room = out.len() / size;
    let mut values = w.values();
    let mut walk = w.light();
    let mut barren = false;
    for count in 0..room {
        let stepped = step_in(d, walk, s, barren, &mut values);
        if stepped.answer.is_over() {
            return Laid {
                count,
                walk: stepped.walk.with(&values),
            };
        }
        let head = row_for(stepped.answer, &mut values.fields);
        put_row(out, count * size, n, head, &values.fields);
        walk = stepped.walk;
        barren = stepped.barren;
    }
    Laid {
        count: room,
        walk: walk.with(&values),
    }
}

// Refusals 10 and 11 of a buffer of rows: it has to have room for one.
#[tactic(auto, unfolding(section::specs::Answers::found, section::specs::Answers::refusal_for, section::specs::Answers::paper_of))]
pub fn check(d: Definition, w: Walk, length: usize, room: usize) -> Result<(), Refusal>
    ensures { CheckOwes d w length room result }
{
    let size = row_length(d);
    if !section::refusals::admits(d, w, length) {
        return Err(Refusal::Unsound);
    }
    if room < size {
        return Err(Refusal::TooShort(size));
    }
    Ok(())
}

// The next rows of a walk, as many whole ones as the lent buffer has room for; or refusal 10, or 11 with the length of a row.
// A refusal hands the walk back.
pub fn next(d: Definition, w: Walk, s: &[u8], out: &mut [u8]) -> Result<Laid, Unlaid>
    ensures { NextOwes d w s.now out.old result out.new }
{
    match check(d, w, s.len(), out.len()) {
        Ok(()) => Ok(lay(d, w, s, out)),
        Err(why) => Err(Unlaid { why, walk: w }),
    }
}
