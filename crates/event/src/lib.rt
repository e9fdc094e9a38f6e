// Events: what stands behind the letter E.
// The Rust's event.rs takes its closing text ten bytes at once; here each byte is asked for by itself, so that the fault met first decides.
#![tactic(auto)]

ghost use Rattle.std.specs.Prelude.{◌≡◌};
ghost use Rattle.reader.specs.Got.{give};
ghost use Rattle.reader.specs.Place.{rest, read_at};
ghost use Rattle.event.specs.Events.{one_number, two_numbers, spelled, closing};
ghost use Rattle.event.specs.Owes.{ReadOwes};

use decode::variable::variable;
use reader::{Cursor, Fault};

// The type of an event and its two numbers, absent ones as 0.
#[derive(Clone, Copy)]
pub struct Event {
    pub code: u8,
    pub first: u32,
    pub second: u32,
}

fn one_number(s: &[u8], from: Cursor, code: u8) -> Result<(Event, Cursor), Fault>
    ensures { result ≡ read_at from (one_number code (rest from s.now)) }
{
    let (first, behind) = variable(s, from)?;
    Ok((
        Event {
            code,
            first,
            second: 0,
        },
        behind,
    ))
}

fn two_numbers(s: &[u8], from: Cursor, code: u8) -> Result<(Event, Cursor), Fault>
    ensures { result ≡ read_at from (two_numbers code (rest from s.now)) }
{
    let (first, next) = variable(s, from)?;
    let (second, behind) = variable(s, next)?;
    Ok((
        Event {
            code,
            first,
            second,
        },
        behind,
    ))
}

// An event that is told by a text alone.
fn spelt(text: &[u8], s: &[u8], from: Cursor, event: Event) -> Result<(Event, Cursor), Fault>
    ensures { result ≡ read_at from (spelled text.now (give event) (rest from s.now)) }
{
    let mut at = from;
    for letter in text {
        let (b, behind) = reader::read_u8(s, at).ok_or(Fault::Cut)?;
        if b != *letter {
            return Err(Fault::Corrupt);
        }
        at = behind;
    }
    Ok((event, at))
}

#[tactic(auto, unfolding(crate::specs::Events::closing, crate::specs::Events::spelled))]
fn close(s: &[u8], from: Cursor) -> Result<(Event, Cursor), Fault>
    ensures { result ≡ read_at from (closing (rest from s.now)) }
{
    let end = Event {
        code: 255,
        first: 0,
        second: 0,
    };
    spelt(b"End of log\0", s, from, end)
}

// The event behind a letter E: its type decides, each in an arm of its own, as document 01 lists them (edit fourteen_with_one_number).
pub fn read(s: &[u8], from: Cursor) -> Result<(Event, Cursor), Fault>
    ensures { ReadOwes s.now from result }
{
    let (code, behind) = reader::read_u8(s, from).ok_or(Fault::Cut)?;
    match code {
        0 => one_number(s, behind, code),
        14 => two_numbers(s, behind, code),
        15 => one_number(s, behind, code),
        30 => two_numbers(s, behind, code),
        255 => close(s, behind),
        _ => Err(Fault::Corrupt),
    }
}
