// Fields in groups: a run of neighbouring fields of one encoding is read at once, up to the encoding's size.
// The Rust's read_field_values over encodings alone; its zips and peeking are counted rounds here.
ghost use Rattle.std.specs.Prelude.{◌≡◌, ◌<◌, ◌≤◌, length, take, drop};
ghost use Rattle.reader.specs.Got.{over};
ghost use Rattle.reader.specs.Place.{rest, read_at, group_at};
ghost use Rattle.raws.specs.Chunks.{first_run, single, settled};
ghost use Rattle.raws.specs.Groups.{size, runs, numbers};
ghost use Rattle.raws.specs.Groups as Groups;
ghost use Rattle.raws.specs.Place.{lent_at};
ghost use Rattle.raws.specs.Raws.{raw};

use crate::{Front, clear};
use decode::negative_14_bit::negative_14_bit;
use decode::tagged_variable::tagged_variable;
use decode::variable::{variable, variable_signed};
use reader::{Cursor, Fault, Group};
use tagged::tagged_16::tagged_16;
use tagged::tagged_32::tagged_32;

#[tactic(auto, unfolding(crate::specs::Groups::size))]
fn max_chunk_size(encoding: u8) -> usize
    ensures { result ≡ size encoding }
{
    match encoding {
        6 => 8,
        7 => 3,
        8 => 4,
        _ => 1,
    }
}

// How many fields from field i on are read as one group.
fn chunk(encodings: &[u8], i: usize) -> usize
    requires { i < length encodings.now }
    ensures { result ≡ first_run (runs (drop i encodings.now)) }
{
    let encoding = encodings[i];
    let most = max_chunk_size(encoding);
    for n in 1..most {
        let next = i + n;
        if encodings.len() <= next {
            return n;
        }
        if encodings[next] != encoding {
            return n;
        }
    }
    most
}

// A number by itself. What is no encoding is corrupt.
#[tactic(auto, using(crate::proofs::Encodings::of_0, crate::proofs::Encodings::of_1, crate::proofs::Encodings::of_3, crate::proofs::Encodings::of_none))]
fn number(encoding: u8, s: &[u8], from: Cursor) -> Result<(u32, Cursor), Fault>
    ensures { result ≡ read_at from (single encoding (rest from s.now)) }
{
    match encoding {
        0 => variable_signed(s, from),
        1 => variable(s, from),
        3 => negative_14_bit(s, from),
        9 => decode::null(from),
        _ => Err(Fault::Corrupt),
    }
}

// All numbers that a group of n fields reads.
#[tactic(auto, using(crate::proofs::Encodings::of_6, crate::proofs::Encodings::of_7, crate::proofs::Encodings::of_8, crate::proofs::Encodings::is_8))]
fn group(encoding: u8, n: usize, s: &[u8], from: Cursor) -> Group
    requires { 1 < size encoding }
    ensures { result ≡ group_at from (Groups.group encoding n (rest from s.now)) }
{
    match encoding {
        6 => tagged_variable(s, from, n),
        7 => tagged_32(s, from),
        _ => tagged_16(s, from),
    }
}

// The first numbers of a group, as many as there is room for, into their places.
// Eight steps, whatever the room: a loop over the room alone is compiled to a call of memcpy, which takes longer for so few.
fn lay(out: &mut [u32], numbers: [u32; 8])
    requires { length out.old ≤ 8 }
    ensures { out.new ≡ take (length out.old) numbers }
{
    for i in 0..8 {
        if i < out.len() {
            out[i] = numbers[i];
        }
    }
}

// The numbers of the fields into lent rooms, behind the two that stand before them. A turn takes as many fields as a group has: no `for`.
pub(crate) fn read_into(
    encodings: &[u8],
    s: &[u8],
    from: Cursor,
    iteration: u32,
    time: u32,
    out: &mut [u32; 62],
) -> Result<Front, Fault>
    requires { length encodings.now ≤ 62 }
    ensures { settled result out.new ≡ lent_at from (over (raw iteration time) (numbers encodings.now (rest from s.now))) }
{
    clear(out);
    let mut next = from;
    let mut i = 0;
    while i < encodings.len() {
        let encoding = encodings[i];
        if max_chunk_size(encoding) == 1 {
            let (v, behind) = number(encoding, s, next)?;
            out[i] = v;
            next = behind;
            i += 1;
        } else {
            let n = chunk(encodings, i);
            let read = group(encoding, n, s, next);
            let numbers = read.values;
            next = read.step?;
            lay(&mut out[i..i + n], numbers);
            i += n;
        }
    }
    Ok(Front {
        behind: next,
        iteration,
        time,
    })
}
