// The raw numbers of main and slow frames: where a frame's fields end, and whether it is cut or corrupt.
// The first half of the Rust's frame/mod.rs; predictors and histories have no part in it.
#![tactic(auto)]

ghost use Rattle.std.specs.Prelude.{◌≡◌, ◌≤◌, length, take};
ghost use Rattle.reader.specs.Got.{over};
ghost use Rattle.reader.specs.Place.{rest, read_at};
ghost use Rattle.raws.specs.Chunks.{settled, raw_of};
ghost use Rattle.raws.specs.Groups.{numbers};
ghost use Rattle.raws.specs.Owes.{ClearOwes, MainFieldsOwes, IntraIntoOwes, InterIntoOwes, SlowIntoOwes, IntraOwes, InterOwes, SlowOwes, some_of};
ghost use Rattle.raws.specs.Place.{beside, lent_at};
ghost use Rattle.raws.specs.Raws.{raw, intra_raw, inter_raw, slow_raw};

use crate::groups::read_into;
use decode::variable::{variable, variable_signed};
use plan::Definition;
use reader::{Cursor, Fault};

mod groups;

// The numbers of a frame: 0 where its kind has none, and behind the last field. An inter frame's time is its offset.
#[derive(Clone, Copy)]
pub struct Raw {
    pub iteration: u32,
    pub time: u32,
    pub fields: [u32; 62],
}

// What a frame's reading gives but for the numbers of its fields, which stand beside it in lent rooms.
#[derive(Clone, Copy)]
pub struct Front {
    pub behind: Cursor,
    pub iteration: u32,
    pub time: u32,
}

// Every room of a frame becomes 0.
pub fn clear(rooms: &mut [u32; 62])
    ensures { ClearOwes rooms.new }
{
    rooms.fill(0);
}

// A reading that stopped leaves no numbers in its rooms.
fn or_emptied(front: Result<Front, Fault>, out: &mut [u32; 62]) -> Result<Front, Fault>
    ensures { beside result out.new ≡ settled front out.old }
{
    if front.is_err() {
        clear(out);
    }
    front
}

// A reading of what stands in two places.
fn joined(front: Result<Front, Fault>, fields: [u32; 62]) -> Result<(Raw, Cursor), Fault>
    ensures { result ≡ raw_of front fields }
{
    let front = front?;
    let raw = Raw {
        iteration: front.iteration,
        time: front.time,
        fields,
    };
    Ok((raw, front.behind))
}

// The first n fields of as many as a frame can have, behind the numbers before them. A list stands with its length in a definition's rooms: no heap.
#[tactic(auto, using(crate::proofs::Frames::all_rooms))]
fn fields_into(
    n: usize,
    encodings: &[u8],
    s: &[u8],
    from: Cursor,
    iteration: u32,
    time: u32,
    out: &mut [u32; 62],
) -> Result<Front, Fault>
    requires { length encodings.now ≤ 62 }
    ensures { settled result out.new ≡ lent_at from (over (raw iteration time) (numbers (take n encodings.now) (rest from s.now))) }
{
    let some = n.min(encodings.len());
    read_into(&encodings[..some], s, from, iteration, time, out)
}

// The frames, each with the first n of its fields. What the rooms hold where one stopped is not said.
fn intra_front(
    n: usize,
    encodings: &[u8; 62],
    s: &[u8],
    from: Cursor,
    out: &mut [u32; 62],
) -> Result<Front, Fault>
    ensures { settled result out.new ≡ lent_at from (intra_raw (take n encodings.now) (rest from s.now)) }
{
    let (iteration, next) = variable(s, from)?;
    let (time, behind) = variable(s, next)?;
    fields_into(n, &encodings[..], s, behind, iteration, time, out)
}

fn inter_front(
    n: usize,
    encodings: &[u8; 62],
    s: &[u8],
    from: Cursor,
    out: &mut [u32; 62],
) -> Result<Front, Fault>
    ensures { settled result out.new ≡ lent_at from (inter_raw (take n encodings.now) (rest from s.now)) }
{
    let (time, behind) = variable_signed(s, from)?;
    fields_into(n, &encodings[..], s, behind, 0, time, out)
}

// No number stands before the fields of a slow frame; without slow lists it is corrupt at once.
#[tactic(auto, using(crate::proofs::Frames::slow_none, crate::proofs::Frames::slow_is))]
fn slow_front(
    n: usize,
    encodings: &[u8; 16],
    s: &[u8],
    from: Cursor,
    out: &mut [u32; 62],
) -> Result<Front, Fault>
    ensures { settled result out.new ≡ lent_at from (slow_raw (some_of n encodings.now) (rest from s.now)) }
{
    if n == 0 {
        return Err(Fault::Corrupt);
    }
    fields_into(n, &encodings[..], s, from, 0, 0, out)
}

// An intra frame with the first n of 62 fields.
pub fn intra_into(
    n: usize,
    encodings: &[u8; 62],
    s: &[u8],
    from: Cursor,
    out: &mut [u32; 62],
) -> Result<Front, Fault>
    ensures { IntraIntoOwes n encodings.now s.now from result out.new }
{
    let front = intra_front(n, encodings, s, from, out);
    or_emptied(front, out)
}

// An inter frame with the first n of 62 fields.
pub fn inter_into(
    n: usize,
    encodings: &[u8; 62],
    s: &[u8],
    from: Cursor,
    out: &mut [u32; 62],
) -> Result<Front, Fault>
    ensures { InterIntoOwes n encodings.now s.now from result out.new }
{
    let front = inter_front(n, encodings, s, from, out);
    or_emptied(front, out)
}

// A slow frame with the first n of 16 fields.
pub fn slow_into(
    n: usize,
    encodings: &[u8; 16],
    s: &[u8],
    from: Cursor,
    out: &mut [u32; 62],
) -> Result<Front, Fault>
    ensures { SlowIntoOwes n encodings.now s.now from result out.new }
{
    let front = slow_front(n, encodings, s, from, out);
    or_emptied(front, out)
}

// The fields alone, as a value.
#[tactic(auto, using(crate::proofs::Frames::value_is))]
pub fn main_fields(
    n: usize,
    encodings: [u8; 62],
    s: &[u8],
    from: Cursor,
    iteration: u32,
    time: u32,
) -> Result<(Raw, Cursor), Fault>
    ensures { MainFieldsOwes n encodings s.now from iteration time result }
{
    let mut fields = [0u32; 62];
    let front = fields_into(n, &encodings[..], s, from, iteration, time, &mut fields);
    joined(front, fields)
}

// The frames of a definition, as values: each names its own list and reader, and a function over both would be no shorter.
#[tactic(auto, using(crate::proofs::Frames::value_is, crate::proofs::Frames::counted), unfolding(plan::specs::Plan::shape))]
pub fn intra(d: Definition, s: &[u8], from: Cursor) -> Result<(Raw, Cursor), Fault>
    ensures { IntraOwes d s.now from result }
{
    let main = d.main;
    let encodings = main.intra_encodings;
    let mut fields = [0u32; 62];
    let front = intra_front(main.fields(), &encodings, s, from, &mut fields);
    joined(front, fields)
}

#[tactic(auto, using(crate::proofs::Frames::value_is, crate::proofs::Frames::counted), unfolding(plan::specs::Plan::shape))]
pub fn inter(d: Definition, s: &[u8], from: Cursor) -> Result<(Raw, Cursor), Fault>
    ensures { InterOwes d s.now from result }
{
    let main = d.main;
    let encodings = main.inter_encodings;
    let mut fields = [0u32; 62];
    let front = inter_front(main.fields(), &encodings, s, from, &mut fields);
    joined(front, fields)
}

#[tactic(auto, using(crate::proofs::Frames::value_is), unfolding(plan::specs::Plan::shape))]
pub fn slow(d: Definition, s: &[u8], from: Cursor) -> Result<(Raw, Cursor), Fault>
    ensures { SlowOwes d s.now from result }
{
    let slow = d.slow;
    let encodings = slow.encodings;
    let mut fields = [0u32; 62];
    let front = slow_front(slow.n, &encodings, s, from, &mut fields);
    joined(front, fields)
}
