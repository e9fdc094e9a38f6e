// Walks for C: the first state, the count of a section, the values of one frame, and rows that go on where they stopped.
ghost use Rattle.std.specs.Prelude.{◌≡◌, ◌/◌};
ghost use Rattle.section.specs.Refusals.{checked};
ghost use Rattle.section.specs.Walk.{start};
ghost use Rattle.dulimasca.specs.Owes.{StartOwes, CountOwes, FillOwes, RowsOwes};
ghost use Rattle.dulimasca.specs.Told.{answered, in_bytes};

use crate::telling::{
    TOLD, answer, definition, fill_numbers, number, room, sort_for, status_by, tally_numbers, tell,
    walk,
};
use plan::Definition;
use section::{Refusal, Walk};
use store::STATE;

fn start(state: &mut [u8], told: &mut [u8]) -> Result<u64, Refusal>
    ensures { StartOwes state.old told.old (answered result) state.new told.new }
{
    room(state, STATE)?;
    room(told, TOLD)?;
    store::state::put(state, Walk::start());
    tell([0, 0, 0, 0, 0, 0, 0, 0], told);
    Ok(0)
}

// 0, and the state of a walk that has not begun; or refusal 11.
pub fn dulimasca_start(state: &mut [u8], told: &mut [u8]) -> u64
    ensures { StartOwes state.old told.old result state.new told.new }
{
    answer(start(state, told))
}

fn count(def: &[u8], s: &[u8], told: &mut [u8]) -> Result<u64, Refusal>
    ensures { CountOwes def.now s.now told.old (answered result) told.new }
{
    let d = definition(def)?;
    if !d.is_sound() {
        return Err(Refusal::Unsound);
    }
    room(told, TOLD)?;
    let tally = walks::count(d, s).tally;
    tell(tally_numbers(tally, 0), told);
    Ok(status_by(tally.ending))
}

// How a whole walk ends, 1 to 3, or refusal 10 or 11. `told`: place; main, event and slow frames; rejected trials; trials.
pub fn dulimasca_count(def: &[u8], s: &[u8], told: &mut [u8]) -> u64
    ensures { CountOwes def.now s.now told.old result told.new }
{
    answer(count(def, s, told))
}

// Refusals 10 and 11 of a buffer of values, of four bytes each: a needed length is told in bytes.
fn check_values(d: Definition, length: usize, bytes: usize) -> Result<(), Refusal>
    ensures { result ≡ in_bytes (checked d start length (bytes / 4)) 4 }
{
    match section::refusals::check(d, Walk::start(), length, bytes / 4) {
        Ok(()) => Ok(()),
        Err(Refusal::Unsound) => Err(Refusal::Unsound),
        Err(Refusal::TooShort(values)) => Err(Refusal::TooShort(4 * values)),
    }
}

fn fill(
    def: &[u8],
    s: &[u8],
    kind: u32,
    k: usize,
    out: &mut [u8],
    told: &mut [u8],
) -> Result<u64, Refusal>
    ensures { FillOwes def.now s.now kind k out.old told.old (answered result) out.new told.new }
{
    let d = definition(def)?;
    let of = sort_for(kind)?;
    check_values(d, s.len(), out.len())?;
    room(told, TOLD)?;
    let mut fields = [0u32; 62];
    let looked = walks::fill(d, s, of, k, &mut fields);
    let n = section::fields_of(d, looked.answer);
    octets::put_values(out, 0, &fields[..n]);
    tell(fill_numbers(looked.answer, looked.trials as u64), told);
    Ok(number(looked.answer))
}

// The `k`-th accepted frame of a kind (0 main, 1 slow), from 0: its letter's byte, its values in `out`, four bytes each, and in `told` its place, iteration
// and time; or how the walk ended before it, 1 to 3, and of a cut the letter and the place; fourth the trials. Or refusal 10, or 11 with the needed bytes.
pub fn dulimasca_fill(
    def: &[u8],
    s: &[u8],
    kind: u32,
    k: usize,
    out: &mut [u8],
    told: &mut [u8],
) -> u64
    ensures { FillOwes def.now s.now kind k out.old told.old result out.new told.new }
{
    answer(fill(def, s, kind, k, out, told))
}

// Refusals 10 and 11 of the rows' own buffer come before 11 of the numbers'.
fn lay_rows(
    def: &[u8],
    state: &mut [u8],
    s: &[u8],
    out: &mut [u8],
    told: &mut [u8],
) -> Result<u64, Refusal>
    ensures { RowsOwes def.now state.old s.now out.old
        told.old (answered result) state.new out.new told.new }
{
    let d = definition(def)?;
    let w = walk(state)?;
    if told.len() < TOLD {
        rows::check(d, w, s.len(), out.len())?;
        return Err(Refusal::TooShort(TOLD));
    }
    // Of a refusal the number alone is told: the walk that it hands back stands in the state.
    match rows::next(d, w, s, out) {
        Ok(laid) => {
            let tally = laid.walk.tally;
            store::state::put(state, laid.walk);
            tell(tally_numbers(tally, laid.count), told);
            Ok(status_by(tally.ending))
        }
        Err(unlaid) => Err(unlaid.why),
    }
}

// The next rows of a walk: as many whole ones as `out` has room for, and the walk behind them in `state`. 0: there may be more; 1 to 3: how the walk ended;
// or refusal 10, or 11 with the length of a row. `told`: what `dulimasca_count` tells, of the walk so far, and how many rows there are.
pub fn dulimasca_rows(
    def: &[u8],
    state: &mut [u8],
    s: &[u8],
    out: &mut [u8],
    told: &mut [u8],
) -> u64
    ensures { RowsOwes def.now state.old s.now out.old
        told.old result state.new out.new told.new }
{
    answer(lay_rows(def, state, s, out, told))
}
