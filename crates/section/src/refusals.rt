// Refusals 10 and 11, asked before any answer, on a finished walk too.
ghost use Rattle.std.specs.Prelude.{◌≡◌, eqb};
ghost use Rattle.section.specs.Owes.{AdmitsOwes, RoomNeededOwes, CheckOwes};
ghost use Rattle.section.specs.Refusals.{cuts, parts_of, tally_sound};

use crate::{Ending, Refusal, Tally, Walk};
use plan::Definition;

#[tactic(auto, unfolding(crate::specs::Refusals::cuts))]
fn cut_trials(ending: Ending) -> usize
    ensures { result ≡ cuts ending }
{
    if matches!(ending, Ending::Cut(_, _)) {
        1
    } else {
        0
    }
}

// Whether the trials are the sum of their parts. The parts are taken off one by one: their sum need not be a number of 64 bits.
#[tactic(auto, using(crate::proofs::Sums::off_first, crate::proofs::Sums::off_on, crate::proofs::Sums::off_all))]
fn is_sum(t: Tally) -> bool
    ensures { result ≡ eqb t.trials (parts_of t) }
{
    let counts = t.counts;
    let mut left = t.trials;
    for count in &counts {
        if left < *count {
            return false;
        }
        left -= *count;
    }
    left == cut_trials(t.ending)
}

#[tactic(auto, unfolding(crate::specs::Refusals::tally_sound))]
fn is_tally_sound(t: Tally, length: usize) -> bool
    ensures { result ≡ tally_sound length t }
{
    t.place <= length && t.trials <= t.place && is_sum(t)
}

// Whether a definition and a walk are what a section of so many bytes can have.
#[tactic(auto, unfolding(crate::specs::Refusals::admitted))]
pub fn admits(d: Definition, w: Walk, length: usize) -> bool
    ensures { AdmitsOwes d w length result }
{
    is_tally_sound(w.tally, length) && w.history.is_sound() && d.is_sound()
}

// The larger field count.
#[tactic(auto, unfolding(crate::specs::Refusals::needed))]
pub fn room_needed(d: Definition) -> usize
    ensures { RoomNeededOwes d result }
{
    d.main.fields().max(d.slow.n)
}

// 10 comes before 11.
#[tactic(auto, unfolding(crate::specs::Answers::found, crate::specs::Answers::refusal_for, crate::specs::Answers::paper_of))]
pub fn check(d: Definition, w: Walk, length: usize, room: usize) -> Result<(), Refusal>
    ensures { CheckOwes d w length room result }
{
    if !admits(d, w, length) {
        return Err(Refusal::Unsound);
    }
    let least = room_needed(d);
    if room < least {
        return Err(Refusal::TooShort(least));
    }
    Ok(())
}
