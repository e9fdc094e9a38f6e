// One call: looks until one has something to say. The Rust's DataParser::next.
// A quiet look changes the tally alone, so the history is not touched until the call answers.
#![tactic(auto)]

ghost use Rattle.std.specs.Prelude.{true, ◌≡◌, length};
ghost use Rattle.extent.specs.Sight.{Barren};
ghost use Rattle.section.specs.Fits.{Rooms};
ghost use Rattle.section.specs.Refusals.{admitted};
ghost use Rattle.calls.specs.Owes.{CallOwes};
ghost use Rattle.calls.specs.Steps.{vain, Steps};

use extent::Seen;
use plan::Definition;
use section::quick::Settled;
use section::{Looked, Walk};

pub mod quick;

// What a call gives, and whether nothing is left to search for.
#[derive(Clone, Copy)]
pub struct Called {
    pub looked: Looked,
    pub barren: bool,
}

// A look in vain ended in a search: whether that found nothing.
#[tactic(auto, unfolding(crate::specs::Steps::vain))]
fn in_vain(seen: Seen) -> Option<bool>
    ensures { result ≡ vain seen }
{
    match seen {
        Seen::Passed(found) | Seen::Rejected(_, found) => Some(found.is_none()),
        Seen::Nothing | Seen::Cutoff(_) | Seen::Accepted(_, _) => None,
    }
}

// A call from an admitted walk, and with the flag of the calls before it: whole walks check once, and search the section once.
// It is `step_in`, with rooms of its own.
pub fn step(d: Definition, w: Walk, s: &[u8], barren: bool, out: &mut [u32]) -> Called
    requires w_admitted { (admitted d (length s.now) w ≡ true) × Rooms d (length out.old) }
    requires barren { Barren barren s.now w.tally.place }
    ensures { Steps d w s.now out.old result out.new }
{
    let mut values = w.values();
    let stepped = quick::step_in(d, w.light(), s, barren, &mut values);
    let settled = Settled {
        answer: stepped.answer,
        walk: stepped.walk,
    };
    Called {
        looked: settled.hand_out(d, &values, out),
        barren: stepped.barren,
    }
}

// One call: an accepted frame, or how the walk has ended. Its values go to the lent buffer.
pub fn call(d: Definition, w: Walk, s: &[u8], out: &mut [u32]) -> Looked
    ensures { CallOwes d w s.now out.old result out.new }
{
    match section::refusals::check(d, w, s.len(), out.len()) {
        Ok(()) => step(d, w, s, false, out).looked,
        Err(why) => section::refused(why, w),
    }
}
