// One call of a walk whose values stand in lent rooms: the faster form of `step`, for whole walks.
// The fields go to the rooms for them, 0 behind the last; what these hold before does not matter.
ghost use Rattle.std.specs.Prelude.{true, ◌≡◌, length, replicate};
ghost use Rattle.extent.specs.Sight.{Barren};
ghost use Rattle.section.specs.declared.Ending.TheVariants.{Going};
ghost use Rattle.section.specs.Fits.{Rooms};
ghost use Rattle.section.specs.Lent.{walk_of};
ghost use Rattle.section.specs.Refusals.{admitted};
ghost use Rattle.calls.specs.Lent.{StepsIn, over_beside};

use crate::in_vain;
use plan::Definition;
use section::quick::{Light, Values, settle_in};
use section::{Answer, Ending};

// What a call answers, the walk behind it, and whether nothing is left to search for.
#[derive(Clone, Copy)]
pub struct Stepped {
    pub answer: Answer,
    pub walk: Light,
    pub barren: bool,
}

// The looks of a walk that goes on. Once a search has found nothing, none is made again.
fn looks_in(d: Definition, w: Light, s: &[u8], barren: bool, values: &mut Values) -> Stepped
    requires walk_admitted { (admitted d (length s.now) (walk_of w values.old) ≡ true) × Rooms d 62 }
    requires going { (w.tally.ending ≡ Going) × Barren barren s.now w.tally.place }
    ensures { StepsIn d w s.now values.old result values.new }
{
    let heads = w.heads;
    let mut tally = w.tally;
    let mut known = barren;
    let mut raws = [0u32; 62];
    loop {
        let g = extent::sight_into(d, s, tally.place, known, &mut raws);
        let Some(nothing) = in_vain(g.seen) else {
            let now = Light { tally, heads };
            let settled = settle_in(d, now, g, &raws, s.len(), values);
            return Stepped {
                answer: settled.answer,
                walk: settled.walk,
                barren: known,
            };
        };
        tally = tally.after(g.seen, s.len());
        known = nothing;
    }
}

fn over_in(w: Light, barren: bool, values: &mut Values) -> Stepped
    ensures { (result ≡ over_beside w barren) × (values.new ≡ record { last = values.old.last; older = values.old.older; fields = replicate 62 0 }) }
{
    raws::clear(&mut values.fields);
    Stepped {
        answer: Answer::Over(w.tally.ending),
        walk: w,
        barren,
    }
}

// A call from an admitted walk, and with the flag of the calls before it.
pub fn step_in(d: Definition, w: Light, s: &[u8], barren: bool, values: &mut Values) -> Stepped
    requires walk_admitted { (admitted d (length s.now) (walk_of w values.old) ≡ true) × Rooms d 62 }
    requires barren { Barren barren s.now w.tally.place }
    ensures { StepsIn d w s.now values.old result values.new }
{
    match w.tally.ending {
        Ending::Going => looks_in(d, w, s, barren, values),
        _ => over_in(w, barren, values),
    }
}
