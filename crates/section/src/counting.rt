// A walk's tally: where it stands, whether it has ended, and what it has counted.
// No history has a part in it.
ghost use Rattle.std.specs.Prelude.{◌≡◌, ◌<◌, get_or};
ghost use Rattle.section.specs.Fits.{Fits};
ghost use Rattle.section.specs.Owes.{AfterOwes};
ghost use Rattle.section.specs.Tally.{ended_by, one_more, part_of};

use crate::{Ending, Tally};
use event::Event;
use extent::{Found, Seen};

// Where in the counts an accepted frame is counted.
#[tactic(auto, unfolding(crate::specs::Tally::part_of))]
fn part_of(frame: Found) -> usize
    ensures { (result ≡ part_of frame) × (result < 4) }
{
    match frame {
        Found::Event(_) => 1,
        Found::Intra | Found::Inter => 0,
        Found::Slow => 2,
    }
}

// The last event ends the walk.
#[tactic(auto, unfolding(crate::specs::Tally::ended_by))]
fn ended_by(frame: Found) -> Ending
    ensures { result ≡ ended_by frame }
{
    match frame {
        Found::Event(event) if event.code == 255 => Ending::Done,
        _ => Ending::Going,
    }
}

#[tactic(auto, unfolding(crate::specs::Tally::one_more))]
fn one_more(counts: [usize; 4], i: usize) -> [usize; 4]
    requires { (i < 4) × (get_or counts i 0 < 18446744073709551615) }
    ensures { result ≡ one_more counts i }
{
    let mut more = counts;
    more[i] = more[i] + 1;
    more
}

impl Tally {
    // The tally behind a look at a section of so many bytes.
    #[tactic(auto, unfolding(extent::specs::Extent::span))]
    pub fn after(self, seen: Seen, length: usize) -> Tally
        requires { Fits self seen length }
        ensures { AfterOwes self seen length result }
    {
        let counts = self.counts;
        match seen {
            Seen::Nothing => Tally {
                ending: Ending::Out,
                ..self
            },
            Seen::Passed(skip) => Tally {
                place: self.place + 1 + skip.unwrap_or(0),
                ending: Ending::Going,
                ..self
            },
            Seen::Rejected(_, skip) => Tally {
                place: self.place + 1 + skip.unwrap_or(0),
                ending: Ending::Going,
                counts: one_more(counts, 3),
                trials: self.trials + 1,
            },
            Seen::Cutoff(kind) => Tally {
                place: length,
                ending: Ending::Cut(kind, self.place),
                trials: self.trials + 1,
                ..self
            },
            Seen::Accepted(frame, more) => Tally {
                place: self.place + 1 + more,
                ending: ended_by(frame),
                counts: one_more(counts, part_of(frame)),
                trials: self.trials + 1,
            },
        }
    }
}
