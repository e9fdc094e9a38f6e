// The two main frames before the next: the Rust's MainFrameHistory, data.rs.
// Each step takes the history and hands it back; one thin push takes it by exclusive reference.
#![tactic(auto)]

ghost use Rattle.std.specs.Prelude.{◌≡◌};
ghost use Rattle.history.specs.History.{in_order};
ghost use Rattle.history.specs.Owes.{EmptyOwes, PushedOwes, IsSoundOwes, HeadPushedOwes, WithOwes, HeadsOwes, PushValuesOwes};

use frame::{Head, MainFrame, Mark};

#[derive(Clone, Copy)]
pub struct History {
    pub last: MainFrame,
    pub older: MainFrame,
}

// Whether there is no older frame without a last.
#[tactic(auto, unfolding(crate::specs::History::in_order))]
fn are_in_order(last: Mark, older: Mark) -> bool
    ensures { result ≡ in_order last older }
{
    !matches!((last, older), (Mark::Absent, Mark::Intra | Mark::Inter))
}

impl History {
    // Before a section's first main frame.
    #[tactic(auto, unfolding(crate::specs::History::empty))]
    pub fn empty() -> History
        ensures { EmptyOwes result }
    {
        History {
            last: MainFrame::absent(),
            older: MainFrame::absent(),
        }
    }

    // An accepted main frame becomes last, and last becomes older.
    #[tactic(auto, unfolding(crate::specs::History::pushed))]
    pub fn pushed(self, frame: MainFrame) -> History
        ensures { PushedOwes self frame result }
    {
        History {
            last: frame,
            older: self.last,
        }
    }

    // Whether a walk may have it.
    #[tactic(auto, unfolding(crate::specs::History::sound))]
    pub fn is_sound(self) -> bool
        ensures { IsSoundOwes self result }
    {
        are_in_order(self.last.mark, self.older.mark)
    }
}

// The history but for the values of its frames, which stand beside it in lent rooms.
// No generic pair for both: the definitions of `specs/` from here to imports name the record History, and `pushed` is one line.
#[derive(Clone, Copy)]
pub struct Heads {
    pub last: Head,
    pub older: Head,
}

impl Heads {
    // `pushed`, of the heads.
    pub fn pushed(self, head: Head) -> Heads
        ensures { HeadPushedOwes self head result }
    {
        let older = self.last;
        Heads { last: head, older }
    }

    // With the values: the whole history.
    pub fn with(self, last: [u32; 62], older: [u32; 62]) -> History
        ensures { WithOwes self last older result }
    {
        History {
            last: self.last.with(last),
            older: self.older.with(older),
        }
    }
}

impl History {
    pub fn heads(self) -> Heads
        ensures { HeadsOwes self result }
    {
        Heads {
            last: self.last.head(),
            older: self.older.head(),
        }
    }
}

// `pushed`, of the values.
pub fn push_values(values: &[u32; 62], last: &mut [u32; 62], older: &mut [u32; 62])
    ensures { PushValuesOwes values.now last.old last.new older.new }
{
    *older = *last;
    *last = *values;
}

// `pushed` behind an exclusive reference: the Rust's push, which also hands back a reference to the frame in the history.
pub fn push(h: &mut History, frame: MainFrame)
    ensures { PushedOwes h.old frame h.new }
{
    *h = h.pushed(frame);
}

// The history by value again, by way of `push`: what programs call.
pub fn push_through(h: History, frame: MainFrame) -> History
    ensures { PushedOwes h frame result }
{
    let mut lent = h;
    push(&mut lent, frame);
    lent
}
