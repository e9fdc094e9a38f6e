// The walk over a section: one look, and what it does to each part of the walk's state. The Rust's data.rs.
// A walk is a value: every function takes it and hands it back, and its history with it.
#![tactic(auto)]

ghost use Rattle.std.specs.Prelude.{true, ◌≡◌};
ghost use Rattle.std.proofs.Math.ListN as ListN;
ghost use Rattle.section.specs.Answers.{told, handed};
ghost use Rattle.section.specs.Fits.{Fits, Rooms};
ghost use Rattle.section.specs.Owes.{IsOverOwes, StartOwes, PutOwes, FieldsOfOwes, RefusedOwes, OverOwes, SettleOwes, LookOwes};
ghost use Rattle.section.specs.Refusals.{admitted};
ghost use Rattle.section.specs.Walk.{tick};

use crate::accepted::looked;
use crate::refusals::check;
use event::Event;
use extent::{Look, Seen};
use history::History;
use plan::Definition;
use reader::Kind;

mod accepted;
pub mod counting;
pub mod quick;
pub mod refusals;

// How a walk ended, if it has. A cut names the kind and the place of the trial that the data ended in.
#[derive(Clone, Copy)]
pub enum Ending {
    Going,
    Done,
    Out,
    Cut(Kind, usize),
}

// Where a walk stands, and what it has counted: accepted main, event and slow frames, rejected trials; and all its trials, a final cut included.
// The counts stand by number: the edit fifth_count (session) reads a fifth, of which names could not tell.
#[derive(Clone, Copy)]
pub struct Tally {
    pub place: usize,
    pub ending: Ending,
    pub counts: [usize; 4],
    pub trials: usize,
}

#[derive(Clone, Copy)]
pub struct Walk {
    pub tally: Tally,
    pub history: History,
}

// An accepted main frame: the place of its kind byte, its iteration and its time.
#[derive(Clone, Copy)]
pub struct MainAnswer {
    pub at: usize,
    pub iteration: u32,
    pub time: u64,
}

#[derive(Clone, Copy)]
pub struct EventAnswer {
    pub at: usize,
    pub event: Event,
}

#[derive(Clone, Copy)]
pub struct SlowAnswer {
    pub at: usize,
}

// Why a call is refused: the definition or the walk is none that there can be (10), or the value buffer is shorter than it must be (11).
#[derive(Clone, Copy)]
pub enum Refusal {
    Unsound,
    TooShort(usize),
}

// What a look answers. The first two are in vain, and no call answers them: a byte that starts no frame, and a rejected trial with its kind and place.
#[derive(Clone, Copy)]
pub enum Answer {
    Passed,
    Rejected(Kind, usize),
    Event(EventAnswer),
    Intra(MainAnswer),
    Inter(MainAnswer),
    Slow(SlowAnswer),
    Over(Ending),
    Refused(Refusal),
}

// An answer, the trials so far, and the walk behind it.
#[derive(Clone, Copy)]
pub struct Looked {
    pub answer: Answer,
    pub trials: usize,
    pub walk: Walk,
}

impl Answer {
    // Whether it is an ending or a refusal: the same call again gives no frame.
    #[tactic(auto, unfolding(crate::specs::Answers::is_over))]
    pub fn is_over(self) -> bool
        ensures { IsOverOwes self result }
    {
        matches!(self, Answer::Over(_) | Answer::Refused(_))
    }
}

impl Walk {
    // A walk that has not begun.
    #[tactic(auto, unfolding(crate::specs::Walk::start))]
    pub fn start() -> Walk
        ensures { StartOwes result }
    {
        Walk {
            tally: Tally {
                place: 0,
                ending: Ending::Going,
                counts: [0usize; 4],
                trials: 0,
            },
            history: History::empty(),
        }
    }
}

// Puts values in front of a buffer, as many as it has places; the rest keep their content.
#[tactic(auto, using(crate::proofs::Filling::in_front))]
pub fn put(values: &[u32], out: &mut [u32])
    ensures { PutOwes values.now out.old out.new }
{
    let n = values.len().min(out.len());
    out[..n].copy_from_slice(&values[..n]);
}

// A refusal hands the walk back, and reports no trials.
#[tactic(auto, unfolding(crate::specs::Answers::refusing))]
pub fn refused(why: Refusal, w: Walk) -> Looked
    ensures { RefusedOwes why w result }
{
    Looked {
        answer: Answer::Refused(why),
        trials: 0,
        walk: w,
    }
}

// A walk that has ended.
#[tactic(auto, unfolding(crate::specs::Answers::handed, crate::specs::Walk::over))]
pub fn over(w: Walk) -> Looked
    ensures { OverOwes w result }
{
    let tally = w.tally;
    Looked {
        answer: Answer::Over(tally.ending),
        trials: tally.trials,
        walk: w,
    }
}

// How many fields an answer hands out.
#[tactic(auto, unfolding(crate::specs::Answers::hands_out))]
pub fn fields_of(d: Definition, answer: Answer) -> usize
    ensures { FieldsOfOwes d answer result }
{
    match answer {
        Answer::Intra(_) | Answer::Inter(_) => d.main.fields(),
        Answer::Slow(_) => d.slow.n,
        _ => 0,
    }
}

// What a look does to a walk over a section of so many bytes.
#[tactic(auto, unfolding(crate::specs::Walk::settled, crate::specs::Walk::answer_after, crate::specs::Walk::fields_after, crate::specs::Walk::history_after))]
pub fn settle(d: Definition, w: Walk, l: Look, length: usize, out: &mut [u32]) -> Looked
    requires { Fits w.tally l.seen length × Rooms d (ListN.length out.old) }
    ensures { SettleOwes d w l length out.old result out.new }
{
    let at = w.tally.place;
    let history = w.history;
    let tally = w.tally.after(l.seen, length);
    match l.seen {
        Seen::Nothing => looked(Answer::Over(Ending::Out), tally, history),
        Seen::Passed(_) => looked(Answer::Passed, tally, history),
        Seen::Rejected(kind, _) => looked(Answer::Rejected(kind, at), tally, history),
        Seen::Cutoff(kind) => looked(Answer::Over(Ending::Cut(kind, at)), tally, history),
        Seen::Accepted(frame, _) => accepted::settle(d, frame, l.raw, at, tally, history, out),
    }
}

// A look from an admitted walk.
fn look_once(d: Definition, w: Walk, s: &[u8], out: &mut [u32]) -> Looked
    requires { (admitted d (ListN.length s.now) w ≡ true) × Rooms d (ListN.length out.old) }
    ensures { told result out.new ≡ handed (tick d s.now w) out.old }
{
    let tally = w.tally;
    match tally.ending {
        Ending::Going => {
            let l = extent::sight(d, s, tally.place);
            settle(d, w, l, s.len(), out)
        }
        _ => over(w),
    }
}

// One look: at most one trial. Its values go to the lent buffer.
pub fn look(d: Definition, w: Walk, s: &[u8], out: &mut [u32]) -> Looked
    ensures { LookOwes d w s.now out.old result out.new }
{
    match check(d, w, s.len(), out.len()) {
        Ok(()) => look_once(d, w, s, out),
        Err(why) => refused(why, w),
    }
}
