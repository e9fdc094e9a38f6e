// What a look does to a walk whose values stand in lent rooms: the faster form of `settle`, for whole walks.
// Only small structs go by value, so that nothing is copied but the values of an accepted main frame. The fields go to lent rooms too, 0 behind the last.
ghost use Rattle.std.specs.Prelude.{◌≡◌, [], replicate};
ghost use Rattle.frame.specs.Parts.{raw_of};
ghost use Rattle.section.specs.Answers.{handed};
ghost use Rattle.section.specs.Fits.{Fits, Rooms};
ghost use Rattle.section.specs.Lent.{history_beside, told_beside};
ghost use Rattle.section.specs.Owes.{LightOwes, ValuesOwes, WithOwes, HandOutOwes, SettleInOwes};
ghost use Rattle.section.specs.Walk.{answer_with, fields_with, history_with, outcome};

use crate::{Answer, Ending, EventAnswer, Looked, MainAnswer, SlowAnswer, Tally, Walk};
use extent::{Found, Glance, Seen};
use frame::Head;
use history::Heads;
use plan::Definition;

// A walk but for the values of its main frames.
// It stays beside `Walk`: the edits parts_exchanged and trials_left_behind say wrong things of taking a walk apart and putting it together.
#[derive(Clone, Copy)]
pub struct Light {
    pub tally: Tally,
    pub heads: Heads,
}

// The values beside it: those of its last and its older frame, and the fields of its last answer, 0 behind the last of them.
#[derive(Clone, Copy)]
pub struct Values {
    pub last: [u32; 62],
    pub older: [u32; 62],
    pub fields: [u32; 62],
}

// An answer, and the walk behind it.
#[derive(Clone, Copy)]
pub struct Settled {
    pub answer: Answer,
    pub walk: Light,
}

impl Walk {
    pub fn light(self) -> Light
        ensures { LightOwes self result }
    {
        let heads = self.history.heads();
        Light {
            tally: self.tally,
            heads,
        }
    }

    // What stands beside its light, with no fields yet.
    pub fn values(self) -> Values
        ensures { ValuesOwes self result }
    {
        let last = self.history.last.values;
        let older = self.history.older.values;
        Values {
            last,
            older,
            fields: [0u32; 62],
        }
    }
}

impl Light {
    // With the values: the whole walk.
    pub fn with(self, values: &Values) -> Walk
        ensures { WithOwes self values.now result }
    {
        Walk {
            tally: self.tally,
            history: self.heads.with(values.last, values.older),
        }
    }
}

impl Settled {
    // With the values: the whole walk. Its fields go to the lent buffer.
    #[tactic(auto, using(crate::proofs::Filling::cut_same))]
    pub fn hand_out(self, d: Definition, values: &Values, out: &mut [u32]) -> Looked
        ensures { HandOutOwes d self values.now out.old result out.new }
    {
        let answer = self.answer;
        let walk = self.walk;
        let fields: &[u32] = &values.fields;
        let n = crate::fields_of(d, answer).min(fields.len());
        crate::put(&fields[..n], out);
        Looked {
            answer,
            trials: walk.tally.trials,
            walk: walk.with(values),
        }
    }
}

fn shown(at: usize, frame: Head) -> MainAnswer
    ensures { result ≡ record { at = at; iteration = frame.iteration; time = frame.time } }
{
    MainAnswer {
        at,
        iteration: frame.iteration,
        time: frame.time,
    }
}

fn light_with(answer: Answer, tally: Tally, heads: Heads) -> Settled
    ensures { result ≡ record { answer = answer; walk = record { tally = tally; heads = heads } } }
{
    Settled {
        answer,
        walk: Light { tally, heads },
    }
}

// An answer without fields: the rooms for them are emptied.
#[tactic(auto, using(crate::proofs::Lent::settled_tells), unfolding(crate::specs::Answers::handed))]
fn still(answer: Answer, tally: Tally, heads: Heads, values: &mut Values) -> Settled
    ensures { told_beside result values.new ≡ handed (outcome answer [] tally (history_beside heads values.old)) (replicate 62 0) }
{
    raws::clear(&mut values.fields);
    light_with(answer, tally, heads)
}

// The frame at a place, and the tally behind it.
fn accept(
    d: Definition,
    frame: Found,
    g: Glance,
    raws: &[u32; 62],
    at: usize,
    tally: Tally,
    heads: Heads,
    values: &mut Values,
) -> Settled
    requires { Rooms d 62 }
    ensures { told_beside result values.new ≡
        handed
        (outcome (answer_with d frame at (raw_of g.iteration g.time raws.now) (history_beside heads values.old))
        (fields_with d frame (raw_of g.iteration g.time raws.now) (history_beside heads values.old)) tally
        (history_with d frame (raw_of g.iteration g.time raws.now) (history_beside heads values.old)))
        (replicate 62 0) }
{
    match frame {
        Found::Event(event) => {
            still(
                Answer::Event(EventAnswer { at, event }),
                tally,
                heads,
                values,
            )
        }
        Found::Intra => {
            let head = frame::intra_in(
                d,
                heads.last,
                &values.last,
                g.iteration,
                g.time,
                raws,
                &mut values.fields,
            );
            history::push_values(&values.fields, &mut values.last, &mut values.older);
            light_with(Answer::Intra(shown(at, head)), tally, heads.pushed(head))
        }
        Found::Inter => {
            let head = frame::inter_in(
                d,
                heads.last,
                &values.last,
                heads.older,
                &values.older,
                g.time,
                raws,
                &mut values.fields,
            );
            history::push_values(&values.fields, &mut values.last, &mut values.older);
            light_with(Answer::Inter(shown(at, head)), tally, heads.pushed(head))
        }
        Found::Slow => {
            frame::slow_in(d, raws, &mut values.fields);
            light_with(Answer::Slow(SlowAnswer { at }), tally, heads)
        }
    }
}

// What a look does to a walk over a section of so many bytes.
#[tactic(auto, unfolding(crate::specs::Walk::settled, crate::specs::Walk::answer_after, crate::specs::Walk::fields_after, crate::specs::Walk::history_after,))]
pub fn settle_in(
    d: Definition,
    w: Light,
    g: Glance,
    raws: &[u32; 62],
    length: usize,
    values: &mut Values,
) -> Settled
    requires { Fits w.tally g.seen length × Rooms d 62 }
    ensures { SettleInOwes d w g raws.now length values.old result values.new }
{
    let at = w.tally.place;
    let heads = w.heads;
    let tally = w.tally.after(g.seen, length);
    match g.seen {
        Seen::Nothing => still(Answer::Over(Ending::Out), tally, heads, values),
        Seen::Passed(_) => still(Answer::Passed, tally, heads, values),
        Seen::Rejected(kind, _) => still(Answer::Rejected(kind, at), tally, heads, values),
        Seen::Cutoff(kind) => still(Answer::Over(Ending::Cut(kind, at)), tally, heads, values),
        Seen::Accepted(frame, _) => accept(d, frame, g, raws, at, tally, heads, values),
    }
}
