// Whole walks: to their end, over a section to count its frames, and to the k-th frame of a sort to fill in its values.
// The state is checked once and a barren search is made once, so that a section is walked in linear time.
#![tactic(auto)]

ghost use Rattle.std.specs.Prelude.{true, ◌||◌, ◌≡◌, ◌<◌, length};
ghost use Rattle.section.specs.Refusals.{admitted};
ghost use Rattle.section.specs.Answers.{told, handed, is_over};
ghost use Rattle.walks.specs.Owes.{ThroughOwes, CountOwes, FillOwes};
ghost use Rattle.walks.specs.Walks.{counted_at, is_reached, walked};

use calls::quick::step_in;
use plan::{Definition, Sort};
pub use section::fields_of;
use section::quick::Settled;
use section::{Answer, Looked, Refusal, Tally, Walk};

// Where a walk is to stop: at its end, or at a frame of a sort, counted from 0.
// An Option of a pair would be no plainer: its None would not say that the walk goes to its end.
#[derive(Clone, Copy)]
pub enum Goal {
    End,
    Frame(Sort, usize),
}

// How a whole walk from the section's start ended, or why it was refused, and what it counted.
#[derive(Clone, Copy)]
pub struct Counted {
    pub answer: Answer,
    pub tally: Tally,
}

#[tactic(auto, unfolding(crate::specs::Walks::counted_at))]
fn counted_at(of: Sort) -> usize
    ensures { (result ≡ counted_at of) × (result < 4) }
{
    match of {
        Sort::Main => 0,
        Sort::Slow => 2,
    }
}

#[tactic(auto, unfolding(crate::specs::Walks::is_reached))]
fn is_reached(goal: Goal, tally: Tally) -> bool
    ensures { result ≡ is_reached goal tally }
{
    match goal {
        Goal::End => false,
        Goal::Frame(of, k) => k < tally.counts[counted_at(of)],
    }
}

fn is_last(goal: Goal, answer: Answer, tally: Tally) -> bool
    ensures { result ≡ is_over answer || is_reached goal tally }
{
    answer.is_over() || is_reached(goal, tally)
}

// Calls from an admitted walk, to the goal or the end. The values of the last go to the lent buffer.
fn walk_to(d: Definition, w: Walk, s: &[u8], goal: Goal, out: &mut [u32]) -> Looked
    requires { admitted d (length s.now) w ≡ true }
    ensures { told result out.new ≡ handed (walked goal d s.now w) out.old }
{
    let mut walk = w.light();
    let mut values = w.values();
    let mut barren = false;
    loop {
        let stepped = step_in(d, walk, s, barren, &mut values);
        let settled = Settled {
            answer: stepped.answer,
            walk: stepped.walk,
        };
        if is_last(goal, settled.answer, settled.walk.tally) {
            return settled.hand_out(d, &values, out);
        }
        walk = settled.walk;
        barren = stepped.barren;
    }
}

// A whole walk, from any state.
pub fn through(d: Definition, w: Walk, s: &[u8]) -> Looked
    ensures { ThroughOwes d w s.now result }
{
    if section::refusals::admits(d, w, s.len()) {
        return walk_to(d, w, s, Goal::End, &mut []);
    }
    section::refused(Refusal::Unsound, w)
}

// The accepted frames of a section, and all its trials.
pub fn count(d: Definition, s: &[u8]) -> Counted
    ensures { CountOwes d s.now result }
{
    let looked = through(d, Walk::start(), s);
    let tally = looked.walk.tally;
    Counted {
        answer: looked.answer,
        tally,
    }
}

// The k-th accepted frame of a sort, from 0: its answer, and its values in the lent buffer; or how the walk ended before it.
pub fn fill(d: Definition, s: &[u8], of: Sort, k: usize, out: &mut [u32]) -> Looked
    ensures { FillOwes d s.now of k out.old result out.new }
{
    let w = Walk::start();
    match section::refusals::check(d, w, s.len(), out.len()) {
        Ok(()) => walk_to(d, w, s, Goal::Frame(of, k), out),
        Err(why) => section::refused(why, w),
    }
}
