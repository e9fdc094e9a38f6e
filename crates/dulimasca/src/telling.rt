// What C is told: a status, or a refusal in one number; and beside a status eight numbers, 0 where there is nothing to tell.
ghost use Rattle.std.specs.Prelude.{[], ◌∷◌, ◌++◌, ◌≡◌, ◌+◌, ◌<◌, ◌≤◌, length};
ghost use Rattle.std.specs.Option.{ok_or};
ghost use Rattle.std.proofs.lemmas.List.Edits.{sets};
ghost use Rattle.reader.specs.Place.{padded};
ghost use Rattle.octets.specs.Bytes.{longs};
ghost use Rattle.section.specs.Answers.{paper_of};
ghost use Rattle.section.specs.declared.Refusal.TheVariants.{Unsound};
ghost use Rattle.store.specs.Definition.{taken_definition};
ghost use Rattle.store.specs.State.{taken_state};
ghost use Rattle.dulimasca.specs.Told.{packed, answered, roomy, told_length, sort_for, status_by, place_by, tally_numbers};
ghost use Rattle.dulimasca.specs.Calls.{fill_numbers};

use plan::{Definition, Sort};
use section::{Answer, Ending, Refusal, Tally, Walk};

// Bytes for the numbers.
pub(crate) const TOLD: usize = 64;

// 2^48 - 1: a place that is further off is told as this one.
const MOST_PLACE: usize = 281474976710655;

// A refusal in one number: its own, its round and its place.
#[tactic(auto, unfolding(crate::specs::Told::packed))]
pub(crate) fn refuse(number: u64, place: usize, round: usize) -> u64
    requires { (number < 256) × (round < 255) }
    ensures { result ≡ packed number place round }
{
    let near = place.min(MOST_PLACE);
    number + 256 * (round as u64 + 1) + 65536 * near as u64
}

// A status, or why a call is refused: the one place where a refusal becomes a number.
#[tactic(auto, unfolding(crate::specs::Told::answered, crate::specs::Told::packed_by))]
pub(crate) fn answer(said: Result<u64, Refusal>) -> u64
    ensures { result ≡ answered said }
{
    match said {
        Ok(status) => status,
        Err(Refusal::Unsound) => refuse(10, 0, 0),
        Err(Refusal::TooShort(least)) => refuse(11, least, 0),
    }
}

// Refusal 11 of lent bytes that have to be so many.
#[tactic(auto, unfolding(crate::specs::Told::roomy))]
pub(crate) fn room(lent: &[u8], least: usize) -> Result<(), Refusal>
    ensures { result ≡ roomy lent.now least }
{
    if lent.len() < least {
        return Err(Refusal::TooShort(least));
    }
    Ok(())
}

// The definition that bytes are; or refusal 10.
#[inline(always)]
pub(crate) fn definition(def: &[u8]) -> Result<Definition, Refusal>
    ensures { result ≡ ok_or (taken_definition def.now) Unsound }
{
    store::def::take(def).ok_or(Refusal::Unsound)
}

// The walk that bytes are; or refusal 10.
pub(crate) fn walk(state: &[u8]) -> Result<Walk, Refusal>
    ensures { result ≡ ok_or (taken_state state.now) Unsound }
{
    store::state::take(state).ok_or(Refusal::Unsound)
}

// The sort of frames and fields that a number stands for, 0 main and 1 slow; or refusal 10.
#[tactic(auto, unfolding(crate::specs::Told::sort_for))]
pub(crate) fn sort_for(number: u32) -> Result<Sort, Refusal>
    ensures { result ≡ ok_or (sort_for number) Unsound }
{
    match number {
        0 => Ok(Sort::Main),
        1 => Ok(Sort::Slow),
        _ => Err(Refusal::Unsound),
    }
}

// Eight numbers, low byte first.
pub(crate) fn tell(numbers: [u64; 8], told: &mut [u8])
    requires { told_length ≤ length told.old }
    ensures { told.new ≡ sets told.old 0 (longs numbers) }
{
    octets::put_values(told, 0, &numbers);
}

#[tactic(auto, unfolding(crate::specs::Told::status_by))]
pub(crate) fn status_by(ending: Ending) -> u64
    ensures { result ≡ status_by ending }
{
    match ending {
        Ending::Going => 0,
        Ending::Out => 1,
        Ending::Cut(_, _) => 2,
        Ending::Done => 3,
    }
}

#[tactic(auto, unfolding(crate::specs::Told::place_by))]
fn place_by(ending: Ending, place: usize) -> usize
    ensures { result ≡ place_by ending place }
{
    match ending {
        Ending::Cut(_, cut) => cut,
        Ending::Going | Ending::Out | Ending::Done => place,
    }
}

// A walk's tally, and how many rows it gave.
#[tactic(auto, unfolding(crate::specs::Told::tally_numbers))]
pub(crate) fn tally_numbers(t: Tally, rows: usize) -> [u64; 8]
    ensures { result ≡ padded 8 (tally_numbers t ++ (rows ∷ [])) }
{
    let [main, events, slow, rejected] = t.counts;
    [
        place_by(t.ending, t.place) as u64,
        main as u64,
        events as u64,
        slow as u64,
        rejected as u64,
        t.trials as u64,
        rows as u64,
        0,
    ]
}

// An answer's number in document 01, which C is told.
#[tactic(auto, unfolding(section::specs::Answers::paper_of, crate::specs::Told::status_by))]
pub(crate) fn number(answer: Answer) -> u64
    ensures { result ≡ (paper_of answer).number }
{
    match answer {
        Answer::Passed | Answer::Rejected(_, _) => 0,
        Answer::Event(_) => 69,
        Answer::Intra(_) => 73,
        Answer::Inter(_) => 80,
        Answer::Slow(_) => 83,
        Answer::Over(Ending::Going) => 4,
        Answer::Over(ending) => status_by(ending),
        Answer::Refused(Refusal::Unsound) => 10,
        Answer::Refused(Refusal::TooShort(_)) => 11,
    }
}

// The first three of its values in document 01.
#[tactic(auto, unfolding(section::specs::Answers::paper_of))]
fn values(answer: Answer) -> [u64; 3]
    ensures { result ≡ padded 3 (paper_of answer).values }
{
    match answer {
        Answer::Event(x) => {
            [
                x.at as u64,
                u64::from(x.event.code),
                u64::from(x.event.first),
            ]
        }
        Answer::Intra(x) => [x.at as u64, u64::from(x.iteration), x.time],
        Answer::Inter(x) => [x.at as u64, u64::from(x.iteration), x.time],
        Answer::Slow(x) => [x.at as u64, 0, 0],
        Answer::Rejected(kind, place) => [store::state::letter(kind), place as u64, 0],
        Answer::Over(Ending::Cut(kind, place)) => [store::state::letter(kind), place as u64, 0],
        Answer::Refused(Refusal::TooShort(n)) => [n as u64, 0, 0],
        Answer::Passed | Answer::Over(_) | Answer::Refused(Refusal::Unsound) => [0, 0, 0],
    }
}

// What `dulimasca_fill` tells of an answer: those values, and behind them the trials.
#[tactic(auto, unfolding(crate::specs::Calls::fill_numbers))]
pub(crate) fn fill_numbers(answer: Answer, trials: u64) -> [u64; 8]
    ensures { result ≡ padded 8 (fill_numbers answer trials) }
{
    let [first, second, third] = values(answer);
    [first, second, third, trials, 0, 0, 0, 0]
}
