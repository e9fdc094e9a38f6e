// A log's lists to a definition, or the refusal: the six main lists, the four slow ones, the header numbers and the settings.
// The Rust judges while it zips lazy items; here the lists are read into rows once, and the checks are a chain over rows.
#![tactic(auto)]

ghost use Rattle.std.specs.Prelude.{◌≡◌, IfOk};
ghost use Rattle.plan.specs.Plan.{no_numbers, plain};
ghost use Rattle.definition.specs.Checks.{found};
ghost use Rattle.definition.specs.Defined.{judged, fields_of};
ghost use Rattle.definition.specs.Owes.{PaperOwes, DefineOwes};

mod checks;
mod main_lists;
mod reading;
mod slow_lists;

use items::{Lists, Row};
use plan::{Definition, Numbers, Settings};

// Why lists are refused, 1 to 9, with what the refusal's place says: a list, a number of rounds, a round, a field.
#[derive(Clone, Copy)]
pub enum Refusal {
    Absent(usize),
    TooMany(usize),
    Unknown(usize, usize),
    NotIteration,
    NotTime,
    WrongLength(usize),
    WrongLengthInter(usize),
    Unmet(usize),
    Interval,
}

// A refusal in the rules' own numbers. Only refusal 3 has a round; its place is the list.
// Stays numbers: PaperOwes says document 01's, and C is told them.
#[derive(Clone, Copy)]
pub struct Paper {
    pub number: u8,
    pub place: usize,
    pub round: usize,
}

// The verdict stands beside the definition: a refused one has no fields.
// Stays a struct: edit refused_with_fields says a wrong thing of the definition of refused lists.
#[derive(Clone, Copy)]
pub struct Defined {
    pub verdict: Result<(), Refusal>,
    pub definition: Definition,
}

// The lists of a main definition as rows; a slow one's predictors and encodings stand in both places.
#[derive(Clone, Copy)]
struct Rows {
    names: Row,
    intra_predictors: Row,
    inter_predictors: Row,
    intra_encodings: Row,
    inter_encodings: Row,
    signs: Row,
}

impl Refusal {
    // The refusal's number and place.
    pub fn paper(self) -> Paper
        ensures { PaperOwes self result }
    {
        let (number, place, round) = match self {
            Refusal::Absent(list) => (1, list, 0),
            Refusal::TooMany(n) => (2, n, 0),
            Refusal::Unknown(list, round) => (3, list, round),
            Refusal::NotIteration => (4, 0, 0),
            Refusal::NotTime => (5, 1, 0),
            Refusal::WrongLength(n) => (6, n, 0),
            Refusal::WrongLengthInter(n) => (7, n, 0),
            Refusal::Unmet(field) => (8, field, 0),
            Refusal::Interval => (9, 0, 0),
        };
        Paper {
            number,
            place,
            round,
        }
    }
}

// Checks 1 to 9: main lists first, slow ones next, then the interval.
#[tactic(auto, using(crate::proofs::Chain::steps), unfolding(crate::specs::Defined::judged, crate::specs::Defined::fields_of))]
fn judge(
    text: &[u8],
    lists: Lists,
    numbers: Numbers,
    settings: Settings,
) -> Result<Definition, Refusal>
    ensures finding { found result ≡ judged text.now lists numbers settings }
    ensures fields { IfOk result (λ d. d ≡ fields_of text.now lists numbers settings) }
{
    let main = main_lists::judge(text, lists.main, numbers)?;
    let slow = slow_lists::judge(text, lists.slow, numbers)?;
    let definition = Definition {
        main,
        slow,
        numbers,
        settings,
    };
    checks::other_interval(definition)?;
    Ok(definition)
}

// The definition that the lists of a text give, or the refusal.
#[tactic(auto, unfolding(crate::specs::Defined::defined, crate::specs::Defined::definition_of))]
pub fn define(text: &[u8], lists: Lists, numbers: Numbers, settings: Settings) -> Defined
    ensures { DefineOwes text.now lists numbers settings result }
{
    match judge(text, lists, numbers, settings) {
        Ok(definition) => Defined {
            verdict: Ok(()),
            definition,
        },
        Err(refusal) => Defined {
            verdict: Err(refusal),
            definition: Definition::nothing(),
        },
    }
}

// The lists alone, with no header numbers and plain settings: what document 01's program takes of a log.
pub fn define_plainly(text: &[u8], lists: Lists) -> Defined
    ensures { DefineOwes text.now lists no_numbers plain result }
{
    let numbers = Numbers {
        min_throttle: None,
        vbat_reference: None,
        min_motor: None,
    };
    define(text, lists, numbers, Settings::plain())
}
