// The items of comma-separated texts: where one stands, and what the first 64 say, as a byte each.
// The Rust splits a list lazily and zips the pieces; here a list is read once, into a row, and the rounds run over rows.
#![tactic(auto)]

ghost use Rattle.std.specs.Prelude.{◌≡◌, true, false, MatchOption};
ghost use Rattle.items.specs.Items.{given, part};
ghost use Rattle.items.specs.Owes.{ReadRowOwes, ItemAtOwes, IsAbsentOwes, IsGivenOwes, PartOwes};

mod said;

use said::code;

// A stretch of a text, from its first byte to behind its last.
#[derive(Clone, Copy)]
pub struct Stretch {
    pub start: usize,
    pub end: usize,
}

// The lists of a main definition, 0 to 5; none is one that the log does not have.
#[derive(Clone, Copy)]
pub struct MainLists {
    pub names: Option<Stretch>,
    pub intra_predictors: Option<Stretch>,
    pub inter_predictors: Option<Stretch>,
    pub intra_encodings: Option<Stretch>,
    pub inter_encodings: Option<Stretch>,
    pub signs: Option<Stretch>,
}

// The lists of a slow definition: 0, 1, 3 and 5.
#[derive(Clone, Copy)]
pub struct SlowLists {
    pub names: Option<Stretch>,
    pub predictors: Option<Stretch>,
    pub encodings: Option<Stretch>,
    pub signs: Option<Stretch>,
}

// All lists of a log, as stretches of one text.
#[derive(Clone, Copy)]
pub struct Lists {
    pub main: MainLists,
    pub slow: SlowLists,
}

// What a list is a list of: a switch, and not a reader that is handed in, since `ReadRowOwes` says by it what the row holds.
#[derive(Clone, Copy)]
pub enum Of {
    Names,
    Predictors,
    Encodings,
    Signs,
}

// The code of an item that is no predictor, or no encoding; a known one is its own number. A byte, and no Option: it goes into a definition as it is.
pub const UNKNOWN: u8 = 255;

// The codes of the names that the rules speak of; any other name is 0.
pub const ITERATION: u8 = 1;

pub const TIME: u8 = 2;

pub const MOTOR_0: u8 = 3;

// How many items a list has, and what each of the first 64 says.
#[derive(Clone, Copy)]
pub struct Row {
    pub count: usize,
    pub codes: [u8; 64],
}

// The row of a list, in one pass over its text.
pub fn read_row(text: &[u8], of: Of) -> Row
    ensures { ReadRowOwes text.now of result }
{
    let mut codes = [code(b"", of); 64];
    let mut count = 0;
    for item in text.split(|b| *b == b',') {
        if count < 64 {
            codes[count] = code(item, of);
        }
        count += 1;
    }
    Row { count, codes }
}

// Where item `k` stands.
pub fn item_at(text: &[u8], k: usize) -> Option<Stretch>
    ensures { ItemAtOwes text.now k result }
{
    let mut start = 0;
    for (j, item) in text.split(|b| *b == b',').enumerate() {
        let end = start + item.len();
        if j == k {
            return Some(Stretch { start, end });
        }
        start = end + 1;
    }
    None
}

// Whether there is no stretch: one that does not lie in its text is none that is absent.
#[tactic(auto, unfolding(crate::specs::Items::absent))]
pub fn is_absent(s: Option<Stretch>) -> bool
    ensures { IsAbsentOwes s result }
{
    s.is_none()
}

// The bytes from a stretch's first to behind its last, if it lies in the text.
#[tactic(auto, using(crate::proofs::Items::no_bytes, crate::proofs::Items::bytes_of))]
fn bytes<'a>(text: &'a [u8], s: Option<Stretch>) -> Option<&'a [u8]>
    ensures { MatchOption result (given text.now s ≡ false) (λ b. (given text.now s ≡ true) × (b.now ≡ part text.now s)) }
{
    let s = s?;
    text.get(s.start..s.end)
}

// Whether a stretch is there and lies in the text.
#[tactic(auto, using(crate::proofs::Items::given_by))]
pub fn is_given(text: &[u8], s: Option<Stretch>) -> bool
    ensures { IsGivenOwes text.now s result }
{
    bytes(text, s).is_some()
}

// The bytes of a stretch that is given, and none for any other.
#[tactic(auto, using(crate::proofs::Items::part_by))]
pub fn part<'a>(text: &'a [u8], s: Option<Stretch>) -> &'a [u8]
    ensures { PartOwes text.now s result.now }
{
    bytes(text, s).unwrap_or(&text[..0])
}
