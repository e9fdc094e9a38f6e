// The values of main and slow frames, from their raw numbers and the two main frames before.
// The second half of the Rust's frame/mod.rs, with parse_intra and parse_inter of main/def.rs.
#![tactic(auto)]

ghost use Rattle.std.specs.Prelude.{◌≡◌, ◌<◌, ◌≤◌, ◌+◌, ℕ, List, min, length, take, option_copied, option_map};
ghost use Rattle.std.specs.Option.{is_some};
ghost use Rattle.bits.specs.Pattern.{wrap};
ghost use Rattle.plan.specs.Plan.{fields};
ghost use Rattle.predictor.specs.Predictors.{or_zero};
ghost use Rattle.frame.specs.Earlier.{fields_by, fields_of, laid};
ghost use Rattle.frame.specs.Frames.{values_in};
ghost use Rattle.frame.specs.Owes.{AbsentOwes, HeadOwes, WithOwes, IntraOwes, InterOwes, SlowOwes};
ghost use Rattle.frame.specs.Parts.{frame_of, raw_of};
ghost use Rattle.frame.specs.Past.{body_of};
ghost use Rattle.frame.specs.Values.{nth};

use crate::time::time_after;
use plan::{Definition, Numbers};
use predictor::{Before, Surroundings};
use raws::Raw;

pub mod fields;
mod time;

// Whether there is a frame, and of which kind. No Option of a frame: stored states of C keep the values of an absent one.
#[derive(Clone, Copy)]
pub enum Mark {
    Absent,
    Intra,
    Inter,
}

// A main frame: the Rust's RawMainFrame, with its Option as a mark. Values behind the last field are 0.
// Its head stands in it part by part, since `no_frame`, `body_of` and the stored layout name the parts.
#[derive(Clone, Copy)]
pub struct MainFrame {
    pub mark: Mark,
    pub iteration: u32,
    pub time: u64,
    pub values: [u32; 62],
}

// A main frame but for its values, which stand beside it in lent rooms. Each frame that is made in such rooms first makes them 0.
#[derive(Clone, Copy)]
pub struct Head {
    pub mark: Mark,
    pub iteration: u32,
    pub time: u64,
}

impl Head {
    pub fn with(self, values: [u32; 62]) -> MainFrame
        ensures { WithOwes self values result }
    {
        MainFrame {
            mark: self.mark,
            iteration: self.iteration,
            time: self.time,
            values,
        }
    }

    // Whether there is the frame.
    #[tactic(auto, unfolding(crate::specs::Past::body_of))]
    fn is_there(self) -> bool
        ensures { (values : List ℕ) → result ≡ is_some (body_of (frame_of self values)) }
    {
        !matches!(self.mark, Mark::Absent)
    }

    // Its values, which stand in lent rooms, if there is the frame.
    #[tactic(auto, unfolding(crate::specs::Past::body_of))]
    fn values(self, lent: &[u32; 62]) -> Option<&[u32; 62]>
        ensures { option_copied result ≡ values_in (body_of (frame_of self lent.now)) }
    {
        self.is_there().then_some(lent)
    }

    // Predictor 6 of its iteration, by a function of its own: with one caller `predict` is compiled into the loop over the fields.
    #[tactic(auto, unfolding(crate::specs::Past::body_of, bits::specs::Pattern::wrap, predictor::specs::Predictors::or_zero))]
    fn next_iteration(self, skipped: u32) -> u32
        ensures { (values : List ℕ) →
            result ≡ wrap (skipped + 1 + or_zero (option_map (λ b. b.iteration) (body_of (frame_of self values)))) }
    {
        let last = self.is_there().then_some(self.iteration);
        skipped.wrapping_add(1).wrapping_add(last.unwrap_or(0))
    }
}

impl MainFrame {
    // No frame: what stands before a section's first.
    #[tactic(auto, unfolding(crate::specs::Past::no_frame))]
    pub fn absent() -> MainFrame
        ensures { AbsentOwes result }
    {
        MainFrame {
            mark: Mark::Absent,
            iteration: 0,
            time: 0,
            values: [0u32; 62],
        }
    }

    pub fn head(self) -> Head
        ensures { HeadOwes self result }
    {
        Head {
            mark: self.mark,
            iteration: self.iteration,
            time: self.time,
        }
    }
}

// What the fields of one kind of frame go by.
#[derive(Clone, Copy)]
struct FieldLists<'a> {
    predictors: &'a [u8],
    encodings: &'a [u8],
    motor: usize,
    around: Surroundings,
}

// Field i of an earlier frame, if there is the frame. Read from a spare one before that is asked: a branch in front of the load takes
// longer, since it is then made for every field and not once for the loop.
#[tactic(auto, unfolding(crate::specs::Values::nth))]
fn nth(i: usize, values: Option<&[u32; 62]>, spare: &[u32; 62]) -> Option<u32>
    requires { i < 62 }
    ensures { result ≡ nth i (option_copied values.entry) }
{
    let value = values.unwrap_or(spare)[i];
    values.is_some().then_some(value)
}

// Puts the values into their rooms, in field order. Until a field has its value its room is 0,
// so that motor[0] is read there whether it comes earlier or not at all.
fn values_of(
    fields: FieldLists,
    last: Option<&[u32; 62]>,
    older: Option<&[u32; 62]>,
    raws: &[u32; 62],
    values: &mut [u32; 62],
)
    requires { (length fields.predictors.now ≡ length fields.encodings.now) × (length fields.predictors.now ≤ 62) }
    ensures { values.new ≡ laid (fields_of fields.entry) (option_copied last.entry) (option_copied older.entry) raws.now }
{
    raws::clear(values);
    let room = fields.motor.min(61);
    for i in 0..fields.predictors.len() {
        let before = Before {
            last: nth(i, last, raws),
            older: nth(i, older, raws),
        };
        let signed = predictor::is_signed(fields.encodings[i]);
        values[i] = predictor::apply(
            fields.predictors[i],
            raws[i],
            signed,
            fields.around,
            before,
            values[room],
        );
    }
}

// The fields of a main frame with n of them, by two of its definition's lists. Nothing is skipped outside inter, nor there with the interval 1/1.
fn main_fields<'a>(
    n: usize,
    motor: usize,
    numbers: Numbers,
    predictors: &'a [u8; 62],
    encodings: &'a [u8; 62],
) -> FieldLists<'a>
    ensures { fields_of result ≡
        fields_by (take n predictors.now) (take n encodings.now) (min motor n) (record { numbers = numbers; skipped = 0 }) }
{
    let k = n.min(62);
    FieldLists {
        predictors: &predictors[..k],
        encodings: &encodings[..k],
        motor: motor.min(n),
        around: Surroundings {
            numbers,
            skipped: 0,
        },
    }
}

// An intra frame. The frame before the last has no part in it.
pub fn intra_in(
    d: Definition,
    last: Head,
    last_values: &[u32; 62],
    iteration: u32,
    time: u32,
    raws: &[u32; 62],
    values: &mut [u32; 62],
) -> Head
    ensures { IntraOwes d (frame_of last last_values.now) (raw_of iteration time raws.now) (frame_of result values.new) }
{
    let predictors = d.main.intra_predictors;
    let encodings = d.main.intra_encodings;
    let n = d.main.fields();
    let fields = main_fields(n, d.main.motor, d.numbers, &predictors, &encodings);
    let older = None;
    values_of(fields, last.values(last_values), older, raws, values);
    Head {
        mark: Mark::Intra,
        iteration,
        time: time as u64,
    }
}

// An inter frame. Its raw numbers have no iteration, so its promise is for any.
pub fn inter_in(
    d: Definition,
    last: Head,
    last_values: &[u32; 62],
    older: Head,
    older_values: &[u32; 62],
    time: u32,
    raws: &[u32; 62],
    values: &mut [u32; 62],
) -> Head
    ensures { (k : ℕ) → InterOwes d (frame_of last last_values.now) (frame_of older older_values.now) (raw_of k time raws.now) (frame_of result values.new) }
{
    let predictors = d.main.inter_predictors;
    let encodings = d.main.inter_encodings;
    let n = d.main.fields();
    let fields = main_fields(n, d.main.motor, d.numbers, &predictors, &encodings);
    values_of(
        fields,
        last.values(last_values),
        older.values(older_values),
        raws,
        values,
    );
    Head {
        mark: Mark::Inter,
        iteration: last.next_iteration(fields.around.skipped),
        time: time_after(last, older, time),
    }
}

// The values of a slow frame, in 62 rooms as a main frame's. Its raw numbers have neither iteration nor time, and no history has a part in it.
pub fn slow_in(d: Definition, raws: &[u32; 62], values: &mut [u32; 62])
    ensures { (k t : ℕ) → SlowOwes d (raw_of k t raws.now) values.new }
{
    let predictors = d.slow.predictors;
    let encodings = d.slow.encodings;
    let k = d.slow.n.min(16);
    let fields = FieldLists {
        predictors: &predictors[..k],
        encodings: &encodings[..k],
        motor: k,
        around: Surroundings {
            numbers: d.numbers,
            skipped: 0,
        },
    };
    values_of(fields, None, None, raws, values);
}

// The same by value: an intra frame, an inter frame, and the values of a slow frame.
pub fn intra(d: Definition, last: MainFrame, raw: Raw) -> MainFrame
    ensures { IntraOwes d last raw result }
{
    let last_values = last.values;
    let fields = raw.fields;
    let mut values = [0u32; 62];
    let head = intra_in(
        d,
        last.head(),
        &last_values,
        raw.iteration,
        raw.time,
        &fields,
        &mut values,
    );
    head.with(values)
}

pub fn inter(d: Definition, last: MainFrame, older: MainFrame, raw: Raw) -> MainFrame
    ensures { InterOwes d last older raw result }
{
    let last_values = last.values;
    let older_values = older.values;
    let fields = raw.fields;
    let mut values = [0u32; 62];
    let head = inter_in(
        d,
        last.head(),
        &last_values,
        older.head(),
        &older_values,
        raw.time,
        &fields,
        &mut values,
    );
    head.with(values)
}

pub fn slow(d: Definition, raw: Raw) -> [u32; 62]
    ensures { SlowOwes d raw result }
{
    let fields = raw.fields;
    let mut values = [0u32; 62];
    slow_in(d, &fields, &mut values);
    values
}
