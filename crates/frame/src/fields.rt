// Fields read at a place by lists of their own: the Rust's read_field_values and parse_impl, frame/mod.rs.
// No definition is asked: the lists and their surroundings come from the caller, and are refused where a walk's would be.
ghost use Rattle.std.specs.Prelude.{◌≡◌, ◌≤◌, take};
ghost use Rattle.frame.specs.Earlier.{laid};
ghost use Rattle.frame.specs.Lists.{fields_in, last_in, older_in, unread};
ghost use Rattle.frame.specs.Owes.{ReadFieldsOwes, RefusalOwes};

use crate::{FieldLists, MainFrame, values_of};
use predictor::Surroundings;
use raws::Raw;
use reader::{Cursor, Fault};

// What predictions read beside a field's own lists: what the Rust's PredictorContext is set to field by field, as whole frames;
// and the place of motor[0] among the fields, or one behind them all.
#[derive(Clone, Copy)]
pub struct Context {
    pub motor: usize,
    pub around: Surroundings,
    pub last: MainFrame,
    pub older: MainFrame,
}

// The raw numbers, which the Rust's read_field_values answers, and the values that its parse_impl makes of them; 0 behind the last field.
#[derive(Clone, Copy)]
pub struct FieldValues {
    pub raws: [u32; 62],
    pub values: [u32; 62],
}

// Why there are no fields: their bytes, or what they were to be read by.
#[derive(Clone, Copy, PartialEq, Eq, Debug)]
pub enum Unread {
    Cut,
    Corrupt,
    Unsound,
}

impl Unread {
    // A refusal's number and place in document 01.
    pub fn refusal(self) -> Option<(u8, usize)>
        ensures { RefusalOwes self result }
    {
        match self {
            Unread::Cut | Unread::Corrupt => None,
            Unread::Unsound => Some((10, 0)),
        }
    }
}

impl From<Fault> for Unread {
    ghost from_gives = { λ f e. e ≡ unread f };

    fn from(fault: Fault) -> Unread {
        match fault {
            Fault::Cut => Unread::Cut,
            Fault::Corrupt => Unread::Corrupt,
        }
    }
}

// The values that raw numbers make, by the frames that are there.
fn values(
    n: usize,
    encodings: [u8; 62],
    predictors: [u8; 62],
    context: Context,
    raw: Raw,
) -> [u32; 62]
    requires { n ≤ 62 }
    ensures { result ≡ laid (fields_in (take n encodings) (take n predictors) context) (last_in context) (older_in context) raw.fields }
{
    let last = context.last;
    let older = context.older;
    let last_values = last.values;
    let older_values = older.values;
    let fields = FieldLists {
        predictors: &predictors[..n],
        encodings: &encodings[..n],
        motor: context.motor,
        around: context.around,
    };
    let mut values = [0u32; 62];
    values_of(
        fields,
        last.head().values(&last_values),
        older.head().values(&older_values),
        &raw.fields,
        &mut values,
    );
    values
}

// The first n fields of two lists.
pub fn read_fields(
    n: usize,
    encodings: [u8; 62],
    predictors: [u8; 62],
    context: Context,
    s: &[u8],
    from: Cursor,
) -> Result<(FieldValues, Cursor), Unread>
    ensures { ReadFieldsOwes n encodings predictors context s.now from result }
{
    let numbers = context.around.numbers;
    if !plan::are_sound(n, &predictors, &encodings, context.motor, numbers) {
        return Err(Unread::Unsound);
    }
    let (raw, behind) = raws::main_fields(n, encodings, s, from, 0, 0)?;
    let raws = raw.fields;
    let values = values(n, encodings, predictors, context, raw);
    Ok((FieldValues { raws, values }, behind))
}
