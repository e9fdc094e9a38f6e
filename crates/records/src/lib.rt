// Fields read by their records: one thin entry over a lent slice, the Rust's read_field_values in frame/mod.rs, and a by-value door to it.
// The records are taken apart into the two lists that the reader of crate frame goes by.
#![tactic(auto)]

ghost use Rattle.records.specs.Owes.{ReadFieldValuesOwes, ReadRecordsOwes};

use frame::fields::{Context, FieldValues, Unread};
use reader::Cursor;

// A field of one kind of frame. Its sign is for display: no reading asks for it.
#[derive(Clone, Copy)]
pub struct FieldDef {
    pub predictor: u8,
    pub encoding: u8,
    pub signed: bool,
}

// More than 62 records are refused, by the reader that they are gathered for.
pub fn read_field_values(
    s: &[u8],
    from: Cursor,
    fields: &[FieldDef],
    context: Context,
) -> Result<(FieldValues, Cursor), Unread>
    ensures { ReadFieldValuesOwes s.now from fields.now context result }
{
    let n = fields.len();
    let mut encodings = [0u8; 62];
    let mut predictors = [0u8; 62];
    for i in 0..n.min(62) {
        encodings[i] = fields[i].encoding;
        predictors[i] = fields[i].predictor;
    }
    frame::fields::read_fields(n, encodings, predictors, context, s, from)
}

// The first n of some records by value, by way of the entry: what programs call.
// 63 rooms, one more than a frame has fields, so that the refusal can be reached.
pub fn read_records(
    s: &[u8],
    from: Cursor,
    n: usize,
    records: [FieldDef; 63],
    context: Context,
) -> Result<(FieldValues, Cursor), Unread>
    ensures { ReadRecordsOwes s.now from n records context result }
{
    read_field_values(s, from, &records[..n.min(63)], context)
}
