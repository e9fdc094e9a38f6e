// Lists read into rows, and rows cut to the fields of a definition.
ghost use Rattle.std.specs.Prelude.{◌≡◌, ◌+◌, ◌<◌, ◌≤◌, get_or};
ghost use Rattle.items.specs.Items.{items, part};
ghost use Rattle.items.specs.Rows.{row_of};
ghost use Rattle.definition.specs.Defined.{main_items};
ghost use Rattle.definition.specs.MainLists.{rounds};
ghost use Rattle.definition.specs.Rows.{rows_of, cut_to, ForMain};

use crate::Rows;
use items::{MainLists, Of, Row, Stretch};

#[tactic(auto, using(crate::proofs::Readings::row_read))]
fn read(text: &[u8], list: Option<Stretch>, of: Of) -> Row
    ensures { result ≡ row_of of (items (part text.now list)) }
{
    items::read_row(items::part(text, list), of)
}

#[tactic(auto, unfolding(crate::specs::Defined::main_items, crate::specs::Rows::rows_of))]
pub(crate) fn read_all(text: &[u8], lists: MainLists) -> Rows
    ensures { result ≡ rows_of (main_items text.now lists) }
{
    Rows {
        names: read(text, lists.names, Of::Names),
        intra_predictors: read(text, lists.intra_predictors, Of::Predictors),
        inter_predictors: read(text, lists.inter_predictors, Of::Predictors),
        intra_encodings: read(text, lists.intra_encodings, Of::Encodings),
        inter_encodings: read(text, lists.inter_encodings, Of::Encodings),
        signs: read(text, lists.signs, Of::Signs),
    }
}

// The smallest item count.
#[tactic(auto, using(crate::proofs::Readings::rounds_of))]
pub(crate) fn smallest(rows: Rows) -> usize
    ensures { ForMain rows (λ l. result ≡ rounds l) }
{
    rows.names
        .count
        .min(rows.intra_predictors.count)
        .min(rows.inter_predictors.count)
        .min(rows.intra_encodings.count)
        .min(rows.inter_encodings.count)
        .min(rows.signs.count)
}

// The fields of a definition: what the items of a list say, from item `from` on and up to item n, and 0 behind.
pub(crate) fn cut_to<const N: usize>(row: Row, from: usize, n: usize) -> [u8; N]
    requires items { n ≤ 64 }
    requires rooms { n ≤ from + N }
    ensures { result ≡ cut_to from N n row }
{
    let mut fields = [0u8; N];
    let codes = &row.codes[from.min(n)..n];
    fields[..codes.len()].copy_from_slice(codes);
    fields
}
