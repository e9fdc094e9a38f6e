// The names of fields: a definition keeps none, so the log's lists of names are lent with each question.
// A name is a stretch of the lent list; where it stands is a separate answer, which tells an empty name from none.
#![tactic(auto)]

ghost use Rattle.std.specs.Prelude.{◌≡◌};
ghost use Rattle.names.specs.Names.{item_count, chosen};
ghost use Rattle.names.specs.Owes.{NameAtOwes, FieldNameOwes};

use items::Stretch;
use plan::{Definition, Sort};

fn item_count(d: Definition, sort: Sort) -> usize
    ensures { result ≡ item_count d sort }
{
    match sort {
        Sort::Main => d.main.n,
        Sort::Slow => d.slow.n,
    }
}

// The list of a sort.
fn chosen<'a>(sort: Sort, main: &'a [u8], slow: &'a [u8]) -> &'a [u8]
    ensures { result.now ≡ chosen sort main.now slow.now }
{
    match sort {
        Sort::Main => main,
        Sort::Slow => slow,
    }
}

// Where the name of field `k` stands in the list of its sort. Fields are numbered from the list's first item, 0.
#[tactic(auto, using(crate::proofs::Names::name_here, crate::proofs::Names::no_name))]
pub fn name_at(d: Definition, sort: Sort, main: &[u8], slow: &[u8], k: usize) -> Option<Stretch>
    ensures { NameAtOwes d sort main.now slow.now k result }
{
    if k < item_count(d, sort) {
        items::item_at(chosen(sort, main, slow), k)
    } else {
        None
    }
}

// The name of field `k`, a part of the list of its sort; empty where there is none.
#[tactic(auto, using(crate::proofs::Names::field_named))]
pub fn field_name<'a>(
    d: Definition,
    sort: Sort,
    main: &'a [u8],
    slow: &'a [u8],
    k: usize,
) -> &'a [u8]
    ensures { FieldNameOwes d sort main.now slow.now k result.now }
{
    items::part(chosen(sort, main, slow), name_at(d, sort, main, slow, k))
}
