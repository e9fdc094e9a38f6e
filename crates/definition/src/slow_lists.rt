// The four lists of a slow definition: their checks in the rules' order, and their fields.
ghost use Rattle.std.specs.Prelude.{◌≡◌, ◌≤◌, IfOk};
ghost use Rattle.definition.specs.Checks.{found};
ghost use Rattle.definition.specs.Defined.{slow_absent, no_slow_lists, slow_finding, slow_fields};
ghost use Rattle.definition.specs.Rows.{ForSlow, Twice};
ghost use Rattle.definition.specs.SlowLists.{slow_rounds, equal_counts, slow_of, judged_slow};

use crate::checks::{check, unknown_from, unmet};
use crate::reading::{cut_to, read_all, smallest};
use crate::{Refusal, Rows};
use items::{MainLists, SlowLists};
use plan::{Definition, Numbers, Slow};

// Whether all four lists have n items: the predictors and encodings stand twice in the rows, and are asked once.
#[tactic(auto, using(crate::proofs::Readings::equal_counts_of))]
fn has_equal_counts(rows: Rows, n: usize) -> bool
    ensures { ForSlow rows (λ l. result ≡ equal_counts l n) }
{
    rows.names.count == n
        && rows.intra_predictors.count == n
        && rows.intra_encodings.count == n
        && rows.signs.count == n
}

fn fields(rows: Rows, n: usize) -> Slow
    requires { n ≤ 16 }
    ensures { ForSlow rows (λ l. result ≡ slow_of l n) }
{
    Slow {
        n,
        predictors: cut_to(rows.intra_predictors, 0, n),
        encodings: cut_to(rows.intra_encodings, 0, n),
        signs: cut_to(rows.signs, 0, n),
    }
}

// Checks 2, 3, 6 and 8.
#[tactic(auto, using(crate::proofs::Judged::slow_rows, crate::proofs::Chain::steps))]
fn judge_rows(rows: Rows, numbers: Numbers) -> Result<Slow, Refusal>
    ensures finding { ForSlow rows (λ l. found result ≡ judged_slow l numbers) }
    ensures fields { ForSlow rows (λ l. IfOk result (λ s. s ≡ slow_of l (slow_rounds l))) }
{
    let n = smallest(rows);
    if 16 < n {
        return Err(Refusal::TooMany(n));
    }
    unknown_from(rows, 0, n)?;
    check(!has_equal_counts(rows, n), Refusal::WrongLength(n))?;
    let slow = fields(rows, n);
    unmet(slow.unmet(numbers))?;
    Ok(slow)
}

#[tactic(auto, unfolding(crate::specs::Defined::no_slow_lists))]
fn has_none(lists: SlowLists) -> bool
    ensures { result ≡ no_slow_lists lists }
{
    items::is_absent(lists.names)
        && items::is_absent(lists.predictors)
        && items::is_absent(lists.encodings)
        && items::is_absent(lists.signs)
}

#[tactic(auto, using(crate::proofs::Chain::steps), unfolding(crate::specs::Defined::slow_absent))]
fn check_absent(text: &[u8], lists: SlowLists) -> Result<(), Refusal>
    ensures { found result ≡ slow_absent text.now lists }
{
    check(!items::is_given(text, lists.names), Refusal::Absent(0))?;
    check(!items::is_given(text, lists.predictors), Refusal::Absent(1))?;
    check(!items::is_given(text, lists.encodings), Refusal::Absent(3))?;
    check(!items::is_given(text, lists.signs), Refusal::Absent(5))
}

// The slow lists with their predictors and encodings in both places, so that main and slow lists are read alike.
#[tactic(auto, unfolding(crate::specs::Defined::main_items, crate::specs::Defined::slow_items, crate::specs::Rows::both))]
fn twice(lists: SlowLists) -> MainLists
    ensures { Twice lists result }
{
    MainLists {
        names: lists.names,
        intra_predictors: lists.predictors,
        inter_predictors: lists.predictors,
        intra_encodings: lists.encodings,
        inter_encodings: lists.encodings,
        signs: lists.signs,
    }
}

// Checks 1, 2, 3, 6 and 8 of the slow lists, and their fields; none at all means no slow frames.
#[tactic(auto, using(crate::proofs::Chain::steps), unfolding(crate::specs::Defined::slow_finding, plan::specs::Plan::nothing))]
pub(crate) fn judge(text: &[u8], lists: SlowLists, numbers: Numbers) -> Result<Slow, Refusal>
    ensures finding { found result ≡ slow_finding text.now lists numbers }
    ensures fields { IfOk result (λ s. s ≡ slow_fields text.now lists) }
{
    if has_none(lists) {
        return Ok(Definition::nothing().slow);
    }
    check_absent(text, lists)?;
    judge_rows(read_all(text, twice(lists)), numbers)
}
