// Checks: what one says, and those that main and slow lists share.
ghost use Rattle.std.specs.Prelude.{cond, ◌≡◌, ◌-◌, ◌<◌, ◌≤◌};
ghost use Rattle.definition.specs.Checks.{paper_of, found, unknown_in, unknown_from};
ghost use Rattle.definition.specs.Defined.{in_interval};
ghost use Rattle.definition.specs.MainLists.{said, in_needs};
ghost use Rattle.definition.specs.Rows.{ForMain};

use crate::{Refusal, Rows};
use items::UNKNOWN;
use plan::Definition;

// A refusal where the check applies.
pub(crate) fn check(applies: bool, refusal: Refusal) -> Result<(), Refusal>
    ensures { found result ≡ cond applies (Some (paper_of refusal)) None }
{
    if applies { Err(refusal) } else { Ok(()) }
}

// Check 3 in round `k`: lists 1, 2, 3, 4.
#[tactic(auto, using(crate::proofs::Unknown::in_round, crate::proofs::Chain::steps))]
pub(crate) fn unknown_in(rows: Rows, k: usize) -> Result<(), Refusal>
    requires { k < 64 }
    ensures { ForMain rows (λ l. found result ≡ unknown_in k (said l k)) }
{
    check(
        rows.intra_predictors.codes[k] == UNKNOWN,
        Refusal::Unknown(1, k),
    )?;
    check(
        rows.inter_predictors.codes[k] == UNKNOWN,
        Refusal::Unknown(2, k),
    )?;
    check(
        rows.intra_encodings.codes[k] == UNKNOWN,
        Refusal::Unknown(3, k),
    )?;
    check(
        rows.inter_encodings.codes[k] == UNKNOWN,
        Refusal::Unknown(4, k),
    )
}

// Check 3 in the rounds from `from` up to `n`.
pub(crate) fn unknown_from(rows: Rows, from: usize, n: usize) -> Result<(), Refusal>
    requires { n ≤ 64 }
    ensures { ForMain rows (λ l. found result ≡ unknown_from (said l) from (n - from)) }
{
    for k in from..n {
        unknown_in(rows, k)?;
    }
    Ok(())
}

// Check 8: what the fields' predictors need.
#[tactic(auto, unfolding(crate::specs::MainLists::in_needs))]
pub(crate) fn unmet(need: Option<usize>) -> Result<(), Refusal>
    ensures { found result ≡ in_needs need }
{
    match need {
        Some(field) => Err(Refusal::Unmet(field)),
        None => Ok(()),
    }
}

// Check 9, over a finished definition: another frame interval than 1/1.
#[tactic(auto, unfolding(crate::specs::Defined::in_interval))]
pub(crate) fn other_interval(d: Definition) -> Result<(), Refusal>
    ensures { found result ≡ in_interval d }
{
    check(!d.settings.interval.is_interval(), Refusal::Interval)
}
