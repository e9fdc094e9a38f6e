// The six lists of a main definition: their checks in the rules' order, and their fields.
ghost use Rattle.std.specs.Prelude.{◌≡◌, ◌-◌, ◌<◌, ◌≤◌, IfOk, get_or, reverse, take};
ghost use Rattle.definition.specs.Checks.{found};
ghost use Rattle.definition.specs.Defined.{main_absent, main_finding, main_fields};
ghost use Rattle.definition.specs.MainLists.{rounds, in_rounds, in_lengths, wrong, motor_from, main_of, judged_main};
ghost use Rattle.definition.specs.Rows.{is_coded, ForMain, ForNames};

use crate::checks::{check, unknown_from, unknown_in, unmet};
use crate::reading::{cut_to, read_all, smallest};
use crate::{Refusal, Rows};
use items::{ITERATION, MOTOR_0, MainLists, Row, TIME};
use plan::{Main, Numbers};

// Whether round `k` has this name, and these numbers in lists 1 to 4.
fn is_field(rows: Rows, k: usize, name: u8, numbers: [u8; 4]) -> bool
    requires { k < 64 }
    ensures { result ≡ is_coded rows k name numbers }
{
    rows.names.codes[k] == name
        && rows.intra_predictors.codes[k] == numbers[0]
        && rows.inter_predictors.codes[k] == numbers[1]
        && rows.intra_encodings.codes[k] == numbers[2]
        && rows.inter_encodings.codes[k] == numbers[3]
}

// Checks 3, 4 and 5: round 0, round 1, and the rounds behind.
#[tactic(auto, using(crate::proofs::Rounds::rounds_said, crate::proofs::Chain::steps))]
fn check_rounds(rows: Rows, n: usize) -> Result<(), Refusal>
    requires { n ≤ 64 }
    ensures { ForMain rows (λ l. found result ≡ in_rounds l n) }
{
    unknown_in(rows, 0)?;
    check(
        !is_field(rows, 0, ITERATION, [0, 6, 1, 9]),
        Refusal::NotIteration,
    )?;
    check(n < 2, Refusal::NotTime)?;
    unknown_in(rows, 1)?;
    check(!is_field(rows, 1, TIME, [0, 2, 1, 0]), Refusal::NotTime)?;
    unknown_from(rows, 2, n)
}

// Whether a list has another length than it must, at its place in the zips' order: n, or n + 1 where neither it nor one before it has n items.
fn is_wrong(counts: &[usize; 6], place: usize, n: usize) -> bool
    requires inside { place < 6 }
    requires few { n ≤ 64 }
    ensures { result ≡ wrong n (get_or counts.now place 0) (reverse (take place counts.now)) }
{
    let reached = counts[..=place].contains(&n);
    counts[place] != if reached { n } else { n + 1 }
}

// Checks 6 and 7. The zips take the lists in the order 0, 5, 1, 2, 3, 4, and swallow an item of each list before the first with n.
fn check_lengths(rows: Rows, n: usize) -> Result<(), Refusal>
    requires { n ≤ 64 }
    ensures { ForMain rows (λ l. found result ≡ in_lengths l n) }
{
    let counts = [
        rows.names.count,
        rows.signs.count,
        rows.intra_predictors.count,
        rows.inter_predictors.count,
        rows.intra_encodings.count,
        rows.inter_encodings.count,
    ];
    let w0 = is_wrong(&counts, 0, n);
    let w5 = is_wrong(&counts, 1, n);
    let w1 = is_wrong(&counts, 2, n);
    let w2 = is_wrong(&counts, 3, n);
    let w3 = is_wrong(&counts, 4, n);
    let w4 = is_wrong(&counts, 5, n);
    check(w0 || w1 || w3 || w5, Refusal::WrongLength(n))?;
    check(w2 || w4, Refusal::WrongLengthInter(n))
}

// The first field named motor[0], or the number of fields.
fn motor_0(names: Row, n: usize) -> usize
    requires { n ≤ 64 }
    ensures { ForNames names (λ l. result ≡ motor_from l 0 (n - 2)) }
{
    digits::until(&names.codes[n.min(2)..n], MOTOR_0)
}

fn fields(rows: Rows, n: usize) -> Main
    requires { n ≤ 64 }
    ensures { ForMain rows (λ l. result ≡ main_of l n) }
{
    Main {
        n,
        motor: motor_0(rows.names, n),
        intra_predictors: cut_to(rows.intra_predictors, 2, n),
        inter_predictors: cut_to(rows.inter_predictors, 2, n),
        intra_encodings: cut_to(rows.intra_encodings, 2, n),
        inter_encodings: cut_to(rows.inter_encodings, 2, n),
        signs: cut_to(rows.signs, 2, n),
    }
}

#[tactic(auto, using(crate::proofs::Chain::steps), unfolding(crate::specs::Defined::main_absent))]
fn check_absent(text: &[u8], lists: MainLists) -> Result<(), Refusal>
    ensures { found result ≡ main_absent text.now lists }
{
    check(!items::is_given(text, lists.names), Refusal::Absent(0))?;
    check(
        !items::is_given(text, lists.intra_predictors),
        Refusal::Absent(1),
    )?;
    check(
        !items::is_given(text, lists.inter_predictors),
        Refusal::Absent(2),
    )?;
    check(
        !items::is_given(text, lists.intra_encodings),
        Refusal::Absent(3),
    )?;
    check(
        !items::is_given(text, lists.inter_encodings),
        Refusal::Absent(4),
    )?;
    check(!items::is_given(text, lists.signs), Refusal::Absent(5))
}

// Checks 2 to 8.
#[tactic(auto, using(crate::proofs::Judged::main_rows, crate::proofs::Chain::steps))]
fn judge_rows(rows: Rows, numbers: Numbers) -> Result<Main, Refusal>
    ensures finding { ForMain rows (λ l. found result ≡ judged_main l numbers) }
    ensures fields { ForMain rows (λ l. IfOk result (λ m. m ≡ main_of l (rounds l))) }
{
    let n = smallest(rows);
    if 64 < n {
        return Err(Refusal::TooMany(n));
    }
    check_rounds(rows, n)?;
    check_lengths(rows, n)?;
    let main = fields(rows, n);
    unmet(main.unmet(numbers))?;
    Ok(main)
}

// Checks 1 to 8 of the main lists, and their fields.
#[tactic(auto, using(crate::proofs::Chain::steps), unfolding(crate::specs::Defined::main_finding))]
pub(crate) fn judge(text: &[u8], lists: MainLists, numbers: Numbers) -> Result<Main, Refusal>
    ensures finding { found result ≡ main_finding text.now lists numbers }
    ensures fields { IfOk result (λ m. m ≡ main_fields text.now lists) }
{
    check_absent(text, lists)?;
    judge_rows(read_all(text, lists), numbers)
}
