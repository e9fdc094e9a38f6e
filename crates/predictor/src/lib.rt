// What each predictor says of a field, from the frames before it and the log's header; and the value that a raw number makes with it.
// The Rust's Predictor::apply. Values are 32-bit patterns: only predictors 2 and 3 ask whether they are signed, by the encoding.
#![tactic(auto)]

ghost use Rattle.std.specs.Prelude.{◌≡◌, ◌+◌, ◌^◌, false};
ghost use Rattle.bits.specs.Pattern.{pattern, wrap};
ghost use Rattle.predictor.specs.Owes.{IsSignedOwes, StraightLineOwes, PredictOwes, ApplyOwes};
ghost use Rattle.predictor.specs.Predictors.{or_zero, meaning, from_both, number_of};
ghost use Rattle.predictor.specs.Predictors as Predictors;
ghost use Rattle.predictor.specs.Sign.{fits, value_of};

use plan::Numbers;

// What the predictors of a frame look at besides its histories.
#[derive(Clone, Copy)]
pub struct Surroundings {
    pub numbers: Numbers,
    pub skipped: u32,
}

// What stood in a field before: in the last frame and in the older one, each there or not.
#[derive(Clone, Copy)]
pub struct Before {
    pub last: Option<u32>,
    pub older: Option<u32>,
}

// Whether the values of an encoding are signed: the sign list has no part in it.
#[tactic(auto, unfolding(crate::specs::Sign::is_signed))]
pub fn is_signed(encoding: u8) -> bool
    ensures { IsSignedOwes encoding result }
{
    !matches!(encoding, 1 | 9)
}

// 2 * last - older, or last where that is negative or over the top. No step leaves 64 bits: what does is None.
#[tactic(auto, using(crate::proofs::Lines::stays_from_below, crate::proofs::Lines::stays_from_over, crate::proofs::Lines::goes_on))]
pub fn straight_line(top: u64, last: u64, older: u64) -> u64
    ensures { StraightLineOwes top last older result }
{
    let line = if last < older {
        last.checked_sub(older - last)
    } else {
        last.checked_add(last - older)
    };
    match line {
        Some(line) if line <= top => line,
        _ => last,
    }
}

// 2^31 further on, and again to come back: signed values in their order are unsigned ones in theirs.
#[tactic(auto, unfolding(bits::specs::Pattern::wrap))]
fn turned(v: u32) -> u32
    ensures { result ≡ wrap (v + 2 ^ 31) }
{
    v.wrapping_add(2147483648)
}

#[tactic(auto, using(crate::proofs::Lines::straight_below, crate::proofs::Lines::straight_unsigned))]
fn straight_32(last: u32, older: u32) -> u32
    ensures { result ≡ pattern (Predictors.straight (fits false) (value_of false last) (value_of false older)) }
{
    straight_line(4294967295, last as u64, older as u64) as u32
}

// Predictor 2 where there are both.
#[tactic(auto, using(crate::proofs::Lines::straight_signed))]
fn straight(signed: bool, last: u32, older: u32) -> u32
    ensures { result ≡ pattern (Predictors.straight (fits signed) (value_of signed last) (value_of signed older)) }
{
    if signed {
        return turned(straight_32(turned(last), turned(older)));
    }
    straight_32(last, older)
}

// Predictor 3 where there are both. The sum of two turned values stands 2^32 above that of the signed ones.
#[tactic(auto, using(crate::proofs::Means::mean_signed, crate::proofs::Means::mean_unsigned))]
fn mean(signed: bool, last: u32, older: u32) -> u32
    ensures { result ≡ pattern (Predictors.mean (value_of signed last) (value_of signed older)) }
{
    if signed {
        // Towards zero: one more where the sum is negative, before it is halved downwards.
        let sum = turned(last) as u64 + turned(older) as u64;
        let up = 1 - sum / 4294967296;
        return turned(((sum + up) / 2) as u32);
    }
    ((last as u64 + older as u64) / 2) as u32
}

// Three lines that `average` has too: one function would take a closure, and then promise what this says for each closure.
#[tactic(auto, using(crate::proofs::Predictions::histories))]
fn straight_on(signed: bool, before: Before) -> u32
    ensures { result ≡ pattern (from_both (Predictors.straight (fits signed)) (meaning signed before.last) (meaning signed before.older)) }
{
    match (before.last, before.older) {
        (None, _) => 0,
        (Some(last), None) => last,
        (Some(last), Some(older)) => straight(signed, last, older),
    }
}

#[tactic(auto, using(crate::proofs::Predictions::histories))]
fn average(signed: bool, before: Before) -> u32
    ensures { result ≡ pattern (from_both Predictors.mean (meaning signed before.last) (meaning signed before.older)) }
{
    match (before.last, before.older) {
        (None, _) => 0,
        (Some(last), None) => last,
        (Some(last), Some(older)) => mean(signed, last, older),
    }
}

#[tactic(auto, unfolding(bits::specs::Pattern::wrap, crate::specs::Predictors::or_zero))]
fn increment(skipped: u32, before: Before) -> u32
    ensures { result ≡ wrap (skipped + 1 + or_zero before.last) }
{
    skipped
        .wrapping_add(1)
        .wrapping_add(before.last.unwrap_or(0))
}

#[tactic(auto, unfolding(crate::specs::Predictors::number_of))]
fn number(given: Option<u16>) -> u32
    ensures { result ≡ number_of given }
{
    u32::from(given.unwrap_or(0))
}

// The prediction for a field; motor_0 is the frame's own earlier motor[0]. A number that is no predictor gives 0.
// One match over all of them is compiled to a table of jumps.
#[tactic(auto, unfolding(crate::specs::Predictors::prediction, crate::specs::Predictors::or_zero))]
pub fn predict(
    predictor: u8,
    signed: bool,
    around: Surroundings,
    before: Before,
    motor_0: u32,
) -> u32
    ensures { PredictOwes predictor signed around before motor_0 result }
{
    let numbers = around.numbers;
    match predictor {
        0 => 0,
        1 => before.last.unwrap_or(0),
        2 => straight_on(signed, before),
        3 => average(signed, before),
        4 => number(numbers.min_throttle),
        5 => motor_0,
        6 => increment(around.skipped, before),
        7 => 0,
        8 => 1500,
        9 => number(numbers.vbat_reference),
        10 => 0,
        11 => number(numbers.min_motor),
        _ => 0,
    }
}

// The value of a field: its raw number and its prediction, wrapping whatever the predictor.
#[tactic(auto, unfolding(bits::specs::Pattern::wrap, crate::specs::Predictors::applied))]
pub fn apply(
    predictor: u8,
    raw: u32,
    signed: bool,
    around: Surroundings,
    before: Before,
    motor_0: u32,
) -> u32
    ensures { ApplyOwes predictor raw signed around before motor_0 result }
{
    let prediction = predict(predictor, signed, around, before, motor_0);
    raw.wrapping_add(prediction)
}
