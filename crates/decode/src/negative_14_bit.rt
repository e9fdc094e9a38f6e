// Encoding 3: groups of seven bits, of which the low 14 bits count, negated.
ghost use Rattle.std.specs.Prelude.{◌≡◌, ◌%◌, ◌^◌, neg_ℤ};
ghost use Rattle.bits.specs.Pattern.{pattern, signed};
ghost use Rattle.decode.specs.Owes.{Negative14BitOwes};

use crate::variable::variable;
use reader::{Cursor, Fault};

// The low 14 bits as a signed number, negated.
#[tactic(auto, using(crate::proofs::Minus::minus_low, crate::proofs::Minus::minus_high))]
fn minus_low_14(n: u32) -> u32
    ensures { result ≡ pattern (neg_ℤ (signed 14 (n % 2 ^ 14))) }
{
    let v = n % 16384;
    if v < 8192 {
        v.wrapping_neg()
    } else {
        16384 - v
    }
}

pub fn negative_14_bit(s: &[u8], from: Cursor) -> Result<(u32, Cursor), Fault>
    ensures { Negative14BitOwes s.now from result }
{
    let (n, next) = variable(s, from)?;
    Ok((minus_low_14(n), next))
}
