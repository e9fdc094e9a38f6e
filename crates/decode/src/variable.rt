// Encodings 1 and 0: groups of seven bits, unsigned and signed.
// Five bytes at the most, so five flat steps: no loop, and no shift that could lose a bit. Bit 7 of a byte is taken off with the next.
ghost use Rattle.std.specs.Prelude.{◌≡◌};
ghost use Rattle.bits.specs.Pattern.{pattern};
ghost use Rattle.decode.specs.Variable.{zigzag};
ghost use Rattle.decode.specs.Owes.{VariableOwes, VariableSignedOwes};

use reader::{Cursor, Fault};

// Encoding 1.
pub fn variable(s: &[u8], from: Cursor) -> Result<(u32, Cursor), Fault>
    ensures { VariableOwes s.now from result }
{
    let at = from.at;
    if s.len() <= at {
        return Err(Fault::Cut);
    }
    let a = u32::from(s[at]);
    let p = at + 1;
    if a < 128 {
        return Ok((a, Cursor { at: p }));
    }
    if s.len() <= p {
        return Err(Fault::Cut);
    }
    let b = u32::from(s[p]);
    let ab = 128 * b + (a - 128);
    let q = p + 1;
    if b < 128 {
        return Ok((ab, Cursor { at: q }));
    }
    if s.len() <= q {
        return Err(Fault::Cut);
    }
    let c = u32::from(s[q]);
    let abc = 16384 * c + (ab - 16384);
    let r = q + 1;
    if c < 128 {
        return Ok((abc, Cursor { at: r }));
    }
    if s.len() <= r {
        return Err(Fault::Cut);
    }
    let d = u32::from(s[r]);
    let abcd = 2097152 * d + (abc - 2097152);
    let t = r + 1;
    if d < 128 {
        return Ok((abcd, Cursor { at: t }));
    }
    if s.len() <= t {
        return Err(Fault::Cut);
    }
    let e = u32::from(s[t]);
    if e <= 15 {
        return Ok((268435456 * e + (abcd - 268435456), Cursor { at: t + 1 }));
    }
    Err(Fault::Corrupt)
}

// 2k is k and 2k + 1 is -k-1.
#[tactic(auto, unfolding(crate::specs::Variable::zigzag, bits::specs::Pattern::pattern, bits::specs::Pattern::wrap))]
fn zig_zag_decode(n: u32) -> u32
    ensures { result ≡ pattern (zigzag n) }
{
    if n % 2 == 0 { n / 2 } else { !(n / 2) }
}

// Encoding 0.
pub fn variable_signed(s: &[u8], from: Cursor) -> Result<(u32, Cursor), Fault>
    ensures { VariableSignedOwes s.now from result }
{
    let (n, next) = variable(s, from)?;
    Ok((zig_zag_decode(n), next))
}
