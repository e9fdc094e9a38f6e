// Encoding 8: four numbers of 0, 4, 8 or 16 bits, packed in half bytes, the high one first.
ghost use Rattle.std.specs.Prelude.{◌≡◌, ◌≤◌, ◌<◌, ◌+◌, ◌/◌, length, get_or};
ghost use Rattle.bits.specs.Pattern.{pattern};
ghost use Rattle.tagged.specs.Owes.{Tagged16Owes};
ghost use Rattle.tagged.specs.Sized.{halves_behind, packed_from, size8, values8};
ghost use Rattle.tagged.specs.Tagged16 as Tagged16;

use crate::{SizedByHead, sign_extend, sized_by_head};
use reader::{Cursor, Group};

// Half byte k behind the head at `at`.
#[tactic(auto, using(crate::proofs::Numbers8::half_even, crate::proofs::Numbers8::half_odd))]
fn half(s: &[u8], at: usize, k: usize) -> u32
    requires { at + (1 + k / 2) < length s.now }
    ensures { (result ≡ get_or (halves_behind at s.now) k 0) × (result < 16) }
{
    let b = u32::from(s[at + (1 + k / 2)]);
    if k % 2 == 0 { b / 16 } else { b % 16 }
}

// The half bytes of a code.
#[tactic(auto, unfolding(crate::specs::Tagged16::width))]
fn width(code: u8) -> usize
    requires { code < 4 }
    ensures { (result ≡ Tagged16.width code) × (result ≤ 4) }
{
    match code {
        0 => 0,
        1 => 1,
        2 => 2,
        _ => 4,
    }
}

// The number of a code, from half byte k on.
fn packed(s: &[u8], at: usize, code: u8, k: usize) -> u32
    requires { (code < 4) × (at + (1 + (k + Tagged16.width code + 1) / 2) ≤ length s.now) }
    ensures { result ≡ pattern (packed_from code (halves_behind at s.now) k) }
{
    match code {
        0 => 0,
        1 => sign_extend(16, half(s, at, k)),
        2 => sign_extend(256, 16 * half(s, at, k) + half(s, at, k + 1)),
        _ => sign_extend(
            65536,
            4096 * half(s, at, k)
                + 256 * half(s, at, k + 1)
                + 16 * half(s, at, k + 2)
                + half(s, at, k + 3),
        ),
    }
}

struct Encoding8;

impl SizedByHead for Encoding8 {
    ghost size = { size8 };

    ghost values = { values8 };

    #[tactic(auto, using(crate::proofs::Numbers8::size8_is))]
    fn size_of(head: u8) -> usize {
        1 + (width(head % 4) + width(head / 4 % 4) + width(head / 16 % 4) + width(head / 64) + 1)
            / 2
    }

    fn values_of(s: &[u8], at: usize, head: u8) -> [u32; 8] {
        let i = width(head % 4);
        let j = i + width(head / 4 % 4);
        let l = j + width(head / 16 % 4);
        [
            packed(s, at, head % 4, 0),
            packed(s, at, head / 4 % 4, i),
            packed(s, at, head / 16 % 4, j),
            packed(s, at, head / 64, l),
            0,
            0,
            0,
            0,
        ]
    }
}

pub fn tagged_16(s: &[u8], from: Cursor) -> Group
    ensures { Tagged16Owes s.now from result }
{
    sized_by_head::<Encoding8>(s, from)
}
