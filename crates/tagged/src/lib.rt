// Numbers in groups whose head says how many bytes they take: encodings 7 and 8.
// The head tells the size, one test tells whether the section holds it, and then every value is taken from its own place.
#![tactic(auto)]

ghost use Rattle.std.specs.Prelude.{ℕ, ℤ, List, map, length, drop, ◌≡◌, ◌+◌, ◌≤◌, ◌<◌, ◌%◌};
ghost use Rattle.bits.specs.Pattern.{pattern, lowered};
ghost use Rattle.reader.specs.Got.{over};
ghost use Rattle.reader.specs.Place.{rest, padded, group_at};
ghost use Rattle.tagged.specs.Sized.{by_head};

use reader::{Cursor, Fault, Group};

pub mod tagged_16;
pub mod tagged_32;

// An encoding of which the head, its first byte, tells the size, and every value is taken from its own place.
trait SizedByHead {
    ghost size: { ℕ → ℕ };

    ghost values: { ℕ → List ℕ → List ℤ };

    // The bytes that a head asks for, its own included.
    fn size_of(head: u8) -> usize
        ensures { result ≡ size head };

    fn values_of(s: &[u8], at: usize, head: u8) -> [u32; 8]
        requires { at + size head ≤ length s.now }
        ensures { result ≡ padded 8 (map pattern (values head (drop at s.now))) };
}

// A group of such an encoding: one test tells whether the section holds it.
#[tactic(auto, using(crate::proofs::Ends::end, crate::proofs::Ends::short, crate::proofs::Ends::whole))]
fn sized_by_head<E: SizedByHead>(s: &[u8], from: Cursor) -> Group
    ensures { result ≡ group_at from (over (map pattern) (by_head E.size E.values (rest from s.now))) }
{
    let at = from.at;
    if s.len() <= at {
        return Group::stopped(Err(Fault::Cut));
    }
    let head = s[at];
    let n = E::size_of(head);
    if s.len() - at < n {
        return Group::stopped(Err(Fault::Cut));
    }
    Group {
        step: Ok(Cursor { at: at + n }),
        values: E::values_of(s, at, head),
    }
}

// A number below an even k, as a signed one: its upper half is negative.
#[tactic(auto, unfolding(bits::specs::Pattern::lowered, bits::specs::Pattern::pattern, bits::specs::Pattern::wrap))]
fn sign_extend(k: u32, v: u32) -> u32
    requires { (v < k) × (k % 2 ≡ 0) }
    ensures { result ≡ pattern (lowered k v) }
{
    if v < k / 2 { v } else { v.wrapping_sub(k) }
}
