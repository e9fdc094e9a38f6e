// Encoding 7: three numbers, of 2, 4 or 6 bits or of 1 to 4 bytes each.
ghost use Rattle.std.specs.Prelude.{◌≡◌, ◌<◌, ◌+◌, length};
ghost use Rattle.bits.specs.Pattern.{pattern};
ghost use Rattle.tagged.specs.Owes.{Tagged32Owes};
ghost use Rattle.tagged.specs.Sized.{signed_from, size7, values7};

use crate::{SizedByHead, sign_extend, sized_by_head};
use reader::{Cursor, Group};

// The signed number of n + 1 bytes.
fn signed_bytes(s: &[u8], at: usize, n: u8) -> u32
    requires { (n < 4) × (at + n < length s.now) }
    ensures { result ≡ pattern (signed_from (1 + n) s.now at) }
{
    let a = u32::from(s[at]);
    if n == 0 {
        return sign_extend(256, a);
    }
    let p = at + 1;
    let b = 256 * u32::from(s[p]);
    if n == 1 {
        return sign_extend(65536, a + b);
    }
    let q = p + 1;
    let c = 65536 * u32::from(s[q]);
    if n == 2 {
        return sign_extend(16777216, a + b + c);
    }
    let r = q + 1;
    a + b + c + 16777216 * u32::from(s[r])
}

struct Encoding7;

impl SizedByHead for Encoding7 {
    ghost size = { size7 };

    ghost values = { values7 };

    #[tactic(auto, unfolding(crate::specs::Sized::size7))]
    fn size_of(head: u8) -> usize {
        let k = head / 64;
        match k {
            0 => 1,
            1 => 2,
            2 => 3,
            _ => 4 + usize::from(head % 4) + usize::from(head / 4 % 4) + usize::from(head / 16 % 4),
        }
    }

    fn values_of(s: &[u8], at: usize, head: u8) -> [u32; 8] {
        let k = head / 64;
        match k {
            0 => [
                sign_extend(4, u32::from(head / 16 % 4)),
                sign_extend(4, u32::from(head / 4 % 4)),
                sign_extend(4, u32::from(head % 4)),
                0,
                0,
                0,
                0,
                0,
            ],
            1 => {
                let b = s[at + 1];
                [
                    sign_extend(16, u32::from(head % 16)),
                    sign_extend(16, u32::from(b) / 16),
                    sign_extend(16, u32::from(b % 16)),
                    0,
                    0,
                    0,
                    0,
                    0,
                ]
            }
            2 => {
                let b = s[at + 1];
                let d = s[at + 2];
                [
                    sign_extend(64, u32::from(head % 64)),
                    sign_extend(64, u32::from(b % 64)),
                    sign_extend(64, u32::from(d % 64)),
                    0,
                    0,
                    0,
                    0,
                    0,
                ]
            }
            _ => {
                let i = head % 4;
                let j = head / 4 % 4;
                let l = head / 16 % 4;
                [
                    signed_bytes(s, at + 1, i),
                    signed_bytes(s, at + (2 + usize::from(i)), j),
                    signed_bytes(s, at + (3 + usize::from(i) + usize::from(j)), l),
                    0,
                    0,
                    0,
                    0,
                    0,
                ]
            }
        }
    }
}

pub fn tagged_32(s: &[u8], from: Cursor) -> Group
    ensures { Tagged32Owes s.now from result }
{
    sized_by_head::<Encoding7>(s, from)
}
