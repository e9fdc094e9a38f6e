// The bytes of a section, written as pairs of hexadecimal digits in small letters, or as - where there are none.
// They go to a buffer of the caller's, whose length is the longest section. A text that is no section leaves it as it is.
ghost use Rattle.std.specs.Prelude.{◌≡◌, IfSome};
ghost use Rattle.words.specs.Written.{Counts};
ghost use Rattle.words.specs.Sections.{pairs};
ghost use Rattle.words.specs.Owes.{BytesOwes};

use crate::hex;
use crate::written::{Writing, word};

struct Pairs;

impl Writing for Pairs {
    ghost bytes = { pairs };

    #[tactic(auto, unfolding(crate::specs::Sections::pairs, crate::specs::Written::in_front))]
    fn first(text: &[u8]) -> Option<(u8, &[u8])> {
        match text {
            [high, low, rest @ ..] => Some((hex(*high, *low)?, rest)),
            _ => None,
        }
    }
}

// How many bytes the section has. A text that there is no room for is not read.
#[tactic(auto, using(crate::proofs::Pairs::no_room))]
pub fn bytes(text: &[u8], out: &mut [u8]) -> Option<usize>
    ensures value { BytesOwes text.now out.old result out.new }
    ensures counts { IfSome result (λ n. Counts n out.new) }
{
    if out.len() < text.len() / 2 {
        return None;
    }
    word::<Pairs>(text, out)
}
