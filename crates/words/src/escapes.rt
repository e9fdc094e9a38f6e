// Texts as a case writes them: \n, \r, \\ and \xHH stand for a byte each, every other byte for itself.
// They go to a buffer of the caller's. A text that is not written rightly, or does not fit, leaves it as it is.
ghost use Rattle.std.specs.Prelude.{◌≡◌, IfSome};
ghost use Rattle.words.specs.Escapes.{letter_of, bytes_of};
ghost use Rattle.words.specs.Written.{Counts};
ghost use Rattle.words.specs.Owes.{UnescapeOwes, WordOwes};

use crate::hex;
use crate::written::{Writing, write};

struct Escaped;

#[tactic(auto, unfolding(crate::specs::Escapes::letter_of))]
fn letter(b: u8) -> Option<u8>
    ensures { result ≡ letter_of b }
{
    match b {
        b'n' => Some(b'\n'),
        b'r' => Some(b'\r'),
        b'\\' => Some(b'\\'),
        _ => None,
    }
}

impl Writing for Escaped {
    ghost bytes = { bytes_of };

    #[tactic(auto, unfolding(crate::specs::Escapes::bytes_of, crate::specs::Escapes::letter_of, crate::specs::Written::in_front))]
    fn first(text: &[u8]) -> Option<(u8, &[u8])> {
        match text {
            [b'\\', b'x', high, low, rest @ ..] => Some((hex(*high, *low)?, rest)),
            [b'\\', b, rest @ ..] => Some((letter(*b)?, rest)),
            [b'\\'] => None,
            [b, rest @ ..] => Some((*b, rest)),
            [] => None,
        }
    }
}

// How many bytes a text writes.
pub fn unescape(text: &[u8], out: &mut [u8]) -> Option<usize>
    ensures value { UnescapeOwes text.now out.old result out.new }
    ensures counts { IfSome result (λ n. Counts n out.new) }
{
    write::<Escaped>(text, out)
}

// The same of a text that stands as a word between others: - for an empty one.
pub fn word(text: &[u8], out: &mut [u8]) -> Option<usize>
    ensures value { WordOwes text.now out.old result out.new }
    ensures counts { IfSome result (λ n. Counts n out.new) }
{
    crate::written::word::<Escaped>(text, out)
}
