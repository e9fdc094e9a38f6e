// A line of a case taken apart into its words. The programs that run cases share it.
// One space stands between two words, so behind two spaces the first word is empty.
#![tactic(auto)]

ghost use Rattle.std.specs.Prelude.{◌≡◌, ◌<◌, IfSome};
ghost use Rattle.words.specs.Owes.{SplitOwes, FirstOwes, BehindOwes, IsHeadingOwes, HexOwes};
ghost use Rattle.words.specs.Words.{nibble};

pub mod escapes;
pub mod interval;
pub mod section;
pub mod table;
pub mod three;
mod written;

use digits::until;

// What stands before the first b, and what behind it: all and nothing, where there is none.
#[tactic(auto, using(digits::proofs::Parting::until_within, digits::proofs::Parting::until_taken, digits::proofs::Parting::rest_all))]
pub fn split(s: &[u8], b: u8) -> (&[u8], &[u8])
    ensures { SplitOwes s.now b result.0.now result.1.now }
{
    let n = until(s, b);
    if n < s.len() {
        (&s[..n], &s[n + 1..])
    } else {
        (s, &[])
    }
}

#[tactic(auto, unfolding(crate::specs::Words::first_word))]
pub fn first(s: &[u8]) -> &[u8]
    ensures { FirstOwes s.now result.now }
{
    split(s, b' ').0
}

// What stands behind the first word and its space.
#[tactic(auto, unfolding(crate::specs::Words::other_words))]
pub fn behind(s: &[u8]) -> &[u8]
    ensures { BehindOwes s.now result.now }
{
    split(s, b' ').1
}

#[tactic(auto, unfolding(crate::specs::Words::heading))]
pub fn is_heading(s: &[u8]) -> bool
    ensures { IsHeadingOwes s.now result }
{
    matches!(s, [b'#', ..])
}

#[tactic(auto, unfolding(crate::specs::Words::nibble))]
fn digit(b: u8) -> Option<u8>
    ensures value { result ≡ nibble b }
    ensures small { IfSome result (λ d. d < 16) }
{
    match b {
        b'0'..=b'9' => Some(b - b'0'),
        b'a'..=b'f' => Some(b - b'a' + 10),
        _ => None,
    }
}

// Two hexadecimal digits in small letters.
#[tactic(auto, unfolding(crate::specs::Words::hex_of, crate::specs::Words::joined))]
pub fn hex(high: u8, low: u8) -> Option<u8>
    ensures { HexOwes high low result }
{
    let h = digit(high)?;
    let l = digit(low)?;
    Some(16 * h + l)
}
