// The frame interval of a case, three words I N D: the intra interval, and the two numbers of N/D, each of 32 bits.
ghost use Rattle.std.specs.Prelude.{◌≡◌};
ghost use Rattle.digits.specs.Digits.{decimal_of};
ghost use Rattle.words.specs.Words.{up_to};
ghost use Rattle.words.specs.Owes.{IntervalOwes};

use crate::{behind, first};
use digits::decimal;
use plan::FrameInterval;

#[tactic(auto, unfolding(crate::specs::Words::up_to))]
fn number(word: &[u8]) -> Option<u32>
    ensures { result ≡ up_to 4294967295 (decimal_of word.now) }
{
    u32::try_from(decimal(word)?).ok()
}

// The interval at the start of some words.
#[tactic(auto, unfolding(crate::specs::Interval::interval_of, crate::specs::Words::each_of))]
pub fn read(s: &[u8]) -> Option<FrameInterval>
    ensures { IntervalOwes s.now result }
{
    let behind_intra = behind(s);
    let intra = number(first(s))?;
    let numerator = number(first(behind_intra))?;
    let denominator = number(first(behind(behind_intra)))?;
    Some(FrameInterval {
        intra,
        numerator,
        denominator,
    })
}
