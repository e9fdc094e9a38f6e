// The header numbers of a case, three words T B M: minimum throttle, battery reference, minimum motor, each up to 65535 or - where a log has none.
ghost use Rattle.std.specs.Prelude.{◌≡◌};
ghost use Rattle.words.specs.Owes.{NumbersOwes, BehindThreeOwes};
ghost use Rattle.words.specs.Three.{is_dash, given_of};

use crate::{behind, first};
use digits::decimal;
use plan::Numbers;

#[tactic(auto, unfolding(crate::specs::Three::is_dash))]
fn is_dash(word: &[u8]) -> bool
    ensures { result ≡ is_dash word.now }
{
    matches!(word, [b'-'])
}

// A header number as a case has it.
#[tactic(auto, unfolding(crate::specs::Three::given_of, crate::specs::Words::up_to))]
fn given(word: &[u8]) -> Option<Option<u16>>
    ensures { result ≡ given_of word.now }
{
    if is_dash(word) {
        return Some(None);
    }
    u16::try_from(decimal(word)?).ok().map(Some)
}

// The numbers at the start of some words.
#[tactic(auto, unfolding(crate::specs::Three::numbers_of, crate::specs::Words::each_of))]
pub fn numbers(s: &[u8]) -> Option<Numbers>
    ensures { NumbersOwes s.now result }
{
    let behind_throttle = behind(s);
    let min_throttle = given(first(s))?;
    let vbat_reference = given(first(behind_throttle))?;
    let min_motor = given(first(behind(behind_throttle)))?;
    Some(Numbers {
        min_throttle,
        vbat_reference,
        min_motor,
    })
}

// What stands behind them.
pub fn behind_three(s: &[u8]) -> &[u8]
    ensures { BehindThreeOwes s.now result.now }
{
    behind(behind(behind(s)))
}
