// The time of an inter frame, in 64 bits. The Rust goes to 128 bits; here what leaves 64 is held, or None.
ghost use Rattle.std.specs.Prelude.{◌≡◌, ℕ, List, pos};
ghost use Rattle.frame.specs.Parts.{frame_of};
ghost use Rattle.frame.specs.Past.{past_of, body_of};
ghost use Rattle.frame.specs.Time.{predicted_time, time_after};

use crate::{Head, Mark};
use predictor::straight_line;

// Predictor 2 of the times. The older one counts only if the last frame was inter.
#[tactic(auto, unfolding(crate::specs::Past::body_of, crate::specs::Time::behind_inter, crate::specs::Time::top, predictor::specs::Predictors::from_both))]
fn predicted_time(last: Head, older: Head) -> u64
    ensures { (ls os : List ℕ) → pos result ≡ predicted_time (past_of (body_of (frame_of last ls)) (body_of (frame_of older os))) }
{
    match (last.mark, older.mark) {
        (Mark::Absent, _) => 0,
        (Mark::Intra, _) | (Mark::Inter, Mark::Absent) => last.time,
        (Mark::Inter, _) => straight_line(u64::MAX, last.time, older.time),
    }
}

// Moved by a signed offset, held at 0 and at the top.
pub(crate) fn time_after(last: Head, older: Head, offset: u32) -> u64
    ensures { (ls os : List ℕ) → result ≡ time_after (past_of (body_of (frame_of last ls)) (body_of (frame_of older os))) offset }
{
    let time = predicted_time(last, older);
    time.saturating_add_signed(i64::from(offset.cast_signed()))
}
