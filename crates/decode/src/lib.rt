// The numbers of a section that stand by themselves, and those behind a head that marks them: encodings 1, 0, 3, 9 and 6.
// As in the Rust, a reader takes a place and answers the value with the place behind it.
#![tactic(auto)]

ghost use Rattle.std.specs.Prelude.{◌≡◌};
ghost use Rattle.decode.specs.Owes.{NullOwes};

use reader::{Cursor, Fault};

pub mod negative_14_bit;
pub mod tagged_variable;
pub mod variable;

// Encoding 9.
pub fn null(from: Cursor) -> Result<(u32, Cursor), Fault>
    ensures { NullOwes from result }
{
    Ok((0, from))
}
