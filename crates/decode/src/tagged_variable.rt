// Encoding 6: a head whose bits mark the numbers that follow, as many as it has ones.
ghost use Rattle.std.specs.Prelude.{map, ◌≡◌, ◌<◌, ◌≤◌, ◌^◌};
ghost use Rattle.bits.specs.Pattern.{pattern};
ghost use Rattle.reader.specs.Got.{over};
ghost use Rattle.reader.specs.Place.{rest, read_at, group_at};
ghost use Rattle.decode.specs.Owes.{TaggedVariableOwes};
ghost use Rattle.decode.specs.TaggedVariable.{marked, fields, headed, alone, encoding6};
ghost use Rattle.decode.specs.Whole.{whole};

use crate::variable::variable_signed;
use reader::{Cursor, Fault, Group};

// A field, by its bit in the head: a number where it is set; where it is clear 0, and no byte.
#[tactic(auto, using(crate::proofs::Marked::unmarked, crate::proofs::Marked::is_marked))]
fn marked_field(s: &[u8], from: Cursor, bit: u8) -> Result<(u32, Cursor), Fault>
    ensures { result ≡ read_at from (over pattern (marked bit (rest from s.now))) }
{
    if bit == 0 {
        return Ok((0, from));
    }
    variable_signed(s, from)
}

// The fields behind a head. The count of its ones gives the numbers read, as document 01 has it, and so ends the loop: no `for` over the fields.
fn marked_fields(s: &[u8], from: Cursor, n: usize, head: u8) -> Result<Group, Fault>
    requires { (n ≤ 8) × (head < 2 ^ n) }
    ensures { whole result ≡ group_at from (over (map pattern) (fields n head (rest from s.now))) }
{
    let mut values = [0u32; 8];
    let mut next = from;
    let mut bits = head;
    let mut left = head.count_ones();
    let mut i = 0;
    while 0 < left {
        let bit = bits % 2;
        let (v, behind) = marked_field(s, next, bit)?;
        values[i] = v;
        next = behind;
        left -= u32::from(bit);
        bits /= 2;
        i += 1;
    }
    Ok(Group {
        step: Ok(next),
        values,
    })
}

#[tactic(auto, using(crate::proofs::Headed::power))]
fn limit(n: usize) -> u32
    requires { n ≤ 8 }
    ensures { result ≡ 2 ^ n }
{
    1 << n
}

fn headed_group(s: &[u8], from: Cursor, n: usize) -> Result<Group, Fault>
    requires { n ≤ 8 }
    ensures { whole result ≡ group_at from (over (map pattern) (headed n (rest from s.now))) }
{
    let (head, next) = reader::read_u8(s, from).ok_or(Fault::Cut)?;
    if limit(n) <= u32::from(head) {
        return Err(Fault::Corrupt);
    }
    marked_fields(s, next, n, head)
}

fn lone_field(s: &[u8], from: Cursor) -> Result<Group, Fault>
    ensures { whole result ≡ group_at from (over (map pattern) (alone (rest from s.now))) }
{
    let (v, next) = variable_signed(s, from)?;
    Ok(Group {
        step: Ok(next),
        values: [v, 0, 0, 0, 0, 0, 0, 0],
    })
}

// No group has none or more than eight: it is corrupt, and no byte is read.
#[tactic(auto, using(crate::proofs::Headed::size_none, crate::proofs::Headed::size_one, crate::proofs::Headed::size_more, crate::proofs::Headed::size_beyond))]
fn sized_group(s: &[u8], from: Cursor, n: usize) -> Result<Group, Fault>
    ensures { whole result ≡ group_at from (over (map pattern) (encoding6 n (rest from s.now))) }
{
    match n {
        1 => lone_field(s, from),
        2..=8 => headed_group(s, from, n),
        _ => Err(Fault::Corrupt),
    }
}

// Encoding 6, a group of n fields.
pub fn tagged_variable(s: &[u8], from: Cursor, n: usize) -> Group
    ensures { TaggedVariableOwes s.now from n result }
{
    match sized_group(s, from, n) {
        Ok(group) => group,
        Err(fault) => Group::stopped(Err(fault)),
    }
}
