// Where a section is read: places, one byte, the kinds of frames and the search for the next.
// The Rust's Reader holds its data; here the section is lent to each call, and a place goes in and comes out.
#![tactic(auto)]

ghost use Rattle.std.specs.Prelude.{◌≡◌};
ghost use Rattle.reader.specs.Owes.{GetRestorePointOwes, RestoreOwes, StoppedOwes, ReadU8Owes, FromByteOwes, SkipToFrameOwes};
ghost use Rattle.reader.specs.Search.{letter_of, searched};

// The place of the next byte to read.
#[derive(Clone, Copy)]
pub struct Cursor {
    pub at: usize,
}

// A place to go back to, never a count or a length: behind a trial's kind byte, where the search begins if the trial is rejected.
#[derive(Clone, Copy)]
pub struct RestorePoint(pub usize);

// Why reading does not go on: the data ended inside; or the bytes are no such value.
#[derive(Clone, Copy, PartialEq, Eq, Debug)]
pub enum Fault {
    Cut,
    Corrupt,
}

// The numbers of a group, as 32-bit patterns, and zeros behind them; and where reading goes on, or why it does not.
// The numbers stand beside the step, whatever it is: the edit stopped_with_ones says a wrong thing of those of a stopped group.
#[derive(Clone, Copy)]
pub struct Group {
    pub step: Result<Cursor, Fault>,
    pub values: [u32; 8],
}

// The kinds of frames, by their letters E I P G H S.
#[derive(Clone, Copy, PartialEq, Eq, Debug)]
pub enum Kind {
    Event,
    Intra,
    Inter,
    Gps,
    Home,
    Slow,
}

impl Cursor {
    pub fn get_restore_point(self) -> RestorePoint
        ensures { GetRestorePointOwes self result }
    {
        RestorePoint(self.at)
    }
}

impl RestorePoint {
    pub fn restore(self) -> Cursor
        ensures { RestoreOwes self result }
    {
        Cursor { at: self.0 }
    }
}

impl Group {
    // No numbers: why reading stopped.
    pub fn stopped(step: Result<Cursor, Fault>) -> Group
        ensures { StoppedOwes step result }
    {
        Group {
            step,
            values: [0u32; 8],
        }
    }
}

// The byte at a place, and the place behind it; or nothing at the end. No `get`: the edit byte_beyond_the_end asks behind the last byte.
#[tactic(auto, using(crate::proofs::Bytes::byte_here, crate::proofs::Bytes::byte_end))]
pub fn read_u8(s: &[u8], from: Cursor) -> Option<(u8, Cursor)>
    ensures { ReadU8Owes s.now from result }
{
    let at = from.at;
    if at < s.len() {
        Some((s[at], Cursor { at: at + 1 }))
    } else {
        None
    }
}

impl Kind {
    // The kind whose letter a byte is, where a frame may begin.
    #[tactic(auto, unfolding(crate::specs::Search::letter_of))]
    pub fn from_byte(b: u8) -> Option<Kind>
        ensures { FromByteOwes b result }
    {
        match b {
            b'E' => Some(Kind::Event),
            b'I' => Some(Kind::Intra),
            b'P' => Some(Kind::Inter),
            b'G' => Some(Kind::Gps),
            b'H' => Some(Kind::Home),
            b'S' => Some(Kind::Slow),
            _ => None,
        }
    }
}

// Whether a search stops at a byte: P is not searched for.
#[tactic(auto, unfolding(crate::specs::Search::letter_of, crate::specs::Search::searched))]
fn stops(b: u8) -> bool
    ensures { result ≡ searched (letter_of b) }
{
    matches!(b, b'E' | b'I' | b'S' | b'G' | b'H')
}

// How far ahead the next of E I S G H stands, the byte at `from` included, or nothing where none is left; P is passed over.
pub fn skip_to_frame(s: &[u8], from: RestorePoint) -> Option<usize>
    ensures { SkipToFrameOwes s.now from result }
{
    s.get(from.0..)?.iter().position(|b| stops(*b))
}
