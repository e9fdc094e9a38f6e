// Standard input for the programs: all of it, as far as a buffer of the program's has room.
#![tactic(auto)]

ghost use Rattle.std.specs.Prelude.{◌≡◌, ◌<◌, length, take, IfOk, EachIndex, slice_index};
ghost use Rattle.std.specs.Io.{ReadsAtMost};
ghost use Rattle.std.specs.Io.KnownBytes.{Consumes, IsAtEnd};

use std::io;
use std::io::Read;

// N zeros. The ensures keeps the prover from counting them where the buffer is lent.
pub fn large_buffer<const N: usize>() -> [u8; N]
    ensures room { N ≡ length result }
    ensures zeros { EachIndex result (λ k. slice_index result k ≡ 0) }
{
    [0u8; N]
}

// Reads until the buffer is full or the input ends, and answers how many bytes it put at the buffer's start.
pub fn read_full<R: Read>(from: &mut R, buf: &mut [u8]) -> io::Result<usize>
    ensures bound { ReadsAtMost result buf.new }
    ensures bytes { IfOk result (λ n. Consumes (R.remaining from.old) (R.remaining from.new) (take n buf.new)) }
    ensures end { IfOk result (λ n. n < length buf.new → IsAtEnd (R.remaining from.new)) }
{
    let mut done = 0;
    while done < buf.len() {
        let n = from.read(&mut buf[done..])?;
        if n == 0 {
            return Ok(done);
        }
        done += n;
    }
    Ok(done)
}
