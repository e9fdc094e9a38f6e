// Texts that write bytes, and what they make of a lent buffer. A text that is not written rightly, or does not fit, leaves it as it is.
ghost use Rattle.std.specs.Prelude.{ℕ, true, ◌≡◌, List, Option, IfSome, MatchOption};
ghost use Rattle.words.specs.Written.{Begins, stopped, counted, put_of, dashed, fits, Counts};

// A way of writing bytes.
pub(crate) trait Writing {
    // the bytes that a text writes, or none where it is not written rightly
    ghost bytes: { List ℕ → Option (List ℕ) };

    // The byte that a text begins with, and what stands behind it. None begins an empty text, and one that is wrong there.
    fn first(text: &[u8]) -> Option<(u8, &[u8])>
        ensures { MatchOption result (bytes text.now ≡ stopped text.now) (λ r. Begins bytes text.now r.0 r.1.now) };
}

// How many bytes a text writes.
fn count<W: Writing>(text: &[u8]) -> Option<usize>
    ensures { result ≡ counted (W.bytes text.now) }
{
    let mut n = 0;
    let mut rest = text;
    while let Some((_, behind)) = W::first(rest) {
        n += 1;
        rest = behind;
    }
    if rest.is_empty() { Some(n) } else { None }
}

// Puts the bytes that a text writes in front of out.
fn put<W: Writing>(text: &[u8], out: &mut [u8])
    requires { fits (W.bytes text.now) out.old ≡ true }
    ensures { out.new ≡ (put_of (W.bytes text.now) out.old).1 }
{
    let mut rest = text;
    for i in 0..out.len() {
        let Some((byte, behind)) = W::first(rest) else {
            return;
        };
        out[i] = byte;
        rest = behind;
    }
}

// A text, in front of a buffer: how many bytes it has there.
#[tactic(auto, unfolding(crate::specs::Written::counted, crate::specs::Written::put_of, crate::specs::Written::fits))]
pub(crate) fn write<W: Writing>(text: &[u8], out: &mut [u8]) -> Option<usize>
    ensures value { (result, out.new) ≡ put_of (W.bytes text.now) out.old }
    ensures counts { IfSome result (λ n. Counts n out.new) }
{
    let n = count::<W>(text)?;
    if out.len() < n {
        return None;
    }
    put::<W>(text, out);
    Some(n)
}

// A text that stands as a word between others: - for no bytes.
#[tactic(auto, unfolding(crate::specs::Written::dashed, crate::specs::Written::put_of, crate::specs::Written::over))]
pub(crate) fn word<W: Writing>(text: &[u8], out: &mut [u8]) -> Option<usize>
    ensures value { (result, out.new) ≡ put_of (dashed W.bytes text.now) out.old }
    ensures counts { IfSome result (λ n. Counts n out.new) }
{
    match text {
        [] => None,
        [b'-'] => Some(0),
        _ => write::<W>(text, out),
    }
}
