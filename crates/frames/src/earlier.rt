// The frames before, as a case writes them: - for none, or KIND/ITERATION/TIME/VALUES with a comma between two values.
use crate::parse;
use frame::{MainFrame, Mark};

// The n values in a text.
fn values(text: &[u8], n: usize) -> Option<[u32; 62]> {
    let mut values = [0u32; 62];
    if text.is_empty() {
        return (n == 0).then_some(values);
    }
    let mut count = 0;
    for word in text.split(|b| *b == b',') {
        *values.get_mut(count)? = parse::pattern(word)?;
        count += 1;
    }
    (count == n).then_some(values)
}

fn mark(text: &[u8]) -> Option<Mark> {
    match text {
        b"I" => Some(Mark::Intra),
        b"P" => Some(Mark::Inter),
        _ => None,
    }
}

// The frame of a word, with n values, or the absent one.
pub fn frame(word: &[u8], n: usize) -> Option<MainFrame> {
    if word == b"-".as_slice() {
        return Some(MainFrame::absent());
    }
    let (kind, rest) = words::split(word, b'/');
    let (iteration, rest) = words::split(rest, b'/');
    if !rest.contains(&b'/') {
        return None;
    }
    let (time, rest) = words::split(rest, b'/');
    Some(MainFrame {
        mark: mark(kind)?,
        iteration: parse::pattern(iteration)?,
        time: digits::decimal(time)? as u64,
        values: values(rest, n)?,
    })
}
