// What a log's lists came to: a refusal by its number and place, or the definition with the names of its fields.
use definition::Refusal;
use items::Lists;
use plan::{Definition, FrameInterval, Main, Numbers, Slow, Sort};
use std::io;
use std::io::Write;

// Only refusal 3 has a round beside its place. Crate session prints the same words as a line: a crate for both would be no plainer.
pub fn refusal(out: &mut impl Write, why: Refusal) -> io::Result<()> {
    let paper = why.paper();
    write!(out, "refused {} {}", paper.number, paper.place)?;
    if paper.number == 3 {
        write!(out, " {}", paper.round)?;
    }
    Ok(())
}

fn escaped(out: &mut impl Write, b: u8) -> io::Result<()> {
    match b {
        b'\n' => out.write_all(b"\\n"),
        b'\r' => out.write_all(b"\\r"),
        b'\\' => out.write_all(b"\\\\"),
        b' ' | b'!' | b'#'..=b'~' => out.write_all(&[b]),
        _ => write!(out, "\\x{b:02x}"),
    }
}

// A text between quotes, escaped as a case's texts are.
fn quoted(out: &mut impl Write, s: &[u8]) -> io::Result<()> {
    out.write_all(b"\"")?;
    for b in s {
        escaped(out, *b)?;
    }
    out.write_all(b"\"")
}

fn sign(code: u8) -> char {
    if code == 0 { 'u' } else { 's' }
}

// The fields of main frames: intra and inter predictor, intra and inter encoding, sign.
fn main_fields(out: &mut impl Write, m: Main) -> io::Result<()> {
    for i in 0..m.fields().min(62) {
        let intra = m.intra_predictors[i];
        let inter = m.inter_predictors[i];
        write!(out, " {intra}/{inter}")?;
        let intra = m.intra_encodings[i];
        let inter = m.inter_encodings[i];
        let sign = sign(m.signs[i]);
        write!(out, "/{intra}/{inter}/{sign}")?;
    }
    Ok(())
}

// The fields of slow frames: predictor, encoding, sign.
fn slow_fields(out: &mut impl Write, s: Slow) -> io::Result<()> {
    for i in 0..s.n.min(16) {
        let predictor = s.predictors[i];
        let encoding = s.encodings[i];
        let sign = sign(s.signs[i]);
        write!(out, " {predictor}/{encoding}/{sign}")?;
    }
    Ok(())
}

fn header_number(out: &mut impl Write, given: Option<u16>) -> io::Result<()> {
    match given {
        Some(v) => write!(out, " {v}"),
        None => write!(out, " -"),
    }
}

pub fn numbers(out: &mut impl Write, given: Numbers) -> io::Result<()> {
    header_number(out, given.min_throttle)?;
    header_number(out, given.vbat_reference)?;
    header_number(out, given.min_motor)
}

pub fn interval(out: &mut impl Write, v: FrameInterval) -> io::Result<()> {
    write!(out, " {} {} {}", v.intra, v.numerator, v.denominator)
}

// The name of a field, or none; what is handed out for none is empty, and would show.
pub fn name(
    out: &mut impl Write,
    d: Definition,
    sort: Sort,
    main: &[u8],
    slow: &[u8],
    k: usize,
) -> io::Result<()> {
    let name = names::field_name(d, sort, main, slow, k);
    if names::name_at(d, sort, main, slow, k).is_some() {
        return quoted(out, name);
    }
    out.write_all(b"none")?;
    out.write_all(name)
}

// The names of fields 0 to n: the last of them is one too far.
fn names_to(
    out: &mut impl Write,
    d: Definition,
    sort: Sort,
    main: &[u8],
    slow: &[u8],
    n: usize,
) -> io::Result<()> {
    for k in 0..=n {
        out.write_all(b" ")?;
        name(out, d, sort, main, slow, k)?;
    }
    Ok(())
}

pub fn definition(out: &mut impl Write, d: Definition, log: &[u8], lists: Lists) -> io::Result<()> {
    let main = items::part(log, lists.main.names);
    let slow = items::part(log, lists.slow.names);
    write!(out, "main {} motor {} fields", d.main.n, d.main.motor)?;
    main_fields(out, d.main)?;
    write!(out, " slow {} fields", d.slow.n)?;
    slow_fields(out, d.slow)?;
    out.write_all(b" numbers")?;
    numbers(out, d.numbers)?;
    out.write_all(b" names")?;
    names_to(out, d, Sort::Main, main, slow, d.main.n)?;
    out.write_all(b" slow")?;
    names_to(out, d, Sort::Slow, main, slow, d.slow.n)?;
    out.write_all(b" interval")?;
    interval(out, d.settings.interval)
}
