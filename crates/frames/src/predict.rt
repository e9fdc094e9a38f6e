// A case `predict PREDICTOR ENCODING LAST OLDER RAW SKIPPED MOTOR T B M`: a prediction, and the value that a raw number makes with it.
use crate::parse;
use predictor::{Before, Surroundings};
use std::io;
use std::io::Write;
use words::three;

#[derive(Clone, Copy)]
struct Asked {
    predictor: u8,
    signed: bool,
    before: Before,
    raw: u32,
    around: Surroundings,
    motor_0: u32,
}

// One of the two histories: - where it is absent.
fn past(word: &[u8]) -> Option<Option<u32>> {
    if word == b"-".as_slice() {
        return Some(None);
    }
    parse::pattern(word).map(Some)
}

fn read(rest: &[u8]) -> Option<Asked> {
    let (predictor, rest) = words::split(rest, b' ');
    let (encoding, rest) = words::split(rest, b' ');
    let (last, rest) = words::split(rest, b' ');
    let (older, rest) = words::split(rest, b' ');
    let (raw, rest) = words::split(rest, b' ');
    let (skipped, rest) = words::split(rest, b' ');
    let (motor_0, rest) = words::split(rest, b' ');
    let numbers = three::numbers(rest)?;
    // Nothing stands behind the third header number, not even a space.
    let (_, battery) = words::split(rest, b' ');
    let (_, motor) = words::split(battery, b' ');
    if motor.contains(&b' ') {
        return None;
    }
    Some(Asked {
        predictor: parse::code(predictor)?,
        signed: predictor::is_signed(parse::code(encoding)?),
        before: Before {
            last: past(last)?,
            older: past(older)?,
        },
        raw: parse::pattern(raw)?,
        around: Surroundings {
            numbers,
            skipped: parse::pattern(skipped)?,
        },
        motor_0: parse::pattern(motor_0)?,
    })
}

// Answers whether the line is a case, and prints nothing where it is not.
pub fn case(out: &mut impl Write, line: &[u8], rest: &[u8]) -> io::Result<bool> {
    let Some(case) = read(rest) else {
        return Ok(false);
    };
    let p = case.predictor;
    let prediction = predictor::predict(p, case.signed, case.around, case.before, case.motor_0);
    let value = predictor::apply(
        p,
        case.raw,
        case.signed,
        case.around,
        case.before,
        case.motor_0,
    );
    out.write_all(line)?;
    write!(out, " = {prediction} {value}")?;
    Ok(true)
}
