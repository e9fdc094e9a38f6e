// A case `fields LABEL N ENCODINGS PREDICTORS MOTOR T B M BYTES`: the first N fields of two lists of their own, with no frame before.
use crate::parse::Fields;
use crate::{LONGEST, parse, show};
use frame::MainFrame;
use frame::fields::{Context, Unread};
use predictor::Surroundings;
use reader::{Cursor, Fault};
use std::io;
use std::io::Write;
use words::three;

// Its section stands in it as it is written.
#[derive(Clone, Copy)]
struct Asked<'a> {
    label: &'a [u8],
    n: usize,
    fields: Fields,
    context: Context,
    section: &'a [u8],
}

fn read(rest: &[u8]) -> Option<Asked<'_>> {
    let (label, rest) = words::split(rest, b' ');
    let (n, rest) = words::split(rest, b' ');
    let (encodings, rest) = words::split(rest, b' ');
    let (predictors, rest) = words::split(rest, b' ');
    let (motor, rest) = words::split(rest, b' ');
    let n = digits::decimal(n)?;
    let fields = parse::any_fields_of(encodings, predictors)?;
    let around = Surroundings {
        numbers: three::numbers(rest)?,
        skipped: 0,
    };
    let context = Context {
        motor: parse::motor(motor, n)?,
        around,
        last: MainFrame::absent(),
        older: MainFrame::absent(),
    };
    Some(Asked {
        label,
        n,
        fields,
        context,
        section: three::behind_three(rest),
    })
}

// What is read, or nothing where the section is not written rightly. Its buffer stands here, since a function pays for it at entry.
fn answer(out: &mut impl Write, case: Asked) -> io::Result<bool> {
    let mut space = [0u8; LONGEST];
    let Some(k) = words::section::bytes(case.section, &mut space) else {
        return Ok(false);
    };
    let n = case.n;
    let fields = case.fields;
    let start = Cursor { at: 0 };
    let read = frame::fields::read_fields(
        n,
        fields.encodings,
        fields.predictors,
        case.context,
        &space[..k],
        start,
    );
    out.write_all(case.label)?;
    out.write_all(b" = ")?;
    match read {
        Ok((fields, behind)) => show::fields(out, fields.values, n, behind)?,
        Err(Unread::Cut) => show::fault(out, Fault::Cut)?,
        Err(Unread::Corrupt) => show::fault(out, Fault::Corrupt)?,
        Err(why) => {
            if let Some((number, place)) = why.refusal() {
                write!(out, "refused {number} {place}")?;
            }
        }
    }
    Ok(true)
}

// Answers whether the line is a case, and prints nothing where it is not.
pub fn case(out: &mut impl Write, rest: &[u8]) -> io::Result<bool> {
    match read(rest) {
        Some(case) => answer(out, case),
        None => Ok(false),
    }
}
