// A case `slow LABEL ENCODINGS PREDICTORS T B M BYTES`: a slow frame, which has no history.
use crate::{LONGEST, define, show};
use plan::Definition;
use reader::Cursor;
use std::io;
use std::io::Write;

// Its section stands in it as it is written.
#[derive(Clone, Copy)]
struct Asked<'a> {
    label: &'a [u8],
    definition: Definition,
    section: &'a [u8],
}

fn read(rest: &[u8]) -> Option<Asked<'_>> {
    let (label, rest) = words::split(rest, b' ');
    let (definition, rest) = define::slow(rest)?;
    Some(Asked {
        label,
        definition,
        section: rest,
    })
}

// What is read, or nothing where the section is not written rightly. Its buffer stands here, since a function pays for it at entry.
fn answer(out: &mut impl Write, case: Asked) -> io::Result<bool> {
    let mut space = [0u8; LONGEST];
    let Some(k) = words::section::bytes(case.section, &mut space) else {
        return Ok(false);
    };
    let d = case.definition;
    out.write_all(case.label)?;
    out.write_all(b" = ")?;
    match raws::slow(d, &space[..k], Cursor { at: 0 }) {
        Ok((raw, behind)) => show::fields(out, frame::slow(d, raw), d.slow.n, behind)?,
        Err(why) => show::fault(out, why)?,
    }
    Ok(true)
}

// Answers whether the line is a case, and prints nothing where it is not.
pub fn case(out: &mut impl Write, rest: &[u8]) -> io::Result<bool> {
    match read(rest) {
        Some(case) => answer(out, case),
        None => Ok(false),
    }
}
