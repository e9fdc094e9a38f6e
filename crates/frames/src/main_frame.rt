// A case `intra LABEL ENCODINGS PREDICTORS MOTOR T B M LAST BYTES`: an intra frame behind another frame, or behind none.
// A case `inter LABEL ENCODINGS PREDICTORS MOTOR T B M LAST OLDER BYTES`: an inter frame behind up to two others.
use crate::{LONGEST, define, earlier, show};
use frame::MainFrame;
use plan::Definition;
use reader::Cursor;
use std::io;
use std::io::Write;

// Its section stands in it as it is written.
#[derive(Clone, Copy)]
struct Asked<'a> {
    label: &'a [u8],
    definition: Definition,
    last: MainFrame,
    older: MainFrame,
    section: &'a [u8],
}

fn read(is_inter: bool, rest: &[u8]) -> Option<Asked<'_>> {
    let (label, rest) = words::split(rest, b' ');
    let (definition, rest) = define::main(is_inter, rest)?;
    let n = definition.main.fields();
    let (last, mut rest) = words::split(rest, b' ');
    let last = earlier::frame(last, n)?;
    let mut older = MainFrame::absent();
    if is_inter {
        let (word, behind) = words::split(rest, b' ');
        older = earlier::frame(word, n)?;
        rest = behind;
    }
    Some(Asked {
        label,
        definition,
        last,
        older,
        section: rest,
    })
}

// What is read, or nothing where the section is not written rightly. Its buffer stands here, since a function pays for it at entry.
fn answer(out: &mut impl Write, is_inter: bool, case: Asked) -> io::Result<bool> {
    let mut space = [0u8; LONGEST];
    let Some(k) = words::section::bytes(case.section, &mut space) else {
        return Ok(false);
    };
    let d = case.definition;
    let s = &space[..k];
    let start = Cursor { at: 0 };
    let frame = if is_inter {
        raws::inter(d, s, start).map(|(raw, behind)| (
            frame::inter(d, case.last, case.older, raw),
            behind,
        ))
    } else {
        raws::intra(d, s, start).map(|(raw, behind)| (frame::intra(d, case.last, raw), behind))
    };
    out.write_all(case.label)?;
    out.write_all(b" = ")?;
    match frame {
        Ok((frame, behind)) => show::main_frame(out, frame, d.main.fields(), behind)?,
        Err(why) => show::fault(out, why)?,
    }
    Ok(true)
}

// Answers whether the line is a case, and prints nothing where it is not.
pub fn case(out: &mut impl Write, is_inter: bool, rest: &[u8]) -> io::Result<bool> {
    match read(is_inter, rest) {
        Some(case) => answer(out, is_inter, case),
        None => Ok(false),
    }
}
