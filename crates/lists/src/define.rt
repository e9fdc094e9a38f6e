// A case `define LABEL T B M I N D LOG`: what a log's header says, and what its lists come to with three header numbers and an interval.
use crate::{LONGEST, show};
use plan::{Numbers, Settings};
use std::io;
use std::io::Write;
use words::three::behind_three;
use words::{escapes, interval, three};

// Its log stands in it as it is written.
#[derive(Clone, Copy)]
struct Asked<'a> {
    label: &'a [u8],
    numbers: Numbers,
    settings: Settings,
    log: &'a [u8],
}

fn read(rest: &[u8]) -> Option<Asked<'_>> {
    let (label, rest) = words::split(rest, b' ');
    let numbers = three::numbers(rest)?;
    let rest = behind_three(rest);
    let interval = interval::read(rest)?;
    Some(Asked {
        label,
        numbers,
        settings: Settings { interval },
        log: behind_three(rest),
    })
}

// What the log comes to, or nothing where it is not written rightly. Its buffer stands here and never in a caller, since a function pays for it at entry.
#[inline(never)]
fn answer(out: &mut impl Write, case: Asked) -> io::Result<bool> {
    let mut space = [0u8; LONGEST];
    let Some(n) = escapes::unescape(case.log, &mut space) else {
        return Ok(false);
    };
    let log = &space[..n];
    let header = header::read(log);
    let lists = header.lists;
    let defined = definition::define(log, lists, case.numbers, case.settings);
    out.write_all(case.label)?;
    write!(out, " = section {} ", header.section)?;
    match defined.verdict {
        Ok(()) => show::definition(out, defined.definition, log, lists)?,
        Err(why) => show::refusal(out, why)?,
    }
    Ok(true)
}

// Answers whether the line is a case, and prints nothing where it is not.
pub fn case(out: &mut impl Write, rest: &[u8]) -> io::Result<bool> {
    match read(rest) {
        Some(case) => answer(out, case),
        None => Ok(false),
    }
}
