// A case `name LABEL KIND K MAIN SLOW LOG`: the name of a field of a log's definition, asked with two lists of names.
use crate::{LONGEST, show};
use plan::Sort;
use std::io;
use std::io::Write;
use words::escapes;

// Texts stand in it as they are written.
#[derive(Clone, Copy)]
struct Asked<'a> {
    label: &'a [u8],
    sort: Sort,
    k: usize,
    main: &'a [u8],
    slow: &'a [u8],
    log: &'a [u8],
}

fn sort_of(word: &[u8]) -> Option<Sort> {
    match word {
        b"main" => Some(Sort::Main),
        b"slow" => Some(Sort::Slow),
        _ => None,
    }
}

fn read(rest: &[u8]) -> Option<Asked<'_>> {
    let (label, rest) = words::split(rest, b' ');
    let (sort, rest) = words::split(rest, b' ');
    let (k, rest) = words::split(rest, b' ');
    let (main, rest) = words::split(rest, b' ');
    let (slow, log) = words::split(rest, b' ');
    Some(Asked {
        label,
        sort: sort_of(sort)?,
        k: digits::decimal(k)?,
        main,
        slow,
        log,
    })
}

// The name, or nothing where a text is not written rightly. The buffers stand here and never in a caller, since a function pays for its own at entry.
#[inline(never)]
fn answer(out: &mut impl Write, case: Asked) -> io::Result<bool> {
    let mut main_space = [0u8; LONGEST];
    let Some(main) = escapes::word(case.main, &mut main_space) else {
        return Ok(false);
    };
    let mut slow_space = [0u8; LONGEST];
    let Some(slow) = escapes::word(case.slow, &mut slow_space) else {
        return Ok(false);
    };
    let mut log_space = [0u8; LONGEST];
    let Some(log) = escapes::unescape(case.log, &mut log_space) else {
        return Ok(false);
    };
    let (main, slow, log) = (&main_space[..main], &slow_space[..slow], &log_space[..log]);
    let d = definition::define_plainly(log, header::read(log).lists).definition;
    out.write_all(case.label)?;
    out.write_all(b" = ")?;
    show::name(out, d, case.sort, main, slow, case.k)?;
    if let Some(at) = names::name_at(d, case.sort, main, slow, case.k) {
        write!(out, " {} {}", at.start, at.end)?;
    }
    Ok(true)
}

// Answers whether the line is a case, and prints nothing where it is not.
pub fn case(out: &mut impl Write, rest: &[u8]) -> io::Result<bool> {
    match read(rest) {
        Some(case) => answer(out, case),
        None => Ok(false),
    }
}
