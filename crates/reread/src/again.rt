// The second reading of a main frame: its fields by their records, and the history with the frame pushed.
use crate::show;
use decode::variable::{variable, variable_signed};
use frame::fields::Context;
use frame::{MainFrame, Mark};
use history::History;
use plan::Definition;
use predictor::Surroundings;
use reader::{Cursor, Fault};
use records::FieldDef;
use section::{Answer, MainAnswer};
use std::io;
use std::io::Write;

fn records_of(predictors: [u8; 62], encodings: [u8; 62], signs: [u8; 62]) -> [FieldDef; 63] {
    let none = FieldDef {
        predictor: 0,
        encoding: 0,
        signed: false,
    };
    let mut records = [none; 63];
    for i in 0..62 {
        records[i] = FieldDef {
            predictor: predictors[i],
            encoding: encodings[i],
            signed: signs[i] != 0,
        };
    }
    records
}

fn context_of(d: Definition, last: MainFrame, older: MainFrame) -> Context {
    let around = Surroundings {
        numbers: d.numbers,
        skipped: 0,
    };
    Context {
        motor: d.main.motor,
        around,
        last,
        older,
    }
}

// The place behind a number. A number that the walk has read is there; the section's end stands for one that is not.
fn behind(read: Result<(u32, Cursor), Fault>, s: &[u8]) -> Cursor {
    match read {
        Ok((_, next)) => next,
        Err(_) => Cursor { at: s.len() },
    }
}

// The place behind a kind byte, which the section has.
fn behind_kind(at: usize, s: &[u8]) -> Cursor {
    if at < s.len() {
        return Cursor { at: at + 1 };
    }
    Cursor { at }
}

// A main frame to be read again: of which kind, what the walk has of it, where its fields begin, and what they are read by.
#[derive(Clone, Copy)]
pub struct Second {
    pub mark: Mark,
    pub first: MainAnswer,
    pub from: Cursor,
    pub n: usize,
    pub records: [FieldDef; 63],
    pub context: Context,
}

// Behind an intra frame's kind byte stand its iteration and its time. Only last is given, never older.
fn intra(d: Definition, s: &[u8], x: MainAnswer, h: History) -> Second {
    let predictors = d.main.intra_predictors;
    let encodings = d.main.intra_encodings;
    let signs = d.main.signs;
    let records = records_of(predictors, encodings, signs);
    let behind_iteration = behind(variable(s, behind_kind(x.at, s)), s);
    Second {
        mark: Mark::Intra,
        first: x,
        from: behind(variable(s, behind_iteration), s),
        n: d.main.fields(),
        records,
        context: context_of(d, h.last, MainFrame::absent()),
    }
}

// Behind an inter frame's kind byte stands its time.
fn inter(d: Definition, s: &[u8], x: MainAnswer, h: History) -> Second {
    let predictors = d.main.inter_predictors;
    let encodings = d.main.inter_encodings;
    let signs = d.main.signs;
    let records = records_of(predictors, encodings, signs);
    Second {
        mark: Mark::Inter,
        first: x,
        from: behind(variable_signed(s, behind_kind(x.at, s)), s),
        n: d.main.fields(),
        records,
        context: context_of(d, h.last, h.older),
    }
}

// Reads the fields at a place by their records, prints the frame, and pushes it.
fn read(out: &mut impl Write, s: &[u8], x: Second, h: History) -> io::Result<History> {
    let records = x.records;
    let reading = records::read_records(s, x.from, x.n, records, x.context);
    let values = match reading {
        Ok((fields, _)) => fields.values,
        Err(_) => [0u32; 62],
    };
    let frame = MainFrame {
        mark: x.mark,
        iteration: x.first.iteration,
        time: x.first.time,
        values,
    };
    let after = history::push_through(h, frame);
    show::frame(out, x, reading)?;
    show::history(out, after)?;
    Ok(after)
}

// The history behind an answer: a main frame is read again and pushed.
pub fn answer(
    out: &mut impl Write,
    d: Definition,
    s: &[u8],
    answer: Answer,
    h: History,
) -> io::Result<History> {
    match answer {
        Answer::Intra(x) => read(out, s, intra(d, s, x, h), h),
        Answer::Inter(x) => read(out, s, inter(d, s, x, h), h),
        _ => Ok(h),
    }
}

// 62 fields without bytes, encoding 9, are read wherever they are asked for; 63 are refused.
pub fn counts(out: &mut impl Write, d: Definition, s: &[u8]) -> io::Result<()> {
    let none = FieldDef {
        predictor: 0,
        encoding: 9,
        signed: false,
    };
    let context = context_of(d, MainFrame::absent(), MainFrame::absent());
    let start = Cursor { at: 0 };
    for n in 62..64 {
        write!(out, "{n} fields ")?;
        let reading = records::read_records(s, start, n, [none; 63], context);
        show::place(out, reading)?;
    }
    Ok(())
}
