// The definition that a case is about. It has the fields of one kind of frame; of the other kinds it has none, or zeros.
use crate::parse;
use plan::{Definition, Settings};
use words::three;

// The definition of the words ENCODINGS PREDICTORS MOTOR T B M, for inter frames or for intra ones, and the words behind them.
pub fn main(is_inter: bool, words: &[u8]) -> Option<(Definition, &[u8])> {
    let (encodings, rest) = words::split(words, b' ');
    let (predictors, rest) = words::split(rest, b' ');
    let (motor, rest) = words::split(rest, b' ');
    let fields = parse::fields_of(encodings, predictors)?;
    let mut d = Definition::nothing();
    d.numbers = three::numbers(rest)?;
    d.settings = Settings::plain();
    d.main.n = fields.n + 2;
    d.main.motor = parse::motor(motor, fields.n)?;
    let encodings = fields.encodings;
    let predictors = fields.predictors;
    if is_inter {
        d.main.inter_encodings = encodings;
        d.main.inter_predictors = predictors;
    } else {
        d.main.intra_encodings = encodings;
        d.main.intra_predictors = predictors;
    }
    Some((d, three::behind_three(rest)))
}

// The definition of the words ENCODINGS PREDICTORS T B M, for slow frames, and the words behind them.
pub fn slow(words: &[u8]) -> Option<(Definition, &[u8])> {
    let (encodings, rest) = words::split(words, b' ');
    let (predictors, rest) = words::split(rest, b' ');
    let fields = parse::fields_of(encodings, predictors)?;
    if 16 < fields.n {
        return None;
    }
    let mut d = Definition::nothing();
    d.numbers = three::numbers(rest)?;
    d.settings = Settings::plain();
    d.slow.n = fields.n;
    d.slow.encodings.copy_from_slice(&fields.encodings[..16]);
    d.slow.predictors.copy_from_slice(&fields.predictors[..16]);
    Some((d, three::behind_three(rest)))
}
