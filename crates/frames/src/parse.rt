// The words of a case: numbers, and the encodings and predictors of fields.
ghost use Rattle.std.specs.Prelude.{◌≤◌, IfSome};

// Up to 62 codes, of encodings or of predictors, 0 behind the last: an array with its count, as definitions and `read_fields` take it.
#[derive(Clone, Copy)]
struct Codes {
    n: usize,
    codes: [u8; 62],
}

// The fields of a frame: as many encodings as predictors.
#[derive(Clone, Copy)]
pub struct Fields {
    pub n: usize,
    pub encodings: [u8; 62],
    pub predictors: [u8; 62],
}

pub fn code(word: &[u8]) -> Option<u8> {
    u8::try_from(digits::decimal(word)?).ok()
}

// A 32-bit pattern.
pub fn pattern(word: &[u8]) -> Option<u32> {
    u32::try_from(digits::decimal(word)?).ok()
}

// The field named motor[0] of n fields, or n.
pub fn motor(word: &[u8], n: usize) -> Option<usize> {
    if word == b"-".as_slice() {
        return Some(n);
    }
    digits::decimal(word)
}

// A digit for each code, up to a largest one; - for no codes.
fn codes_of(word: &[u8], top: u8) -> Option<Codes>
    ensures { IfSome result (λ r. r.n ≤ 62) }
{
    let mut codes = [0u8; 62];
    if word == b"-".as_slice() {
        return Some(Codes { n: 0, codes });
    }
    if word.is_empty() || 62 < word.len() {
        return None;
    }
    for (i, b) in word.iter().enumerate() {
        let code = words::hex(b'0', *b)?;
        if top < code {
            return None;
        }
        codes[i] = code;
    }
    Some(Codes {
        n: word.len(),
        codes,
    })
}

fn fields_up_to(encodings: &[u8], top: u8, predictors: &[u8], top_predictor: u8) -> Option<Fields>
    ensures { IfSome result (λ r. r.n ≤ 62) }
{
    let encodings = codes_of(encodings, top)?;
    let predictors = codes_of(predictors, top_predictor)?;
    if encodings.n != predictors.n {
        return None;
    }
    let n = encodings.n;
    let encodings = encodings.codes;
    let predictors = predictors.codes;
    Some(Fields {
        n,
        encodings,
        predictors,
    })
}

// Up to the largest encoding, and the largest predictor.
pub fn fields_of(encodings: &[u8], predictors: &[u8]) -> Option<Fields>
    ensures { IfSome result (λ r. r.n ≤ 62) }
{
    fields_up_to(encodings, 9, predictors, 11)
}

// Codes that there are not too.
pub fn any_fields_of(encodings: &[u8], predictors: &[u8]) -> Option<Fields> {
    fields_up_to(encodings, 15, predictors, 15)
}
