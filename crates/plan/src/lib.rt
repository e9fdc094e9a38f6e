// The definition of a log's frames, as the walk uses it: the fields' predictors and encodings, and what these rest on.
// The Rust keeps a vector of field records; here each property is an array of 62 rooms (slow: 16), 0 behind the last field.
#![tactic(auto)]

ghost use Rattle.std.specs.Prelude.{◌≡◌, take};
ghost use Rattle.plan.specs.Known.{among, predictors, encodings};
ghost use Rattle.plan.specs.Owes.{CodeOwes, OfOwes, FieldsOwes, IsIntervalOwes, PlainOwes, NothingOwes};
ghost use Rattle.plan.specs.Owes.{UnmetMainOwes, UnmetSlowOwes, AreSoundOwes, IsSoundOwes};
ghost use Rattle.plan.specs.Sound.{met, unmet_from, known, sound_fields, sound_main, sound_slow};

// The two definitions of a log: which of them a frame, a field or a name belongs to.
#[derive(Clone, Copy, PartialEq, Eq)]
pub enum Sort {
    Main,
    Slow,
}

// The main frames: the items of each list (0 where refused, 2 with no fields), and the fields behind loopIteration and time.
// Stays arrays of bytes beside a count: no heap here, C's layout (crate store), and IsSoundOwes speaks of numbers that are no predictor or encoding.
#[derive(Clone, Copy)]
pub struct Main {
    pub n: usize,
    // The first field named motor[0], or the number of fields where there is none.
    // Stays a number: AreSoundOwes takes any, and check 8 asks whether it lies before a field (edit motor_at_its_own_field).
    pub motor: usize,
    pub intra_predictors: [u8; 62],
    pub inter_predictors: [u8; 62],
    pub intra_encodings: [u8; 62],
    pub inter_encodings: [u8; 62],
    // 0 for unsigned, 1 for signed: for display alone.
    pub signs: [u8; 62],
}

// The slow frames: the items of each list, all of them fields; 0 where there are no slow frames.
#[derive(Clone, Copy)]
pub struct Slow {
    pub n: usize,
    pub predictors: [u8; 16],
    pub encodings: [u8; 16],
    pub signs: [u8; 16],
}

// The header numbers that predictors 4, 9 and 11 use: each stands in a log's header, or does not.
#[derive(Clone, Copy)]
pub struct Numbers {
    pub min_throttle: Option<u16>,
    pub vbat_reference: Option<u16>,
    pub min_motor: Option<u16>,
}

// How often loop iterations are logged: every so many an intra frame, and of so many so many at all.
// Stays numbers, with 0 for an intra interval that could not be read: C stores it so, and edit intra_interval_of_0 says a wrong thing of it.
#[derive(Clone, Copy)]
pub struct FrameInterval {
    pub intra: u32,
    pub numerator: u32,
    pub denominator: u32,
}

// What is chosen beside the lists and the header numbers.
#[derive(Clone, Copy)]
pub struct Settings {
    pub interval: FrameInterval,
}

#[derive(Clone, Copy)]
pub struct Definition {
    pub main: Main,
    pub slow: Slow,
    pub numbers: Numbers,
    pub settings: Settings,
}

// Whether predictor `p` of field `i` has what it needs.
#[tactic(auto, unfolding(crate::specs::Sound::met))]
fn is_met(numbers: Numbers, motor: usize, i: usize, p: u8) -> bool
    ensures { result ≡ met numbers motor i p }
{
    match p {
        4 => numbers.min_throttle.is_some(),
        9 => numbers.vbat_reference.is_some(),
        11 => numbers.min_motor.is_some(),
        5 => motor < i,
        _ => true,
    }
}

// The first of n fields with a predictor that lacks something, by two lists of predictors.
fn unmet<const N: usize>(
    numbers: Numbers,
    motor: usize,
    n: usize,
    intra: &[u8; N],
    inter: &[u8; N],
) -> Option<usize>
    ensures { result ≡ unmet_from numbers motor 0 (take n intra.now) (take n inter.now) }
{
    for i in 0..n.min(N) {
        if !is_met(numbers, motor, i, intra[i]) || !is_met(numbers, motor, i, inter[i]) {
            return Some(i);
        }
    }
    None
}

#[tactic(auto, using(crate::proofs::Codes::predictor_is))]
fn is_predictor(code: u8) -> bool
    ensures { result ≡ among predictors code }
{
    code < 12
}

#[tactic(auto, unfolding(crate::specs::Known::among))]
fn is_encoding(code: u8) -> bool
    ensures { result ≡ among encodings code }
{
    matches!(code, 0 | 1 | 3 | 6..=9)
}

// Whether each of n fields has a predictor and an encoding that there is.
fn are_known<const N: usize>(n: usize, predictors: &[u8; N], encodings: &[u8; N]) -> bool
    ensures { result ≡ known (take n predictors.now) (take n encodings.now) }
{
    for i in 0..n.min(N) {
        if !is_predictor(predictors[i]) || !is_encoding(encodings[i]) {
            return false;
        }
    }
    true
}

// Whether the walk can go by n fields of one kind: what checks 3 and 8 ask, and no more fields than rooms.
pub fn are_sound(
    n: usize,
    predictors: &[u8; 62],
    encodings: &[u8; 62],
    motor: usize,
    numbers: Numbers,
) -> bool
    ensures { AreSoundOwes n predictors.now encodings.now motor numbers result }
{
    is_kind_sound(n, predictors, encodings, motor, numbers)
}

// The same of a kind with N rooms.
fn is_kind_sound<const N: usize>(
    n: usize,
    predictors: &[u8; N],
    encodings: &[u8; N],
    motor: usize,
    numbers: Numbers,
) -> bool
    ensures { result ≡ sound_fields N numbers motor n (take n predictors.now) (take n encodings.now) }
{
    n <= N
        && are_known(n, predictors, encodings)
        && unmet(numbers, motor, n, predictors, predictors).is_none()
}

// A header number as a number: 65536 stands for an absent one.
#[tactic(auto, unfolding(crate::specs::Plan::number_code))]
pub fn number_code(number: Option<u16>) -> u32
    ensures { CodeOwes number result }
{
    match number {
        Some(v) => u32::from(v),
        None => 65536,
    }
}

// And back: whatever needs more than 16 bits is absent.
#[tactic(auto, using(crate::proofs::Codes::number_told))]
pub fn number_of(code: u64) -> Option<u16>
    ensures { OfOwes code result }
{
    u16::try_from(code).ok()
}

impl Main {
    // How many fields there are.
    pub fn fields(self) -> usize
        ensures { FieldsOwes self result }
    {
        self.n.saturating_sub(2)
    }

    // The field is numbered from the list's first item, two before the first field.
    #[tactic(auto, unfolding(crate::specs::Sound::unmet_main))]
    pub fn unmet(self, numbers: Numbers) -> Option<usize>
        ensures { UnmetMainOwes self numbers result }
    {
        let field = unmet(
            numbers,
            self.motor,
            self.fields(),
            &self.intra_predictors,
            &self.inter_predictors,
        );
        field.map(|i| i + 2)
    }

    #[tactic(auto, unfolding(crate::specs::Sound::sound_main))]
    fn is_sound(self, numbers: Numbers) -> bool
        ensures { result ≡ sound_main self numbers }
    {
        let n = self.fields();
        n <= 62
            && are_known(n, &self.intra_predictors, &self.intra_encodings)
            && are_known(n, &self.inter_predictors, &self.inter_encodings)
            && self.unmet(numbers).is_none()
    }
}

impl Slow {
    #[tactic(auto, unfolding(crate::specs::Sound::unmet_slow))]
    pub fn unmet(self, numbers: Numbers) -> Option<usize>
        ensures { UnmetSlowOwes self numbers result }
    {
        unmet(numbers, self.n, self.n, &self.predictors, &self.predictors)
    }

    #[tactic(auto, unfolding(crate::specs::Sound::sound_slow))]
    fn is_sound(self, numbers: Numbers) -> bool
        ensures { result ≡ sound_slow self numbers }
    {
        is_kind_sound(self.n, &self.predictors, &self.encodings, self.n, numbers)
    }
}

impl FrameInterval {
    // Whether every loop iteration is logged, and the intra interval is one that can be.
    #[tactic(auto, unfolding(crate::specs::Sound::is_interval))]
    pub fn is_interval(self) -> bool
        ensures { IsIntervalOwes self result }
    {
        1 <= self.intra && self.numerator == 1 && self.denominator == 1
    }
}

impl Settings {
    // Every loop iteration is logged.
    pub fn plain() -> Settings
        ensures { PlainOwes result }
    {
        Settings {
            interval: FrameInterval {
                intra: 1,
                numerator: 1,
                denominator: 1,
            },
        }
    }
}

impl Definition {
    // A definition with no fields: what refused lists give.
    #[tactic(auto, unfolding(crate::specs::Plan::nothing))]
    pub fn nothing() -> Definition
        ensures { NothingOwes result }
    {
        let main = Main {
            n: 0,
            motor: 0,
            intra_predictors: [0u8; 62],
            inter_predictors: [0u8; 62],
            intra_encodings: [0u8; 62],
            inter_encodings: [0u8; 62],
            signs: [0u8; 62],
        };
        let slow = Slow {
            n: 0,
            predictors: [0u8; 16],
            encodings: [0u8; 16],
            signs: [0u8; 16],
        };
        let numbers = Numbers {
            min_throttle: None,
            vbat_reference: None,
            min_motor: None,
        };
        Definition {
            main,
            slow,
            numbers,
            settings: Settings::plain(),
        }
    }

    // Whether the walk can go by it: what checks 3, 8 and 9 ask, and no more fields than rooms.
    #[tactic(auto, unfolding(crate::specs::Sound::sound))]
    pub fn is_sound(self) -> bool
        ensures { IsSoundOwes self result }
    {
        self.main.is_sound(self.numbers)
            && self.slow.is_sound(self.numbers)
            && self.settings.interval.is_interval()
    }
}
