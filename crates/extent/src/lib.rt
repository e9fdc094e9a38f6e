// What stands at a place of a section: a trial and what becomes of it, or a search.
// Extents alone: no predictor, no header number and no history has a part in them.
#![tactic(auto)]

ghost use Rattle.std.specs.Prelude.{◌≡◌};
ghost use Rattle.plan.specs.Plan.{shape};
ghost use Rattle.reader.specs.Place.{rest, place_of};
ghost use Rattle.reader.specs.Got.{over};
ghost use Rattle.reader.specs.Search.{ahead};
ghost use Rattle.reader.specs.declared.Kind.TheVariants.{Event};
ghost use Rattle.event.specs.Events.{event_read};
ghost use Rattle.extent.specs.declared.Seen.TheVariants.{Rejected};
ghost use Rattle.extent.specs.Extent.{closed, bare, told, judged, trial};
ghost use Rattle.extent.specs.Owes.{SightOwes, WithOwes};
ghost use Rattle.extent.specs.Sight.{Barren, beside, GoesOn, Judges};

use plan::Definition;
use raws::{Front, Raw};
use reader::{Cursor, Fault, Kind, RestorePoint};

// An accepted frame. The raw numbers of a main or slow frame stand beside it, in lent rooms.
#[derive(Clone, Copy)]
pub enum Found {
    Event(event::Event),
    Intra,
    Inter,
    Slow,
}

// What stands at a place: nothing; a byte that starts no frame, and what a search finds; a trial that is rejected, and what a search finds;
// a trial that the data ends in; an accepted frame, over its kind byte and so many bytes more.
#[derive(Clone, Copy)]
pub enum Seen {
    Nothing,
    Passed(Option<usize>),
    Rejected(Kind, Option<usize>),
    Cutoff(Kind),
    Accepted(Found, usize),
}

// The raw numbers are 0 where no main or slow frame is accepted.
#[derive(Clone, Copy)]
pub struct Look {
    pub seen: Seen,
    pub raw: Raw,
}

// A look but for the raw numbers of the fields, which stand beside it in lent rooms.
#[derive(Clone, Copy)]
pub struct Glance {
    pub seen: Seen,
    pub iteration: u32,
    pub time: u32,
}

impl Glance {
    // With the numbers: the whole look.
    pub fn with(self, fields: [u32; 62]) -> Look
        ensures { WithOwes self fields result }
    {
        let seen = self.seen;
        let raw = Raw {
            iteration: self.iteration,
            time: self.time,
            fields,
        };
        Look { seen, raw }
    }
}

// Whether a frame may end here: before the end of data or one of the six bytes.
fn is_closed(s: &[u8], at: Cursor) -> bool
    ensures { result ≡ closed (rest at s.now) }
{
    match reader::read_u8(s, at) {
        Some((b, _)) => Kind::from_byte(b).is_some(),
        None => true,
    }
}

// A search from a point on, which is not made where it is known to find nothing: no section is searched over and over.
fn search(s: &[u8], from: RestorePoint, barren: bool) -> Option<usize>
    requires { Barren barren s.now (place_of from).at }
    ensures { result ≡ ahead (rest (place_of from) s.now) }
{
    if barren {
        return None;
    }
    reader::skip_to_frame(s, from)
}

// No numbers: the rooms are emptied.
fn without_numbers(seen: Seen, out: &mut [u32; 62]) -> Glance
    ensures { beside result out.new ≡ bare seen }
{
    raws::clear(out);
    Glance {
        seen,
        iteration: 0,
        time: 0,
    }
}

// The search starts behind the kind byte, wherever decoding stopped.
fn rejected(kind: Kind, s: &[u8], from: RestorePoint, barren: bool, out: &mut [u32; 62]) -> Glance
    requires { Barren barren s.now (place_of from).at }
    ensures { beside result out.new ≡ bare (Rejected kind (ahead (rest (place_of from) s.now))) }
{
    let skip = search(s, from, barren);
    without_numbers(Seen::Rejected(kind, skip), out)
}

// What becomes of a trial of a main or slow frame, by the reading behind its kind byte, of which the rooms hold the numbers.
fn judge(
    reading: Result<Front, Fault>,
    kind: Kind,
    frame: Found,
    s: &[u8],
    from: Cursor,
    barren: bool,
    out: &mut [u32; 62],
) -> Glance
    requires { GoesOn from reading × Barren barren s.now from.at }
    ensures { Judges reading kind frame s.now from out.old result out.new }
{
    let start = from.get_restore_point();
    match reading {
        Ok(front) => {
            if is_closed(s, front.behind) {
                let more = front.behind.at - from.at;
                return Glance {
                    seen: Seen::Accepted(frame, more),
                    iteration: front.iteration,
                    time: front.time,
                };
            }
            rejected(kind, s, start, barren, out)
        }
        Err(fault) => match fault {
            Fault::Cut => without_numbers(Seen::Cutoff(kind), out),
            Fault::Corrupt => rejected(kind, s, start, barren, out),
        },
    }
}

// Beside `judge`, though much like it: the edit search_behind_the_event says a wrong thing of the search behind an event alone.
fn try_event(s: &[u8], from: Cursor, barren: bool, out: &mut [u32; 62]) -> Glance
    requires { Barren barren s.now from.at }
    ensures { beside result out.new ≡ judged Event (rest from s.now) (over told (event_read (rest from s.now))) }
{
    let start = from.get_restore_point();
    match event::read(s, from) {
        Ok((event, behind)) => {
            if is_closed(s, behind) {
                let more = behind.at - from.at;
                return without_numbers(Seen::Accepted(Found::Event(event), more), out);
            }
            rejected(Kind::Event, s, start, barren, out)
        }
        Err(Fault::Cut) => without_numbers(Seen::Cutoff(Kind::Event), out),
        Err(Fault::Corrupt) => rejected(Kind::Event, s, start, barren, out),
    }
}

// A trial from behind its kind byte. G and H are corrupt at once.
fn try_kind(
    d: Definition,
    kind: Kind,
    s: &[u8],
    from: Cursor,
    barren: bool,
    out: &mut [u32; 62],
) -> Glance
    requires { Barren barren s.now from.at }
    ensures { beside result out.new ≡ judged kind (rest from s.now) (trial (shape d) kind (rest from s.now)) }
{
    match kind {
        Kind::Event => try_event(s, from, barren, out),
        Kind::Intra => {
            let encodings = d.main.intra_encodings;
            let reading = raws::intra_into(d.main.fields(), &encodings, s, from, out);
            judge(reading, kind, Found::Intra, s, from, barren, out)
        }
        Kind::Inter => {
            let encodings = d.main.inter_encodings;
            let reading = raws::inter_into(d.main.fields(), &encodings, s, from, out);
            judge(reading, kind, Found::Inter, s, from, barren, out)
        }
        Kind::Gps | Kind::Home => rejected(kind, s, from.get_restore_point(), barren, out),
        Kind::Slow => {
            let encodings = d.slow.encodings;
            let reading = raws::slow_into(d.slow.n, &encodings, s, from, out);
            judge(reading, kind, Found::Slow, s, from, barren, out)
        }
    }
}

// What stands at a place. The flag, where it is set, says that a search from there finds nothing: then none is made.
pub fn sight_into(
    d: Definition,
    s: &[u8],
    place: usize,
    barren: bool,
    out: &mut [u32; 62],
) -> Glance
    requires { Barren barren s.now place }
    ensures { SightOwes d s.now place (beside result out.new) }
{
    match reader::read_u8(s, Cursor { at: place }) {
        Some((b, behind)) => match Kind::from_byte(b) {
            Some(kind) => try_kind(d, kind, s, behind, barren, out),
            None => {
                let found = search(s, behind.get_restore_point(), barren);
                without_numbers(Seen::Passed(found), out)
            }
        },
        None => without_numbers(Seen::Nothing, out),
    }
}

// The same with the numbers in the answer, and no search saved.
pub fn sight(d: Definition, s: &[u8], place: usize) -> Look
    ensures { SightOwes d s.now place result }
{
    let mut fields = [0u32; 62];
    let glance = sight_into(d, s, place, false, &mut fields);
    glance.with(fields)
}
