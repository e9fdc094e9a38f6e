// A log's settings and its definition, from its `H` lines into bytes that C keeps; and where the names of its fields stand.
ghost use Rattle.std.specs.Prelude.{◌≡◌};
ghost use Rattle.reader.specs.Place.{padded};
ghost use Rattle.dulimasca.specs.Define.{about_log, lent_for};
ghost use Rattle.dulimasca.specs.Owes.{SettingsOwes, DefineOwes, NameOwes};
ghost use Rattle.dulimasca.specs.Told.{answered};

use crate::telling::{TOLD, answer, definition, refuse, room, sort_for, tell};
use header::Header;
use items::Stretch;
use plan::{Definition, Settings};
use section::Refusal;
use settings::stored::SETTINGS;
use store::DEFINITION;

// The status of a name that is not there.
const NO_NAME: u64 = 4;

fn say_settings(log: &[u8], buf: &mut [u8]) -> Result<u64, Refusal>
    ensures { SettingsOwes log.now buf.old (answered result) buf.new }
{
    room(buf, SETTINGS)?;
    let said = settings::read(log);
    let interval = said.interval;
    settings::stored::put(buf, said.numbers, Settings { interval });
    Ok(0)
}

// 0, and in `buf` the settings that the log's own header lines say; or refusal 11.
pub fn dulimasca_settings(log: &[u8], buf: &mut [u8]) -> u64
    ensures { SettingsOwes log.now buf.old result buf.new }
{
    answer(say_settings(log, buf))
}

// An absent list of names is told as an empty one.
#[tactic(auto, unfolding(crate::specs::Define::about_log))]
fn about_log(head: Header, d: Definition) -> [u64; 8]
    ensures { result ≡ padded 8 (about_log head d) }
{
    let nowhere = Stretch { start: 0, end: 0 };
    let main = head.lists.main.names.unwrap_or(nowhere);
    let slow = head.lists.slow.names.unwrap_or(nowhere);
    [
        head.section as u64,
        d.main.n as u64,
        d.slow.n as u64,
        main.start as u64,
        main.end as u64,
        slow.start as u64,
        slow.end as u64,
        rows::row_length(d) as u64,
    ]
}

// What `dulimasca_define` is lent: settings, and room for a definition and for the numbers; or refusal 10 or 11.
#[tactic(auto, unfolding(crate::specs::Define::lent_for, crate::specs::Told::roomy))]
fn lent_for(chosen: &[u8], buf: &[u8], told: &[u8]) -> Result<(), Refusal>
    ensures { result ≡ lent_for chosen.now buf.now told.now }
{
    if !settings::stored::are_settings(chosen) {
        return Err(Refusal::Unsound);
    }
    room(buf, DEFINITION)?;
    room(told, TOLD)
}

// 0, the definition in `buf`, and in `told`: where the section begins, the items of the main and the slow lists,
// where the main names begin and end, where the slow ones do, and the length of a row. Or a refusal, 1 to 11.
pub fn dulimasca_define(log: &[u8], chosen: &[u8], buf: &mut [u8], told: &mut [u8]) -> u64
    ensures { DefineOwes log.now chosen.now buf.old told.old result buf.new told.new }
{
    if let Err(why) = lent_for(chosen, buf, told) {
        return answer(Err(why));
    }
    let head = header::read(log);
    let numbers = settings::stored::numbers_in(chosen);
    let rest = settings::stored::settings_in(chosen);
    let defined = definition::define(log, head.lists, numbers, rest);
    match defined.verdict {
        Ok(()) => {
            let d = defined.definition;
            store::def::put(buf, d);
            tell(about_log(head, d), told);
            0
        }
        Err(why) => {
            let paper = why.paper();
            refuse(u64::from(paper.number), paper.place, paper.round)
        }
    }
}

fn find_name(
    def: &[u8],
    kind: u32,
    main: &[u8],
    slow: &[u8],
    k: usize,
    told: &mut [u8],
) -> Result<u64, Refusal>
    ensures { NameOwes def.now kind main.now slow.now k told.old (answered result) told.new }
{
    let d = definition(def)?;
    let of = sort_for(kind)?;
    room(told, TOLD)?;
    match names::name_at(d, of, main, slow, k) {
        Some(name) => {
            tell([name.start as u64, name.end as u64, 0, 0, 0, 0, 0, 0], told);
            Ok(0)
        }
        None => {
            tell([0, 0, 0, 0, 0, 0, 0, 0], told);
            Ok(NO_NAME)
        }
    }
}

// 0, and where the name of field `k` begins and ends in the list of its kind (0 main, 1 slow), both lists being lent; 4 if there is none; or refusal 10 or 11.
pub fn dulimasca_name(
    def: &[u8],
    kind: u32,
    main: &[u8],
    slow: &[u8],
    k: usize,
    told: &mut [u8],
) -> u64
    ensures { NameOwes def.now kind main.now slow.now k told.old result told.new }
{
    answer(find_name(def, kind, main, slow, k, told))
}
