// What a C program links: the functions of crate dulimasca under their names for C, each with its promise.
// No code of its own: an archive is made of one crate, and no other crate can stand on it.
#![tactic(auto)]

ghost use Rattle.dulimasca.specs.Owes.{CountOwes, DefineOwes, FillOwes, NameOwes, RowsOwes, SettingsOwes, StartOwes};

// 0, and in `buf` the settings that the log's own header lines say; or refusal 11.
#[unsafe(no_mangle)]
pub extern "C" fn dulimasca_settings(log: &[u8], buf: &mut [u8]) -> u64
    ensures { SettingsOwes log.now buf.old result buf.new }
{
    dulimasca::log::dulimasca_settings(log, buf)
}

// 0, the definition in `buf`, and in `told`: where the section begins, the items of the main and the slow lists,
// where the main names begin and end, where the slow ones do, and the length of a row. Or a refusal, 1 to 11.
#[unsafe(no_mangle)]
pub extern "C" fn dulimasca_define(
    log: &[u8],
    chosen: &[u8],
    buf: &mut [u8],
    told: &mut [u8],
) -> u64
    ensures { DefineOwes log.now chosen.now buf.old told.old result buf.new told.new }
{
    dulimasca::log::dulimasca_define(log, chosen, buf, told)
}

// 0, and where the name of field `k` begins and ends in the list of its kind (0 main, 1 slow), both lists being lent; 4 if there is none; or refusal 10 or 11.
#[unsafe(no_mangle)]
pub extern "C" fn dulimasca_name(
    def: &[u8],
    kind: u32,
    main: &[u8],
    slow: &[u8],
    k: usize,
    told: &mut [u8],
) -> u64
    ensures { NameOwes def.now kind main.now slow.now k told.old result told.new }
{
    dulimasca::log::dulimasca_name(def, kind, main, slow, k, told)
}

// 0, and the state of a walk that has not begun; or refusal 11.
#[unsafe(no_mangle)]
pub extern "C" fn dulimasca_start(state: &mut [u8], told: &mut [u8]) -> u64
    ensures { StartOwes state.old told.old result state.new told.new }
{
    dulimasca::walking::dulimasca_start(state, told)
}

// How a whole walk ends, 1 to 3, or refusal 10 or 11. `told`: place; main, event and slow frames; rejected trials; trials.
#[unsafe(no_mangle)]
pub extern "C" fn dulimasca_count(def: &[u8], s: &[u8], told: &mut [u8]) -> u64
    ensures { CountOwes def.now s.now told.old result told.new }
{
    dulimasca::walking::dulimasca_count(def, s, told)
}

// The `k`-th accepted frame of a kind (0 main, 1 slow), from 0: its letter's byte, its values in `out`, four bytes each, and in `told` its place, iteration
// and time; or how the walk ended before it, 1 to 3, and of a cut the letter and the place; fourth the trials. Or refusal 10, or 11 with the needed bytes.
#[unsafe(no_mangle)]
pub extern "C" fn dulimasca_fill(
    def: &[u8],
    s: &[u8],
    kind: u32,
    k: usize,
    out: &mut [u8],
    told: &mut [u8],
) -> u64
    ensures { FillOwes def.now s.now kind k out.old told.old result out.new told.new }
{
    dulimasca::walking::dulimasca_fill(def, s, kind, k, out, told)
}

// The next rows of a walk: as many whole ones as `out` has room for, and the walk behind them in `state`. 0: there may be more; 1 to 3: how the walk ended;
// or refusal 10, or 11 with the length of a row. `told`: what `dulimasca_count` tells, of the walk so far, and how many rows there are.
#[unsafe(no_mangle)]
pub extern "C" fn dulimasca_rows(
    def: &[u8],
    state: &mut [u8],
    s: &[u8],
    out: &mut [u8],
    told: &mut [u8],
) -> u64
    ensures { RowsOwes def.now state.old s.now out.old
        told.old result state.new out.new told.new }
{
    dulimasca::walking::dulimasca_rows(def, state, s, out, told)
}
