// What an accepted frame does to a walk by value: its answer, the fields for the lent buffer, and the history.
// Beside `settle_in` and not by way of it, since document 01 names the form: built by steps that hand the history back.
ghost use Rattle.std.specs.Prelude.{[], ◌≡◌, length};
ghost use Rattle.section.specs.Answers.{told, handed, Tells};
ghost use Rattle.section.specs.Fits.{Rooms};
ghost use Rattle.section.specs.Walk.{main_answer, answer_with, fields_with, history_with, outcome};

use crate::{Answer, EventAnswer, Looked, MainAnswer, SlowAnswer, Tally, Walk};
use extent::Found;
use frame::MainFrame;
use history::History;
use plan::Definition;
use raws::Raw;

#[tactic(auto, unfolding(crate::specs::Answers::handed))]
pub(crate) fn looked(answer: Answer, tally: Tally, history: History) -> Looked
    ensures { Tells result (outcome answer [] tally history) }
{
    Looked {
        answer,
        trials: tally.trials,
        walk: Walk { tally, history },
    }
}

fn shown(at: usize, frame: MainFrame) -> MainAnswer
    ensures { result ≡ main_answer at frame }
{
    MainAnswer {
        at,
        iteration: frame.iteration,
        time: frame.time,
    }
}

// The frame at a place, and the tally behind it.
pub(crate) fn settle(
    d: Definition,
    frame: Found,
    raw: Raw,
    at: usize,
    tally: Tally,
    history: History,
    out: &mut [u32],
) -> Looked
    requires { Rooms d (length out.old) }
    ensures { told result out.new ≡
        handed (outcome (answer_with d frame at raw history) (fields_with d frame raw history) tally (history_with d frame raw history)) out.old }
{
    match frame {
        Found::Event(event) => { looked(Answer::Event(EventAnswer { at, event }), tally, history) }
        Found::Intra => {
            let last = history.last;
            let main = frame::intra(d, last, raw);
            let values = main.values;
            let n = d.main.fields();
            crate::put(&values[..n], out);
            looked(Answer::Intra(shown(at, main)), tally, history.pushed(main))
        }
        Found::Inter => {
            let last = history.last;
            let older = history.older;
            let main = frame::inter(d, last, older, raw);
            let values = main.values;
            let n = d.main.fields();
            crate::put(&values[..n], out);
            looked(Answer::Inter(shown(at, main)), tally, history.pushed(main))
        }
        Found::Slow => {
            let values = frame::slow(d, raw);
            let n = d.slow.n;
            crate::put(&values[..n], out);
            looked(Answer::Slow(SlowAnswer { at }), tally, history)
        }
    }
}
