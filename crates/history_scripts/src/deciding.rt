//! What the rules leave open of one event, and whether it is decided as a predictor and the core
//! decide.

ghost use Rattle.std.specs.Prelude.{◌≡◌, ℕ, List, true, false};
ghost use Rattle.events.specs.declared.event.Event.{Event as AnyEvent};
ghost use Rattle.events.specs.declared.event.Event.TheVariants.{Fetch};
ghost use Rattle.smt_model.specs.Setup.{Setup};
ghost use Rattle.smt_laws.specs.Shown.{IsLeastFree};
ghost use Rattle.smt_core.specs.Answers.{IsGuess};
ghost use Rattle.history_scripts.specs.Deciding.{IsJudged};

use events::{Event, Phys};
use smt_core::{Core, Predict};

/// How an event is decided.
#[derive(Clone, Copy, PartialEq, Eq, Drop)]
pub enum Decided {
    /// As the predictor and the core decide.
    Alike,
    /// It is a fetch that predicts something else than the predictor.
    Predicted,
    /// It is a rename that takes a register that isn't the least free one.
    Taken,
}

/// How an event is decided that may come next in a core's history.
pub fn judge<P: Predict>(core: &Core, event: &Event, predict: &mut P) -> Decided
    ensures { IsJudged P.predicts core.now.setup core.now.past event.now result }
{
    match *event {
        Event::Fetch {
            hart,
            pc,
            word,
            predicted,
            ..
        } => judge_fetch(hart, pc, word, predicted, predict),
        Event::Rename {
            phys: Some(register),
            ..
        } => {
            if is_least_free(core, register) {
                Decided::Alike
            } else {
                Decided::Taken
            }
        }
        _ => Decided::Alike,
    }
}

/// How a fetch is decided, whoever makes it.
fn judge_fetch<P: Predict>(
    hart: u8,
    pc: u32,
    word: Option<u32>,
    predicted: u32,
    predict: &mut P,
) -> Decided
    ensures { (setup : Setup) (past : List AnyEvent) (actor seq : ℕ)
        → IsJudged P.predicts setup past (Fetch actor hart seq pc word predicted) result }
{
    if guess(hart, pc, word, predict) == predicted {
        Decided::Alike
    } else {
        Decided::Predicted
    }
}

/// Where a predictor guesses that a hart goes on; behind the pc where there is no word.
fn guess<P: Predict>(hart: u8, pc: u32, word: Option<u32>, predict: &mut P) -> u32
    ensures { IsGuess P.predicts predict.old hart pc word result predict.new }
{
    match word {
        Some(word) => predict.predict(hart, pc, word),
        None => pc.wrapping_add(4),
    }
}

/// Whether a register is the free one of the least number.
fn is_least_free(core: &Core, register: Phys) -> bool
    ensures yes { result ≡ true → IsLeastFree core.now.setup core.now.past register }
    ensures no { result ≡ false → IsLeastFree core.now.setup core.now.past register → ⊥ }
{
    let (parts, _count) = core.parts();
    match parts.free.least() {
        Some(least) => least == register,
        None => false,
    }
}
