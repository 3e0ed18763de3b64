//! That a script of a history makes it again. The function does nothing: it is there for its
//! contract.

ghost use Rattle.history_scripts.specs.Again.{ScriptsMakeAgain};

use scripts::laws::scripts_are_unambiguous;
use smt_core::Predict;
use smt_laws::shown::asks_have_one_answer;

/// A core that was asked by a script of a legal history, one of its own setup for which it has
/// room, has this history and no other: where each fetch of it predicts what the predictor guesses,
/// and each rename takes the least free register. Each guess has to be that of one function.
pub fn scripts_make_again<P: Predict>()
    ensures again { ScriptsMakeAgain P.predicts }
{
    asks_have_one_answer();
    scripts_are_unambiguous();
}
