//! What the asks of a script come to: the history that is left of them is the one that the rules
//! leave of these asks. The functions do nothing: each is there for its contract.

ghost use Rattle.schedules.specs.Replies.{RepliesToItsScript, FillsNoMoreThanItsScript};

use smt_core::Predict;
use smt_laws::shown::asks_have_one_answer;

/// A core that was asked by a script that issues by its units alone has the history that it replies
/// to these asks, one after another, where that leaves room; whatever was printed, and whatever its
/// actors held in between. Each guess of the predictor has to be that of one function.
///
/// So it is with a history that the asks have and that the limit has room for: then it is
/// this one. So who knows that history needs to know nothing of the room.
pub fn replies_to_its_script<P: Predict>()
    ensures replies { RepliesToItsScript P.predicts }
    ensures fills { FillsNoMoreThanItsScript P.predicts }
{
    asks_have_one_answer();
}
