//! What a core retires by a schedule that was printed: the order that it was made of. The functions
//! do nothing: each is there for its contract.

ghost use Rattle.actors.specs.declared.static_predictor.StaticPredictor.{StaticPredictor as Static};
ghost use Rattle.schedules.specs.Retiring.{SchedulesAreRetired, OfFunctions};
ghost use Rattle.plain_commands.specs.Retiring.{PrintedSchedulesAreRetired, guesses_statically};

use actors::StaticPredictor;
use schedules::retiring::schedules_are_retired;
use smt_core::Predict;

/// A core of an image and some settings that was asked by what `perform_schedule` prints of the
/// same retires the order: what `step_bytes` says of the core that it finishes is all that this
/// needs. Each guess of the predictor has to be that of one function.
pub fn printed_schedules_are_retired<P: Predict>()
    ensures printed { OfFunctions P.predicts (PrintedSchedulesAreRetired P.predicts) }
{
    schedules_are_retired::<P>();
}

/// So it is with the program's own predictor, whose guesses are a function of the pc and the word.
pub fn schedules_are_retired_statically()
    ensures retired { SchedulesAreRetired {P = Static} guesses_statically }
    ensures printed { PrintedSchedulesAreRetired {P = Static} guesses_statically }
{
    schedules_are_retired::<StaticPredictor>();
    printed_schedules_are_retired::<StaticPredictor>();
}
