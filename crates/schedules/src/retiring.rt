//! What a core retires by a schedule: the order that the schedule was made of. The function does
//! nothing: it is there for its contract.

ghost use Rattle.schedules.specs.Retiring.{SchedulesAreRetired, OfFunctions};

use crate::replies::replies_to_its_script;
use scripts::laws::scripts_are_unambiguous;
use smt_core::Predict;

/// A core that was asked by the schedule of an order, of its own setup and limit, retires the
/// records that the plain machine leaves on this order, in this order, and is never full: its
/// history has at most six events for each word of the order, twelve where the code may be written,
/// and one for each hart. Each guess of the predictor has to be that of one function.
pub fn schedules_are_retired<P: Predict>()
    ensures retired { OfFunctions P.predicts (SchedulesAreRetired P.predicts) }
{
    replies_to_its_script::<P>();
    scripts_are_unambiguous();
}
