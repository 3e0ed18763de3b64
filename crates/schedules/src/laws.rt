//! A law of the asks that the words of a script make. The function does nothing: it is there for
//! its contract.

ghost use Rattle.schedules.specs.Asks.{CompletesNothing};

/// To complete without a job is to leave the history as it was. So an actor that issues, and
/// completes only where a job came, makes the history of both asks.
pub fn completes_nothing_without_a_job()
    ensures same { CompletesNothing }
{}
