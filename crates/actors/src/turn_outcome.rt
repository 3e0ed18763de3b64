ghost use Rattle.std.specs.Prelude.{◌≡◌};
ghost use Rattle.actors.specs.Turns.{both, outcome_of};

use core_lock::{Reason, Said};

/// How far the asks of a turn turn.
#[derive(Clone, Copy, Drop)]
pub enum TurnOutcome {
    /// At least one event was added to the history.
    Advanced,
    /// No event was.
    Idle,
    /// There is nothing more to do in this run.
    Over(Reason),
}

impl TurnOutcome {
    /// What one ask comes to, after which so many harts were going. The run is over where none is,
    /// and where the history is full.
    pub fn of(said: &Said, going: u8) -> TurnOutcome
        ensures { result ≡ outcome_of said.now going }
    {
        if going == 0 {
            return TurnOutcome::Over(Reason::Ended);
        }
        match said {
            Said::Event(_) | Said::Job(_, _) => TurnOutcome::Advanced,
            Said::Idle | Said::Stranger => TurnOutcome::Idle,
            Said::Full => TurnOutcome::Over(Reason::Full),
        }
    }

    /// What this and what came after it come to together.
    pub fn then(self, later: TurnOutcome) -> TurnOutcome
        ensures { result ≡ both self later }
    {
        match self {
            TurnOutcome::Idle => later,
            TurnOutcome::Advanced => match later {
                TurnOutcome::Idle => TurnOutcome::Advanced,
                TurnOutcome::Advanced | TurnOutcome::Over(_) => later,
            },
            TurnOutcome::Over(_) => self,
        }
    }
}
