//! What ends or stops its hart, which says no more than that.

ghost use Rattle.std.specs.Prelude.{◌≡◌};
ghost use Rattle.smt_model.specs.Effects.{last_effect};
ghost use Rattle.smt_model.specs.Outcomes.{last_outcome};

use events::{Effect, Next, Outcome};

/// The outcome that says only what comes next.
pub fn last_outcome(next: Next) -> Outcome
    ensures { result ≡ last_outcome next }
{
    Outcome {
        value: None,
        next,
        addr: None,
        datum: None,
        out: None,
    }
}

/// The effect that says only what comes next.
pub fn last_effect(next: Next) -> Effect
    ensures { result ≡ last_effect next }
{
    Effect {
        value: None,
        next,
        write: None,
        out: None,
    }
}
