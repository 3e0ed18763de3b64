//! What is said of all final states, in numbers.

ghost use Rattle.std.specs.Prelude.{◌≡◌, ◌≤◌};
ghost use Rattle.litmus_tests.specs.WellFormed.{IsWellFormed};
ghost use Rattle.litmus_text.specs.Verdict.{verdict_of};

use crate::states::{held_of, passing_of};
use crate::summary::is_as_asked;
use litmus_tests::LitmusTest;
use outcomes::Outcomes;

/// What is said of all final states of a test, in numbers.
#[derive(Clone, Copy, PartialEq, Eq, Drop)]
pub struct StatesVerdict {
    /// Of how many of them the condition holds.
    pub held: usize,
    /// How many there are.
    pub count: usize,
    /// Whether they are as the test asks.
    pub is_as_asked: bool,
}

/// What is said of the final states of a test, which are the outcomes of its image of which its filter holds.
pub fn verdict_of(test: &LitmusTest, outcomes: &Outcomes) -> StatesVerdict
    requires { IsWellFormed test.now }
    ensures verdict { result ≡ verdict_of test.now outcomes.now.listed }
    ensures few { result.held ≤ result.count }
{
    let held = held_of(test, outcomes);
    let count = passing_of(test, outcomes);
    StatesVerdict {
        held,
        count,
        is_as_asked: is_as_asked(test, held, count),
    }
}
