//! What a litmus test's command asks of the order that leads to a final state, and whether its options go together.

ghost use Rattle.std.specs.Prelude.{◌≡◌};
ghost use Rattle.sim_inputs.specs.CommandLine.{are_files_apart, are_runs_alone, can_be_tested};
ghost use Rattle.sim_inputs.specs.TestOrders.{order_asked};

use crate::line::{LitmusCommand, OutcomesCommand};
use crate::outcome_options::can_be_searched;
use crate::several_tests::{is_made_alone, is_told_alone};
use reductions::Without;

impl<'a> LitmusCommand<'a> {
    /// What it asks of the order of a final state, as `outcomes` asks it of the order of an outcome.
    pub fn order_asked(&self) -> OutcomesCommand<'a>
        ensures { result ≡ order_asked self.now }
    {
        OutcomesCommand {
            image: self.test,
            states: self.states,
            watch: None,
            question: None,
            why: false,
            svg: None,
            first: false,
            outcome: self.outcome,
            stuck: false,
            witness: self.witness,
            script: self.script,
            story: self.story,
            story_svg: self.story_svg,
            theme: self.theme,
            all: self.all,
            lines: None,
            without: Without {
                conditional: false,
                jumps: false,
            },
            how: false,
        }
    }
}

/// Whether some state is looked at, one file at most is written, an order is of a state and has its file, beside runs of
/// the core nothing is asked of the states, all that is made of one test, and what stands in place of the states is alone.
pub(crate) fn can_be_tested(litmus: &LitmusCommand<'_>) -> bool
    ensures { result ≡ can_be_tested litmus.now }
{
    can_be_searched(&litmus.order_asked())
        && are_files_apart(litmus)
        && are_runs_alone(litmus)
        && is_made_alone(litmus)
        && is_told_alone(litmus)
}

/// Whether the image, the picture of why and an order aren't written side by side.
fn are_files_apart(litmus: &LitmusCommand<'_>) -> bool
    ensures { result ≡ are_files_apart litmus.now }
{
    if litmus.image.is_some() {
        return litmus.svg.is_none() && litmus.outcome.is_none();
    }
    litmus.svg.is_none() || litmus.outcome.is_none()
}

/// Whether there is one run of the core at least where some are made, and then nothing is asked of the states.
fn are_runs_alone(litmus: &LitmusCommand<'_>) -> bool
    ensures { result ≡ are_runs_alone litmus.now }
{
    match litmus.run {
        Some(times) => {
            times >= 1 && litmus.outcome.is_none() && litmus.svg.is_none() && !litmus.why
        }
        None => true,
    }
}
