//! What is said of a litmus test in a line.

ghost use Rattle.std.specs.Prelude.{◌≡◌, IfErr, IfOk, is_some};
ghost use Rattle.litmus_tests.specs.WellFormed.{IsWellFormed};
ghost use Rattle.shown_text.specs.Shown.{shown};
ghost use Rattle.searches.specs.declared.extent.Extent.TheVariants.{Whole};
ghost use Rattle.litmus_text.specs.Verdict.{verdict_of};
ghost use Rattle.command_parts.specs.declared.refused.Refused.TheVariants.{Memory};
ghost use Rattle.plain_commands.specs.Litmus.{IsTextRefusal};
ghost use Rattle.plain_commands.specs.Suite.{IsSummaryOf, Says, said_of};

use crate::litmus::can_be_stuck;
use crate::searching::find_shown;
use crate::test_parts::test_of;
use actors::Gate;
use command_parts::Refused;
use litmus_images::{harts_of, image_of, watch_of};
use litmus_suites::{TestLine, Verdict};
use litmus_tests::LitmusTest;
use litmus_text::verdict_of;
use outcomes::{Extent, Outcomes};
use reductions::Without;
use shown_text::write_shown;
use std::alloc::Global;

/// The line of the litmus test that a text is, of which so many states are looked at the most. A text that is none is
/// refused.
pub(crate) fn summary_of<G: Gate>(
    text: &[u8],
    states: u32,
    gate: &G,
    alloc: Global,
) -> Result<TestLine, Refused>
    ensures line { IfOk result (IsSummaryOf text.now states) }
    ensures refused { IfErr result (IsTextRefusal text.now) }
{
    let test = test_of(text, alloc)?;
    let name = shown_name(&test, alloc)?;
    let verdict = verdict_in(&test, states, gate, alloc)?;
    Ok(TestLine { name, verdict })
}

/// The name of a test, as texts of an input are shown.
fn shown_name(test: &LitmusTest, alloc: Global) -> Result<Vec<u8>, Refused>
    ensures name { IfOk result (λ name. name.items ≡ shown test.now.name.items) }
    ensures refused { IfErr result (λ reason. reason ≡ Memory) }
{
    let mut name = Vec::new(alloc);
    match write_shown(test.name.as_slice(), &mut name) {
        Ok(()) => Ok(name),
        Err(_) => Err(Refused::Memory),
    }
}

/// What is said of a test. Its states are the outcomes of its image, for as many harts as it has.
fn verdict_in<G: Gate>(
    test: &LitmusTest,
    states: u32,
    gate: &G,
    alloc: Global,
) -> Result<Verdict, Refused>
    requires { IsWellFormed test.now }
    ensures says { IfOk result (Says test.now states) }
    ensures refused { IfErr result (λ reason. reason ≡ Memory) }
{
    let Ok(image) = image_of(test, alloc) else {
        return Err(Refused::Memory);
    };
    let watch = watch_of(test);
    match find_shown(
        &image,
        harts_of(test),
        &watch,
        states,
        Without::none(),
        gate,
        &(),
        alloc,
    ) {
        Ok(outcomes) => match outcomes.extent() {
            Extent::Whole => whole_verdict(test, &outcomes, alloc),
            Extent::Beyond | Extent::First => Ok(Verdict::NotComplete),
        },
        // The harts, registers and words of a test that makes sense are there.
        Err(_) => Err(Refused::Memory),
    }
}

/// What is said of a test whose states are all.
fn whole_verdict(test: &LitmusTest, outcomes: &Outcomes, alloc: Global) -> Result<Verdict, Refused>
    requires sound { IsWellFormed test.now }
    requires whole { outcomes.now.extent ≡ Whole }
    ensures says { IfOk result (λ says. says
        ≡ said_of (verdict_of test.now outcomes.now.listed) (is_some outcomes.now.stuck)) }
    ensures refused { IfErr result (λ reason. reason ≡ Memory) }
{
    let states = verdict_of(test, outcomes);
    let is_stuck = can_be_stuck(outcomes, alloc)?;
    Ok(Verdict::Whole {
        held: states.held,
        others: states.count - states.held,
        is_as_asked: states.is_as_asked,
        is_stuck,
    })
}
