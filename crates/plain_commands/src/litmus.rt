//! The command `litmus`: every final state of a litmus test.

ghost use Rattle.std.specs.Prelude.{◌≡◌, ◌⊎◌, ◌++◌, IfOk, IfErr, OnOk, None, is_some, true, false};
ghost use Rattle.std.specs.Io.KnownBytes.{Appends};
ghost use Rattle.litmus_tests.specs.WellFormed.{IsWellFormed};
ghost use Rattle.litmus_text.specs.States.{states_text};
ghost use Rattle.outcome_text.specs.Listing.{ends_text};
ghost use Rattle.searches.specs.declared.extent.Extent.TheVariants.{Whole};
ghost use Rattle.sim_inputs.specs.Files.{written_for_test};
ghost use Rattle.command_parts.specs.declared.refused.Refused.TheVariants.{Memory, Output};
ghost use Rattle.event_text.specs.Sinking.{HasPut};
ghost use Rattle.plain_commands.specs.Litmus.{IsLitmusRefusal, LitmusComesTo, IsStatesRefusal, IsTestRefusal, TestComesTo};
ghost use Rattle.plain_commands.specs.{Litmus.IsStateTold, Litmus.IsWrittenRefusal, StateOrders.state_asked};
ghost use Rattle.plain_commands.specs.Litmus.{IsTold};

use crate::searching::find_shown;
use crate::state_orders::put_state_order;
use crate::test_parts::{put_image, settings_for, test_of};
use crate::why::told_why;
use actors::Gate;
use command_parts::Refused;
use elf_image::Image;
use litmus_images::{harts_of, image_of, watch_of};
use litmus_tests::LitmusTest;
use litmus_text::{holds_of_any, write_states};
use outcome_text::{ends_text, write_incomplete};
use outcomes::{Extent, Outcomes};
use reductions::Without;
use sim_inputs::{LitmusCommand, Settings};
use std::alloc::{AllocError, Global};
use std::io::Write;
use stress_runs::EndFiles;

/// Reads a litmus test, and does what `perform_test` does with it, of these settings with the test's harts. A text that
/// is none is refused first.
#[inline(never)]
pub fn perform_litmus<G: Gate, S: EndFiles, W: Write>(
    text: &[u8],
    command: &LitmusCommand<'_>,
    settings: Settings,
    gate: &G,
    file: &mut S,
    out: &mut W,
    alloc: Global,
) -> Result<u8, Refused>
    requires works { S.has_failed file.old ≡ false }
    requires finished { S.is_finished file.old ≡ true }
    ensures refused { IfErr result (IsLitmusRefusal text.now settings command.now) }
    ensures unprinted { IfErr result (λ reason. (reason ≡ Output) ⊎ (W.contents out.new ≡ W.contents out.old)) }
    ensures ended { IfOk result (LitmusComesTo text.now settings command.now
        (HasPut S.written S.has_failed file.old file.new) (W.contents out.old) (W.contents out.new)) }
    ensures unwanted { is_some (written_for_test command.now) ≡ false → file.new ≡ file.old }
    ensures unbroken { OnOk result (S.has_failed file.new ≡ false) }
    ensures finished { OnOk result (S.is_finished file.new ≡ true) }
    ensures unreported { S.has_failed file.new ≡ true
        → W.contents out.new ≡ W.contents out.old }
{
    let test = match test_of(text, alloc) {
        Ok(test) => test,
        Err(refused) => return Err(refused),
    };
    let settings = settings_for(settings, &test);
    match perform_test(&test, command, &settings, gate, file, out, alloc) {
        Ok(status) => Ok(status),
        Err(refused) => Err(refused),
    }
}

/// Writes every final state of a litmus test, whether they are as it asks, whether its harts may wait for ever, and,
/// where that is wanted, why its condition holds of none, or how it comes to hold of one. The states are the outcomes
/// of the test's image, for as many harts as it has. The image goes into `file` before the states are looked for,
/// where it is wanted; a picture of why or how, and what is wanted of the order of a state, before anything is
/// printed.
///
/// Answers the exit status: 0, or 3 where there are more states than were to be looked at; then only that is said, and
/// no order is written. `NothingToDraw` is answered where a picture is wanted and no execution was found that has a
/// cycle, or the condition of a `forall` holds of each state, `LongStory` where the picture would have too many rows,
/// and `NoOutcome`, or what `perform_schedule` refuses, of an order; then nothing is printed. `Output` is answered
/// where `out` or `file` failed.
#[inline(never)]
pub fn perform_test<G: Gate, S: EndFiles, W: Write>(
    test: &LitmusTest,
    command: &LitmusCommand<'_>,
    settings: &Settings,
    gate: &G,
    file: &mut S,
    out: &mut W,
    alloc: Global,
) -> Result<u8, Refused>
    requires sound { IsWellFormed test.now }
    requires works { S.has_failed file.old ≡ false }
    requires finished { S.is_finished file.old ≡ true }
    ensures refused { IfErr result (IsTestRefusal test.now settings.now command.now) }
    ensures unprinted { IfErr result (λ reason. (reason ≡ Output) ⊎ (W.contents out.new ≡ W.contents out.old)) }
    ensures ended { IfOk result (TestComesTo test.now settings.now command.now
        (HasPut S.written S.has_failed file.old file.new) (W.contents out.old) (W.contents out.new)) }
    ensures unwanted { is_some (written_for_test command.now) ≡ false → file.new ≡ file.old }
    ensures unbroken { OnOk result (S.has_failed file.new ≡ false) }
    ensures finished { OnOk result (S.is_finished file.new ≡ true) }
    ensures unreported { S.has_failed file.new ≡ true
        → W.contents out.new ≡ W.contents out.old }
{
    let Ok(image) = image_of(test, alloc) else {
        return Err(Refused::Memory);
    };
    match put_image(test, &image, command, file, alloc) {
        Ok(()) => {}
        Err(refused) => return Err(refused),
    }
    let watch = watch_of(test);
    match find_shown(
        &image,
        harts_of(test),
        &watch,
        command.states,
        Without::none(),
        gate,
        &(),
        alloc,
    ) {
        Ok(outcomes) => match outcomes.extent() {
            Extent::Whole => write_and_print(
                test, &image, settings, &outcomes, command, gate, file, out, alloc,
            ),
            Extent::Beyond | Extent::First => match write_incomplete(command.states, out) {
                Ok(()) => Ok(3),
                Err(_) => Err(Refused::Output),
            },
        },
        // The harts, registers and words of a test that makes sense are there.
        Err(_) => Err(Refused::Memory),
    }
}

/// Writes the order of a state, where that is wanted, and does what `draw_and_print` does.
fn write_and_print<G: Gate, S: EndFiles, W: Write>(
    test: &LitmusTest,
    image: &Image,
    settings: &Settings,
    outcomes: &Outcomes,
    command: &LitmusCommand<'_>,
    gate: &G,
    file: &mut S,
    out: &mut W,
    alloc: Global,
) -> Result<u8, Refused>
    requires sound { IsWellFormed test.now }
    requires whole { outcomes.now.extent ≡ Whole }
    requires works { S.has_failed file.old ≡ false }
    requires finished { S.is_finished file.old ≡ true }
    ensures printed { OnOk result (IsTold settings.now image.now test.now command.now outcomes.now
        (W.contents out.old) (W.contents out.new)) }
    ensures written { OnOk result (IsStateTold settings.now image.now test.now command.now
        (HasPut S.written S.has_failed file.old file.new) outcomes.now.listed) }
    ensures zero { IfOk result (λ status. status ≡ 0) }
    ensures refused { IfErr result
        (IsWrittenRefusal settings.now image.now test.now command.now outcomes.now.listed) }
    ensures unprinted { IfErr result (λ reason. (reason ≡ Output) ⊎ (W.contents out.new ≡ W.contents out.old)) }
    ensures unwanted { is_some command.now.svg ≡ false → state_asked command.now ≡ None → file.new ≡ file.old }
    ensures unbroken { OnOk result (S.has_failed file.new ≡ false) }
    ensures finished { OnOk result (S.is_finished file.new ≡ true) }
    ensures unreported { S.has_failed file.new ≡ true
        → W.contents out.new ≡ W.contents out.old }
{
    match put_state_order(test, image, settings, outcomes, command, file, alloc) {
        Ok(()) => {}
        Err(refused) => return Err(refused),
    }
    match draw_and_print(
        test, image, settings, outcomes, command, gate, file, out, alloc,
    ) {
        Ok(status) => Ok(status),
        Err(refused) => Err(refused),
    }
}

/// Draws why the condition holds of no state, or how it holds of one, where that is wanted, and prints what was found.
fn draw_and_print<G: Gate, S: EndFiles, W: Write>(
    test: &LitmusTest,
    image: &Image,
    settings: &Settings,
    outcomes: &Outcomes,
    command: &LitmusCommand<'_>,
    gate: &G,
    file: &mut S,
    out: &mut W,
    alloc: Global,
) -> Result<u8, Refused>
    requires sound { IsWellFormed test.now }
    requires whole { outcomes.now.extent ≡ Whole }
    requires works { S.has_failed file.old ≡ false }
    requires finished { S.is_finished file.old ≡ true }
    ensures printed { OnOk result (IsTold settings.now image.now test.now command.now outcomes.now
        (W.contents out.old) (W.contents out.new)) }
    ensures zero { IfOk result (λ status. status ≡ 0) }
    ensures refused { IfErr result (IsStatesRefusal command.now) }
    ensures unprinted { IfErr result (λ reason. (reason ≡ Output) ⊎ (W.contents out.new ≡ W.contents out.old)) }
    ensures unwanted { is_some command.now.svg ≡ false → file.new ≡ file.old }
    ensures unbroken { OnOk result (S.has_failed file.new ≡ false) }
    ensures finished { OnOk result (S.is_finished file.new ≡ true) }
    ensures unreported { S.has_failed file.new ≡ true
        → W.contents out.new ≡ W.contents out.old }
{
    let can_come = holds_of_any(test, outcomes);
    let is_stuck = can_be_stuck(outcomes, alloc)?;
    let why = told_why(
        test, image, settings, outcomes, can_come, command, gate, file, alloc,
    )?;
    print(test, outcomes, is_stuck, why.as_slice(), out)
}

/// Whether there is a state from which no order leads on to an end.
pub(crate) fn can_be_stuck(outcomes: &Outcomes, alloc: Global) -> Result<bool, Refused>
    requires { outcomes.now.extent ≡ Whole }
    ensures stuck { IfOk result (λ is_stuck. is_stuck ≡ is_some outcomes.now.stuck) }
    ensures refused { IfErr result (λ reason. reason ≡ Memory) }
{
    match outcomes.stuck(alloc) {
        Ok(order) => Ok(order.is_some()),
        Err(AllocError) => Err(Refused::Memory),
    }
}

/// Prints the states, behind them whether one is stuck, and behind that why.
fn print<W: Write>(
    test: &LitmusTest,
    outcomes: &Outcomes,
    is_stuck: bool,
    why: &[u8],
    out: &mut W,
) -> Result<u8, Refused>
    requires { IsWellFormed test.now }
    ensures printed { OnOk result (Appends (W.contents out.old) (W.contents out.new)
        (states_text test.now outcomes.now.listed ++ (ends_text is_stuck ++ why.now))) }
    ensures zero { IfOk result (λ status. status ≡ 0) }
    ensures refused { IfErr result (λ reason. reason ≡ Output) }
{
    let Ok(()) = write_states(test, outcomes, out) else {
        return Err(Refused::Output);
    };
    let Ok(()) = out.write_all(ends_text(is_stuck).as_bytes()) else {
        return Err(Refused::Output);
    };
    match out.write_all(why) {
        Ok(()) => Ok(0),
        Err(_) => Err(Refused::Output),
    }
}
