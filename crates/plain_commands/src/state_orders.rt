//! The order of harts that leads to a final state of a litmus test, which the command `litmus` writes as `outcomes`
//! writes that of an outcome. Its story has the test's names, and the state's line behind it.

ghost use Rattle.std.specs.Prelude.{◌≡◌, ◌⊎◌, ◌<◌, ◌≤◌, ◌-◌, IfOk, IfErr, IfSome, IfNone, OnOk, Some, None, true, false};
ghost use Rattle.std.specs.Prelude.{length, option_map, slice_get};
ghost use Rattle.event_text.specs.Sinking.{HasPut};
ghost use Rattle.litmus_tests.specs.WellFormed.{IsWellFormed};
ghost use Rattle.litmus_text.specs.{State.told_line, States.passes, States.told_in};
ghost use Rattle.outcomes.specs.{Found.Told};
ghost use Rattle.sim_inputs.specs.TestOrders.{order_asked};
ghost use Rattle.command_parts.specs.declared.refused.Refused.TheVariants.{Memory};
ghost use Rattle.plain_commands.specs.StateOrders.{HasWrittenState, IsStateRefusal, IsStateWritten, state_asked};
ghost use Rattle.plain_commands.specs.StateOrders.{state_plan};
ghost use Rattle.plain_commands.specs.WrittenOrders.{HasPutOrder, IsTextRefusal};
ghost use Rattle.story_text.specs.Text.{plan_of};
ghost use Rattle.symbols.specs.Tables.{table_of};

use crate::written_orders::put_order;
use address_labels::Labels;
use command_parts::{Refused, names_in};
use elf_image::Image;
use litmus_files::file_of;
use litmus_images::passes;
use litmus_tests::LitmusTest;
use litmus_text::write_state;
use outcomes::Outcomes;
use sim_inputs::{LitmusCommand, Settings};
use std::alloc::{AllocError, Global};
use story_text::StoryForm;
use stress_runs::EndFiles;
use symbols::Symbols;

/// Puts the order of the final state into the file that a command names by its line, where it names one: as it is, as
/// its script, as its story or as a picture of that. `outcomes` are those of the test's image, and all of them.
/// `NoOutcome` is answered where there are fewer states, and what `perform_schedule` and a picture refuse.
pub(crate) fn put_state_order<S: EndFiles>(
    test: &LitmusTest,
    image: &Image,
    settings: &Settings,
    outcomes: &Outcomes,
    command: &LitmusCommand<'_>,
    file: &mut S,
    alloc: Global,
) -> Result<(), Refused>
    requires sound { IsWellFormed test.now }
    requires works { S.has_failed file.old ≡ false }
    requires finished { S.is_finished file.old ≡ true }
    ensures refused { IfErr result
        (IsStateRefusal settings.now image.now test.now command.now outcomes.now.listed) }
    ensures written { OnOk result (HasWrittenState settings.now image.now test.now command.now
        (HasPut S.written S.has_failed file.old file.new) (state_asked command.now) outcomes.now.listed) }
    ensures unwanted { state_asked command.now ≡ None → file.new ≡ file.old }
    ensures unbroken { OnOk result (S.has_failed file.new ≡ false) }
    ensures finished { OnOk result (S.is_finished file.new ≡ true) }
{
    let Some(number) = state_asked(command) else {
        return Ok(());
    };
    let Some(index) = index_of_line(test, outcomes, number) else {
        return Err(Refused::NoOutcome(number));
    };
    match put_order_at(test, image, settings, outcomes, index, command, file, alloc) {
        Ok(()) => Ok(()),
        Err(refused) => Err(refused),
    }
}

/// The number of the final state whose order a command wants, from 1.
fn state_asked(command: &LitmusCommand<'_>) -> Option<u32>
    ensures { result ≡ state_asked command.now }
{
    if command.order_asked().written_order().is_none() {
        return None;
    }
    command.outcome
}

/// The index of the outcome that is the final state with this line, from 1.
fn index_of_line(test: &LitmusTest, outcomes: &Outcomes, number: u32) -> Option<usize>
    requires { IsWellFormed test.now }
    ensures found { IfSome result (λ index. (index < length outcomes.now.listed)
        × (slice_get outcomes.now.listed index ≡ slice_get (told_in test.now outcomes.now.listed) (number - 1))) }
    ensures none { IfNone result
        ((number ≡ 0) ⊎ (length (told_in test.now outcomes.now.listed) < number)) }
{
    if number == 0 {
        return None;
    }
    index_of_state(test, outcomes, number as usize - 1)
}

/// The index of the outcome that is the final state with this index among the final states.
fn index_of_state(test: &LitmusTest, outcomes: &Outcomes, state: usize) -> Option<usize>
    requires { IsWellFormed test.now }
    ensures found { IfSome result (λ index. (index < length outcomes.now.listed)
        × (slice_get outcomes.now.listed index ≡ slice_get (told_in test.now outcomes.now.listed) state)) }
    ensures none { IfNone result (length (told_in test.now outcomes.now.listed) ≤ state) }
{
    let mut left = state;
    for index in 0..outcomes.count() {
        if !is_state(test, outcomes, index) {
            continue;
        }
        if left == 0 {
            return Some(index);
        }
        left -= 1;
    }
    None
}

/// Whether the outcome with this index is a final state of the test.
pub(crate) fn is_state(test: &LitmusTest, outcomes: &Outcomes, index: usize) -> bool
    requires sound { IsWellFormed test.now }
    requires within { index < length outcomes.now.listed }
    ensures { (told : Told) → slice_get outcomes.now.listed index ≡ Some told
        → result ≡ passes test.now told }
{
    match outcomes.outcome(index) {
        Some(outcome) => passes(test, outcome),
        None => false,
    }
}

/// Puts the order of the outcome with this index into the file, as a command wants it.
fn put_order_at<S: EndFiles>(
    test: &LitmusTest,
    image: &Image,
    settings: &Settings,
    outcomes: &Outcomes,
    index: usize,
    command: &LitmusCommand<'_>,
    file: &mut S,
    alloc: Global,
) -> Result<(), Refused>
    requires sound { IsWellFormed test.now }
    requires within { index < length outcomes.now.listed }
    requires works { S.has_failed file.old ≡ false }
    requires finished { S.is_finished file.old ≡ true }
    ensures refused { IfErr result (IsTextRefusal settings.now image.now (order_asked command.now)) }
    ensures written { OnOk result ((told : Told) → slice_get outcomes.now.listed index ≡ Some told
        → IsStateWritten settings.now image.now test.now command.now
        (HasPut S.written S.has_failed file.old file.new) told) }
    ensures unbroken { OnOk result (S.has_failed file.new ≡ false) }
    ensures finished { OnOk result (S.is_finished file.new ≡ true) }
{
    let order = match outcomes.witness(index, alloc) {
        Ok(order) => Some(order),
        Err(AllocError) => return Err(Refused::Memory),
    };
    let line = match line_at(test, outcomes, index, alloc) {
        Ok(line) => Some(line),
        Err(refused) => return Err(refused),
    };
    let Ok(named) = file_of(test, image, alloc) else {
        return Err(Refused::Memory);
    };
    let names = match names_in(named.as_slice(), alloc) {
        Ok(names) => names,
        Err(refused) => return Err(refused),
    };
    put_named(image, settings, command, &order, &line, &names, file, alloc)
}

/// Puts an order into the file, as a command wants it, with these names; `line` stands behind its story.
fn put_named<S: EndFiles>(
    image: &Image,
    settings: &Settings,
    command: &LitmusCommand<'_>,
    order: &Option<Vec<u8>>,
    line: &Option<Vec<u8>>,
    names: &Symbols<'_>,
    file: &mut S,
    alloc: Global,
) -> Result<(), Refused>
    requires works { S.has_failed file.old ≡ false }
    requires finished { S.is_finished file.old ≡ true }
    ensures refused { IfErr result (IsTextRefusal settings.now image.now (order_asked command.now)) }
    ensures put { OnOk result (HasPutOrder S.written S.has_failed file.old file.new settings.now image.now
        (order_asked command.now) (state_plan settings.now command.now (table_of names.now))
        (option_map (λ it. it.items) order.now) (option_map (λ it. it.items) line.now)) }
    ensures unbroken { OnOk result (S.has_failed file.new ≡ false) }
    ensures finished { OnOk result (S.is_finished file.new ≡ true) }
{
    let form = form_of(settings, command, names);
    let asked = command.order_asked();
    put_order(image, settings, &asked, order, line, &form, file, alloc)
}

/// How the story of a state's order is told, with these names.
pub(crate) fn form_of<'a>(
    settings: &Settings,
    command: &LitmusCommand<'_>,
    names: &'a Symbols<'a>,
) -> StoryForm<'a>
    ensures plan { plan_of result ≡ state_plan settings.now command.now (table_of names.now) }
    ensures harts { result.harts ≡ settings.now.config.harts }
{
    StoryForm {
        harts: settings.config.harts,
        all: command.all,
        names,
        labels: Labels::none(),
    }
}

/// The line of the outcome with this index, as it stands among the final states.
pub(crate) fn line_at(
    test: &LitmusTest,
    outcomes: &Outcomes,
    index: usize,
    alloc: Global,
) -> Result<Vec<u8>, Refused>
    requires { index < length outcomes.now.listed }
    ensures line { IfOk result (λ line. (told : Told) → slice_get outcomes.now.listed index ≡ Some told
        → line.items ≡ told_line test.now told) }
    ensures refused { IfErr result (λ why. why ≡ Memory) }
{
    let mut line = Vec::new(alloc);
    let written = match outcomes.outcome(index) {
        Some(outcome) => write_state(test, outcome, &mut line),
        None => Ok(()),
    };
    match written {
        Ok(()) => Ok(line),
        Err(_) => Err(Refused::Memory),
    }
}
