//! The story that the command `outcomes` writes into a file: that of an order, and behind it the line of the outcome to
//! which this leads, or what each hart waits for, where that is a state that is stuck.

ghost use Rattle.std.specs.Prelude.{◌≡◌, ◌++◌, ◌<◌, IfOk, IfErr, OnOk, option_map, reverse};
ghost use Rattle.core_state.specs.Setup.{setup_of};
ghost use Rattle.outcomes.specs.Found.{Told};
ghost use Rattle.plain_run.specs.Orders.{OfEachSetup};
ghost use Rattle.smt_model.specs.Plain.{run};
ghost use Rattle.story_text.specs.Text.{plan_of};
ghost use Rattle.symbols.specs.Tables.{table_of};
ghost use Rattle.command_parts.specs.declared.refused.Refused.TheVariants.{Memory};
ghost use Rattle.plain_commands.specs.Plain.{IsMachineRefusal};
ghost use Rattle.plain_commands.specs.WrittenOrders.{IsStoryOf, closing_text, index_wanted, line_wanted, waiting_behind};
ghost use Rattle.plain_commands.specs.WrittenOrders.{HasCome, waits_text};

use crate::plain::tell_image;
use crate::settling::settling;
use command_parts::Refused;
use elf_image::Image;
use outcome_queries::{Question, WatchList, columns_of};
use outcome_text::write_line;
use outcomes::Outcomes;
use sc_machine::{Plain, PlainRefused};
use sim_inputs::{OutcomesCommand, Settings};
use std::alloc::Global;
use story_text::StoryForm;
use stuck_harts::tell_spin;
use symbols::Symbols;
use watched_outcomes::Watch;

/// The line of the outcome whose order a command wants, as it stands in the list; none where it is the order to a state
/// that is stuck.
pub(crate) fn line_wanted(
    command: &OutcomesCommand<'_>,
    outcomes: &Outcomes,
    list: &WatchList<'_>,
    watch: &Watch,
    question: &Option<Question<'_>>,
    alloc: Global,
) -> Result<Option<Vec<u8>>, Refused>
    ensures line { IfOk result (λ line. option_map (λ it. it.items) line
        ≡ line_wanted command.now list.now.items watch.now question.now outcomes.now) }
    ensures refused { IfErr result (λ why. why ≡ Memory) }
{
    let Some(index) = index_wanted(command, outcomes, watch, question) else {
        return Ok(None);
    };
    let Some(outcome) = outcomes.outcome(index) else {
        return Ok(None);
    };
    let columns = columns_of(list.as_slice());
    let mut line = Vec::new(alloc);
    match write_line(&columns, outcome, &mut line) {
        Ok(()) => Ok(Some(line)),
        Err(_) => Err(Refused::Memory),
    }
}

/// The index of the outcome whose order a command wants.
fn index_wanted(
    command: &OutcomesCommand<'_>,
    outcomes: &Outcomes,
    watch: &Watch,
    question: &Option<Question<'_>>,
) -> Option<usize>
    ensures { result ≡ index_wanted command.now watch.now question.now outcomes.now }
{
    if let Some(number) = command.outcome {
        return Some((number as usize).saturating_sub(1));
    }
    if command.stuck {
        return None;
    }
    settling(outcomes, watch, question)
}

/// The story of an order, which the plain machine of these settings makes, with what stands behind it: `line`, or what
/// each hart waits for.
pub(crate) fn story_text(
    image: &Image,
    settings: &Settings,
    order: &[u8],
    line: &Option<Vec<u8>>,
    form: &StoryForm<'_>,
    alloc: Global,
) -> Result<Vec<u8>, Refused>
    requires harts { form.now.harts ≡ settings.now.config.harts }
    ensures text { IfOk result (λ text. IsStoryOf (setup_of image.now settings.now.config) (plan_of form.now)
        order.now (option_map (λ it. it.items) line.now) text.items) }
    ensures refused { IfErr result (IsMachineRefusal image.now settings.now.config.harts order.now) }
{
    let mut text = Vec::new(alloc);
    let harts = settings.config.harts;
    match tell_image(image, harts, order, &Some(*form), &mut text, alloc) {
        Ok(()) => {}
        // What holds the text fails for want of memory alone.
        Err(Refused::Output) => return Err(Refused::Memory),
        Err(refused) => return Err(refused),
    }
    match write_closing(image, harts, order, line, form.names, &mut text, alloc) {
        Ok(()) => Ok(text),
        Err(refused) => Err(refused),
    }
}

/// What stands behind the story of an order.
pub(crate) fn closing_of(
    image: &Image,
    harts: u8,
    order: &[u8],
    line: &Option<Vec<u8>>,
    names: &Symbols<'_>,
    alloc: Global,
) -> Result<Vec<u8>, Refused>
    ensures text { IfOk result (λ text. OfEachSetup image.now harts (λ setup. text.items
        ≡ closing_text (table_of names.now) setup order.now (option_map (λ it. it.items) line.now))) }
    ensures refused { IfErr result (IsMachineRefusal image.now harts order.now) }
{
    let mut text = Vec::new(alloc);
    match write_closing(image, harts, order, line, names, &mut text, alloc) {
        Ok(()) => Ok(text),
        Err(refused) => Err(refused),
    }
}

/// Writes what stands behind the story of an order.
fn write_closing(
    image: &Image,
    harts: u8,
    order: &[u8],
    line: &Option<Vec<u8>>,
    names: &Symbols<'_>,
    text: &mut Vec<u8>,
    alloc: Global,
) -> Result<(), Refused>
    ensures written { OnOk result (OfEachSetup image.now harts (λ setup. text.new.items ≡ text.old.items
        ++ closing_text (table_of names.now) setup order.now (option_map (λ it. it.items) line.now))) }
    ensures refused { IfErr result (IsMachineRefusal image.now harts order.now) }
{
    let Some(line) = line else {
        return write_waits(image, harts, order, names, text, alloc);
    };
    match text.extend_from_slice(line.as_slice()) {
        Ok(()) => Ok(()),
        Err(_) => Err(Refused::Memory),
    }
}

/// Writes what each hart waits for behind an order.
fn write_waits(
    image: &Image,
    harts: u8,
    order: &[u8],
    names: &Symbols<'_>,
    text: &mut Vec<u8>,
    alloc: Global,
) -> Result<(), Refused>
    ensures written { OnOk result (OfEachSetup image.now harts (λ setup. text.new.items ≡ text.old.items
        ++ waits_text (table_of names.now) setup order.now)) }
    ensures refused { IfErr result (IsMachineRefusal image.now harts order.now) }
{
    for hart in 0..harts {
        match write_wait(image, harts, order, hart, names, text, alloc) {
            Ok(()) => {}
            Err(refused) => return Err(refused),
        }
    }
    Ok(())
}

/// Writes what a hart waits for behind an order.
fn write_wait(
    image: &Image,
    harts: u8,
    order: &[u8],
    hart: u8,
    names: &Symbols<'_>,
    text: &mut Vec<u8>,
    alloc: Global,
) -> Result<(), Refused>
    requires { hart < harts }
    ensures written { OnOk result (OfEachSetup image.now harts (λ setup. text.new.items ≡ text.old.items
        ++ waiting_behind (table_of names.now) setup (run setup (reverse order.now)) hart)) }
    ensures refused { IfErr result (IsMachineRefusal image.now harts order.now) }
{
    let mut machine = match machine_behind(image, harts, order, alloc) {
        Ok(machine) => machine,
        Err(refused) => return Err(refused),
    };
    match tell_spin(&mut machine, hart, names, text) {
        Ok(()) => Ok(()),
        // What holds the text fails for want of memory alone.
        Err(_) => Err(Refused::Memory),
    }
}

/// The machine of an image behind an order that it makes: so only memory can be lacking.
fn machine_behind(image: &Image, harts: u8, order: &[u8], alloc: Global) -> Result<Plain, Refused>
    ensures stands { IfOk result
        (λ machine. OfEachSetup image.now harts (λ setup. HasCome setup order.now machine)) }
    ensures refused { IfErr result (IsMachineRefusal image.now harts order.now) }
{
    let mut machine = match Plain::new(image, harts, order.len(), alloc) {
        Ok(machine) => machine,
        Err(PlainRefused::Harts) => return Err(Refused::Config),
        Err(PlainRefused::Memory) => return Err(Refused::Memory),
    };
    match machine.run(order) {
        Ok(()) => Ok(machine),
        Err(_) => Err(Refused::Memory),
    }
}
