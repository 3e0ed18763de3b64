//! The order that the command `outcomes` writes into a file: whose it is, and as what it is written.

ghost use Rattle.std.specs.Prelude.{◌≡◌, ◌<◌, ◌-◌, IfOk, IfErr, OnOk, Some, None, true, false};
ghost use Rattle.std.specs.Prelude.{is_some, length, option_map};
ghost use Rattle.std.specs.Io.KnownBytes.{Appends};
ghost use Rattle.core_state.specs.Setup.{setup_of};
ghost use Rattle.event_text.specs.Sinking.{HasPut};
ghost use Rattle.outcomes.specs.Told.{order_listed};
ghost use Rattle.stress_runs.specs.Kept.{order_line, order_text};
ghost use Rattle.story_text.specs.Text.{plan_of};
ghost use Rattle.command_parts.specs.declared.refused.Refused.TheVariants.{Memory};
ghost use Rattle.sim_inputs.specs.Files.{written_order};
ghost use Rattle.plain_commands.specs.WrittenOrders.{IsOrderRefusal, IsListedRefusal, IsStuckRefusal, IsTextRefusal};
ghost use Rattle.plain_commands.specs.WrittenOrders.{IsTextOf, is_answer_wanted, order_wanted, settling_order};
ghost use Rattle.plain_commands.specs.WrittenOrders.{stuck_asked, stuck_told, HasPutOrder, IsScriptRefusal};
ghost use Rattle.schedules.specs.Schedules.{IsScheduleOf};

use crate::drawn_orders::found_picture;
use crate::schedule::schedule_of;
use crate::settling::settling;
use crate::written_stories::story_text;
use command_parts::{Refused, put_text};
use elf_image::Image;
use outcome_queries::Question;
use outcomes::{Extent, Outcomes};
use sim_inputs::{OutcomesCommand, Settings};
use std::alloc::{AllocError, Global};
use std::io;
use std::io::Write;
use story_text::StoryForm;
use stress_runs::EndFiles;
use watched_outcomes::Watch;

/// The order that a command wants of what was found: that of the outcome with its number, one to a state that is
/// stuck, or the one that settles its question. None where it wants none, where nothing settles the question, and
/// where only some states were looked at and one that is stuck is wanted.
pub(crate) fn order_wanted(
    command: &OutcomesCommand<'_>,
    outcomes: &Outcomes,
    watch: &Watch,
    question: &Option<Question<'_>>,
    alloc: Global,
) -> Result<Option<Vec<u8>>, Refused>
    ensures wanted { IfOk result (λ order. option_map (λ it. it.items) order
        ≡ order_wanted command.now watch.now question.now outcomes.now) }
    ensures refused { IfErr result (IsOrderRefusal command.now outcomes.now) }
{
    if command.written_order().is_none() {
        return Ok(None);
    }
    if let Some(number) = command.outcome {
        return numbered_order(outcomes, number, alloc);
    }
    if command.stuck {
        return stuck_wanted(outcomes, alloc);
    }
    settling_order(outcomes, watch, question, alloc)
}

/// The order of the outcome with this number, from 1.
fn numbered_order(
    outcomes: &Outcomes,
    number: u32,
    alloc: Global,
) -> Result<Option<Vec<u8>>, Refused>
    ensures order { IfOk result (λ order. option_map (λ it. it.items) order
        ≡ order_listed outcomes.now.listed (number - 1)) }
    ensures refused { IfErr result (IsListedRefusal outcomes.now number) }
{
    let index = number as usize;
    if index == 0 || index > outcomes.count() {
        return Err(Refused::NoOutcome(number));
    }
    match listed_order(outcomes, index - 1, alloc) {
        Ok(order) => Ok(Some(order)),
        Err(refused) => Err(refused),
    }
}

/// The order of the outcome with this index.
fn listed_order(outcomes: &Outcomes, index: usize, alloc: Global) -> Result<Vec<u8>, Refused>
    requires { index < length outcomes.now.listed }
    ensures order { IfOk result (λ order. order_listed outcomes.now.listed index ≡ Some order.items) }
    ensures refused { IfErr result (λ why. why ≡ Memory) }
{
    match outcomes.witness(index, alloc) {
        Ok(order) => Ok(order),
        Err(AllocError) => Err(Refused::Memory),
    }
}

/// An order to a state from which nothing can end; refused where there is none.
fn stuck_wanted(outcomes: &Outcomes, alloc: Global) -> Result<Option<Vec<u8>>, Refused>
    ensures order { IfOk result (λ order. option_map (λ it. it.items) order ≡ stuck_told outcomes.now) }
    ensures refused { IfErr result (IsStuckRefusal outcomes.now) }
{
    if outcomes.extent() != Extent::Whole {
        return Ok(None);
    }
    match outcomes.stuck(alloc) {
        Ok(Some(order)) => Ok(Some(order)),
        Ok(None) => Err(Refused::NotStuck),
        Err(AllocError) => Err(Refused::Memory),
    }
}

/// The order that settles a question, if there is one: of an outcome, or to a state that is stuck.
fn settling_order(
    outcomes: &Outcomes,
    watch: &Watch,
    question: &Option<Question<'_>>,
    alloc: Global,
) -> Result<Option<Vec<u8>>, Refused>
    ensures order { IfOk result (λ order. option_map (λ it. it.items) order
        ≡ settling_order watch.now question.now outcomes.now) }
    ensures refused { IfErr result (λ why. why ≡ Memory) }
{
    match settling(outcomes, watch, question) {
        Some(index) => match listed_order(outcomes, index, alloc) {
            Ok(order) => Ok(Some(order)),
            Err(refused) => Err(refused),
        },
        None => stuck_asked(outcomes, question, alloc),
    }
}

/// An order to a state from which nothing can end, where it is asked whether there is none.
fn stuck_asked(
    outcomes: &Outcomes,
    question: &Option<Question<'_>>,
    alloc: Global,
) -> Result<Option<Vec<u8>>, Refused>
    ensures order { IfOk result (λ order. option_map (λ it. it.items) order
        ≡ stuck_asked question.now outcomes.now) }
    ensures refused { IfErr result (λ why. why ≡ Memory) }
{
    match question {
        Some(Question::NeverStuck) => stuck_order(outcomes, alloc),
        Some(_) | None => Ok(None),
    }
}

/// An order to a state from which nothing can end, if there is one and all states were looked at.
pub(crate) fn stuck_order(outcomes: &Outcomes, alloc: Global) -> Result<Option<Vec<u8>>, Refused>
    ensures order { IfOk result (λ order. option_map (λ it. it.items) order ≡ stuck_told outcomes.now) }
    ensures refused { IfErr result (λ why. why ≡ Memory) }
{
    if outcomes.extent() != Extent::Whole {
        return Ok(None);
    }
    match outcomes.stuck(alloc) {
        Ok(order) => Ok(order),
        Err(AllocError) => Err(Refused::Memory),
    }
}

/// Whether what settles the question is to be written.
pub(crate) fn is_answer_wanted(command: &OutcomesCommand<'_>) -> bool
    ensures { result ≡ is_answer_wanted command.now }
{
    command.written_order().is_some() && command.outcome.is_none() && !command.stuck
}

/// Puts an order into the file, if there is one: as it is, as its script, as its story, or as a picture of that; `line`
/// is as `line_wanted` answers it.
pub(crate) fn put_order<S: EndFiles>(
    image: &Image,
    settings: &Settings,
    command: &OutcomesCommand<'_>,
    order: &Option<Vec<u8>>,
    line: &Option<Vec<u8>>,
    form: &StoryForm<'_>,
    file: &mut S,
    alloc: Global,
) -> Result<(), Refused>
    requires works { S.has_failed file.old ≡ false }
    requires finished { S.is_finished file.old ≡ true }
    requires harts { form.now.harts ≡ settings.now.config.harts }
    ensures refused { IfErr result (IsTextRefusal settings.now image.now command.now) }
    ensures put { OnOk result (HasPutOrder S.written S.has_failed file.old file.new settings.now image.now command.now
        (plan_of form.now) (option_map (λ it. it.items) order.now) (option_map (λ it. it.items) line.now)) }
    ensures unwanted { option_map (λ it. it.items) order.now ≡ None → file.new ≡ file.old }
    ensures unbroken { OnOk result (S.has_failed file.new ≡ false) }
    ensures finished { OnOk result (S.is_finished file.new ≡ true) }
{
    let Some(order) = order else {
        return Ok(());
    };
    let text = match text_of(
        image,
        settings,
        command,
        order.as_slice(),
        line,
        form,
        alloc,
    ) {
        Ok(text) => text,
        Err(refused) => return Err(refused),
    };
    match put_text(text.as_slice(), file) {
        Ok(_status) => Ok(()),
        Err(refused) => Err(refused),
    }
}

/// The text of an order, or of its script, its story or a picture of that, where it is wanted.
fn text_of(
    image: &Image,
    settings: &Settings,
    command: &OutcomesCommand<'_>,
    order: &[u8],
    line: &Option<Vec<u8>>,
    form: &StoryForm<'_>,
    alloc: Global,
) -> Result<Vec<u8>, Refused>
    requires harts { form.now.harts ≡ settings.now.config.harts }
    ensures text { IfOk result (λ text. IsTextOf command.now (setup_of image.now settings.now.config)
        settings.now.limit (plan_of form.now) order.now (option_map (λ it. it.items) line.now) text.items) }
    ensures refused { IfErr result (IsTextRefusal settings.now image.now command.now) }
{
    if command.script.is_some() {
        return script_text(image, settings, order, alloc);
    }
    if command.story.is_some() {
        return story_text(image, settings, order, line, form, alloc);
    }
    if command.story_svg.is_some() {
        return found_picture(image, settings, order, line, form, command.theme, alloc);
    }
    order_text(order, alloc)
}

/// The script by which a core of these settings retires in an order.
fn script_text(
    image: &Image,
    settings: &Settings,
    order: &[u8],
    alloc: Global,
) -> Result<Vec<u8>, Refused>
    ensures text { IfOk result (λ text. IsScheduleOf (setup_of image.now settings.now.config) settings.now.limit
        order.now text.items) }
    ensures refused { IfErr result (λ why. IsScriptRefusal settings.now image.now order.now why) }
{
    let script = match schedule_of(image, settings, order, alloc) {
        Ok(script) => script,
        Err(refused) => return Err(refused),
    };
    let mut text = Vec::new(alloc);
    match script.write(&mut text) {
        Ok(()) => Ok(text),
        Err(_) => Err(Refused::Memory),
    }
}

/// An order, a line for each hart.
fn order_text(order: &[u8], alloc: Global) -> Result<Vec<u8>, Refused>
    ensures text { IfOk result (λ text. text.items ≡ order_text order.now) }
    ensures refused { IfErr result (λ why. why ≡ Memory) }
{
    let mut text = Vec::new(alloc);
    match write_order(order, &mut text) {
        Ok(()) => Ok(text),
        Err(_) => Err(Refused::Memory),
    }
}

/// Writes an order, a line for each hart.
fn write_order<W: Write>(order: &[u8], out: &mut W) -> io::Result<()>
    ensures { OnOk result (Appends (W.contents out.old) (W.contents out.new) (order_text order.now)) }
{
    for hart in order {
        write_hart(*hart, out)?;
    }
    Ok(())
}

fn write_hart<W: Write>(hart: u8, out: &mut W) -> io::Result<()>
    ensures { OnOk result (Appends (W.contents out.old) (W.contents out.new) (order_line hart)) }
{
    writeln!(out, "{hart}")
}
