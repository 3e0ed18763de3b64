//! Why a condition holds of no outcome, as the command `outcomes` tells and draws it.

ghost use Rattle.std.specs.Prelude.{IfErr, IfOk, option_map};
ghost use Rattle.plain_commands.specs.Outcomes.{IsDrawnFor, IsWhyOf, IsWhyRefusal};

use crate::searching::Tried;
use actors::Gate;
use address_labels::Labels;
use command_parts::Refused;
use elf_image::Image;
use explained_outcomes::{
    Reasons, Unexplained, Untold, draw_reasons, reasons_of, write_instead, write_reasons,
};
use outcome_queries::{Condition, Question, holds};
use outcomes::{Extent, Outcomes};
use sim_inputs::{OutcomesCommand, QuestionText, Settings};
use std::alloc::Global;
use std::io::Write;
use symbols::Symbols;
use watched_outcomes::Watch;

/// What is said of why a condition holds of none: its lines, and a picture of that.
#[derive(Drop)]
pub(crate) struct Told {
    pub text: Vec<u8>,
    pub picture: Option<Vec<u8>>,
}

/// What can be said of it.
#[derive(Drop)]
enum Finding {
    /// Not all states were looked at.
    Unlooked,
    /// It holds of the outcome with this index.
    Holds(usize),
    Reasons(Box<Reasons>),
    Untold(Untold),
}

/// What is said of why the question's condition holds of none of these outcomes, where that is asked; and where a
/// picture is wanted, that. `NothingToDraw` is answered where there is nothing of which one could be made.
pub(crate) fn outcome_why<G: Gate>(
    image: &Image,
    settings: &Settings,
    names: &Symbols<'_>,
    labels: &Labels<'_>,
    question: &Option<Question<'_>>,
    outcomes: &Outcomes,
    watch: &Watch,
    command: &OutcomesCommand<'_>,
    gate: &G,
    alloc: Global,
) -> Result<Told, Refused>
    ensures why { IfOk result (λ told. IsWhyOf command.now told.text.items) }
    ensures picture { IfOk result (λ told. IsDrawnFor command.now (option_map (λ it. it.items) told.picture)) }
    ensures refused { IfErr result (IsWhyRefusal command.now) }
{
    let finding = match finding_of(
        image, settings, question, outcomes, watch, command, gate, alloc,
    ) {
        Ok(finding) => finding,
        Err(_) => return Err(Refused::Memory),
    };
    let text = match text_of(&finding, names, labels, command, alloc) {
        Ok(text) => text,
        Err(_) => return Err(Refused::Memory),
    };
    let picture = match picture_of(&finding, names, labels, command, alloc) {
        Ok(picture) => picture,
        Err(refused) => return Err(refused),
    };
    Ok(Told { text, picture })
}

/// What can be said, where it is asked.
fn finding_of<G: Gate>(
    image: &Image,
    settings: &Settings,
    question: &Option<Question<'_>>,
    outcomes: &Outcomes,
    watch: &Watch,
    command: &OutcomesCommand<'_>,
    gate: &G,
    alloc: Global,
) -> Result<Option<Finding>, Refused> {
    let (true, Some(Question::Never(condition))) = (command.why, question) else {
        return Ok(None);
    };
    if let Some(index) = first_showing(outcomes, watch, condition) {
        return Ok(Some(Finding::Holds(index)));
    }
    if outcomes.extent() != Extent::Whole {
        return Ok(Some(Finding::Unlooked));
    }
    let (harts, spelled) = (settings.config.harts, spelling_of(command));
    gate.begin_search();
    let reasons = reasons_of(image, harts, condition, spelled, &Tried { gate }, alloc);
    gate.end();
    match reasons {
        Ok(reasons) => match Box::new(alloc, reasons) {
            Ok(reasons) => Ok(Some(Finding::Reasons(reasons))),
            Err(_) => Err(Refused::Memory),
        },
        Err(Unexplained::Untold(untold)) => Ok(Some(Finding::Untold(untold))),
        Err(Unexplained::Memory) => Err(Refused::Memory),
    }
}

/// The first outcome of which a condition holds, by its index.
fn first_showing(outcomes: &Outcomes, watch: &Watch, condition: &Condition<'_>) -> Option<usize> {
    for index in 0..outcomes.count() {
        if let Some(outcome) = outcomes.outcome(index) {
            if holds(condition, watch, outcome) {
                return Some(index);
            }
        }
    }
    None
}

/// The condition as it is spelled.
fn spelling_of<'a>(command: &OutcomesCommand<'a>) -> &'a [u8] {
    match command.question {
        Some(QuestionText::Never(text)) => text.as_bytes(),
        _ => &[],
    }
}

/// The lines that say so; none where nothing is asked.
fn text_of(
    finding: &Option<Finding>,
    names: &Symbols<'_>,
    labels: &Labels<'_>,
    command: &OutcomesCommand<'_>,
    alloc: Global,
) -> std::io::Result<Vec<u8>>
    ensures { IfOk result (λ text. IsWhyOf command.now text.items) }
{
    let mut text = Vec::new(alloc);
    if !command.why {
        return Ok(text);
    }
    match finding {
        None => {}
        Some(Finding::Unlooked) => {
            text.write_all(b"why: not told, since not all states were looked at\n")?;
        }
        Some(Finding::Holds(index)) => {
            let number = index.saturating_add(1);
            write!(
                text,
                "why: it holds of outcome {number}; --exists in place of --why, with --story FILE, tells how\n"
            )?;
        }
        Some(Finding::Reasons(reasons)) => write_reasons(reasons, names, labels, &mut text)?,
        Some(Finding::Untold(untold)) => write_instead(*untold, &mut text)?,
    }
    Ok(text)
}

/// The picture, where one is wanted.
fn picture_of(
    finding: &Option<Finding>,
    names: &Symbols<'_>,
    labels: &Labels<'_>,
    command: &OutcomesCommand<'_>,
    alloc: Global,
) -> Result<Option<Vec<u8>>, Refused>
    ensures picture { IfOk result (λ picture. IsDrawnFor command.now (option_map (λ it. it.items) picture)) }
    ensures refused { IfErr result (IsWhyRefusal command.now) }
{
    if command.svg.is_none() {
        return Ok(None);
    }
    let Some(Finding::Reasons(reasons)) = finding else {
        return Err(Refused::NothingToDraw);
    };
    if !reasons.shows() {
        return Err(Refused::NothingToDraw);
    }
    let mut picture = Vec::new(alloc);
    match draw_reasons(reasons, names, labels, &mut picture, alloc) {
        Ok(()) => Ok(Some(picture)),
        Err(_) => Err(Refused::Memory),
    }
}
