//! What the options of a command ask for, and isn't there.

use crate::line_fault::LineFault;
use crate::named::add_named;
use crate::named_files::{add_config, add_second};
use crate::order_words::add_harts;
use elf_image::RAM_START;
use hints::{Hint, Part};
use outcome_queries::QueryRefused;
use rv_instr::{UnitKind, unit_name};
use sim_inputs::{Command, OutcomesCommand, ProgramCommand, QuestionText, read_config};
use std::alloc::{AllocError, Global};
use watched_outcomes::{WatchedBytes, Width};

/// Adds the unit that a schedule needs.
pub(crate) fn add_unit(
    kind: UnitKind,
    fault: &LineFault<'_, '_>,
    hint: &mut Hint,
    alloc: Global,
) -> Result<(), AllocError> {
    let name = unit_name(&kind);
    add_config(fault, hint, alloc)?;
    hint.add(
        Part::Cause,
        b"an instruction of the order is for such a unit",
    )?;
    let expected = format!(in alloc; "{name} among the actors of the configuration")?;
    hint.add(Part::Expected, expected.as_bytes())
}

/// Adds the limit that a schedule needs.
pub(crate) fn add_limit(
    least: u64,
    fault: &LineFault<'_, '_>,
    hint: &mut Hint,
    alloc: Global,
) -> Result<(), AllocError> {
    add_config(fault, hint, alloc)?;
    hint.add(
        Part::Cause,
        b"the history of the order has more events than the limit",
    )?;
    let expected = format!(in alloc; "limit = {least} in the configuration, or more")?;
    hint.add(Part::Expected, expected.as_bytes())
}

/// Adds the hart that an option names.
pub(crate) fn add_hart(
    hart: u32,
    fault: &LineFault<'_, '_>,
    hint: &mut Hint,
    alloc: Global,
) -> Result<(), AllocError> {
    let word = match options_of(&fault.line.command) {
        Some(AskedBy::ListAnd(option)) => format!(in alloc; "hart {hart} in {option} or --watch")?,
        Some(AskedBy::List) => format!(in alloc; "hart {hart} in --watch")?,
        None => return add_drawn_hart(hart, hint, alloc),
    };
    hint.add(Part::Word, word.as_bytes())?;
    add_harts(fault, hint, alloc)
}

/// Adds that a hart was to be drawn that the core of a trace hasn't.
fn add_drawn_hart(hart: u32, hint: &mut Hint, alloc: Global) -> Result<(), AllocError> {
    let word = format!(in alloc; "--hart {hart}")?;
    hint.add(Part::Word, word.as_bytes())?;
    hint.add(Part::Cause, b"the core of the trace has no such hart")
}

/// Adds that harts were asked for of a core that the trace names itself.
pub(crate) fn add_two_cores(
    fault: &LineFault<'_, '_>,
    hint: &mut Hint,
    alloc: Global,
) -> Result<(), AllocError> {
    add_second(fault, hint, alloc)?;
    hint.add(Part::Cause, b"the trace names its core, with its harts")?;
    hint.add(
        Part::Expected,
        b"no --harts beside a trace of version 2 or 3",
    )
}

/// Adds that a picture would have too many instructions.
pub(crate) fn add_picture(last: u32, hint: &mut Hint, alloc: Global) -> Result<(), AllocError> {
    hint.add(
        Part::Cause,
        b"more than 4000 instructions are no picture any more",
    )?;
    let expected = format!(in alloc; "--to {last} or less, or another --from")?;
    hint.add(Part::Expected, expected.as_bytes())
}

/// Adds where a list of what is watched is misspelled.
pub(crate) fn add_watch(
    why: QueryRefused,
    fault: &LineFault<'_, '_>,
    hint: &mut Hint,
    alloc: Global,
) -> Result<(), AllocError> {
    let list = match fault.line.command {
        Command::OfProgram(ProgramCommand::Outcomes(asked)) => asked.watch,
        Command::OfProgram(ProgramCommand::Run(run)) => run.watch,
        _ => return Ok(()),
    };
    add_query("--watch", list, why, fault, hint, alloc)
}

/// Adds where a condition is misspelled.
pub(crate) fn add_condition(
    why: QueryRefused,
    fault: &LineFault<'_, '_>,
    hint: &mut Hint,
    alloc: Global,
) -> Result<(), AllocError> {
    let (option, text) = match fault.line.command {
        Command::OfProgram(ProgramCommand::Outcomes(asked)) => condition_asked(&asked),
        Command::OfProgram(ProgramCommand::Run(run)) => condition_in(run.question),
        _ => return Ok(()),
    };
    add_query(option, text, why, fault, hint, alloc)
}

/// By which options a command asks for what is watched.
#[derive(Clone, Copy, Drop)]
enum AskedBy {
    /// By its list alone.
    List,
    /// By its list, and by the condition of this option.
    ListAnd(&'static str),
}

/// By which options a command asks for what is watched, if it does.
fn options_of(command: &Command<'_>) -> Option<AskedBy> {
    match command {
        Command::OfProgram(ProgramCommand::Outcomes(asked)) => {
            let (option, _) = condition_asked(asked);
            Some(AskedBy::ListAnd(option))
        }
        Command::OfProgram(ProgramCommand::Run(run)) if run.question.is_some() => {
            let (option, _) = condition_in(run.question);
            Some(AskedBy::ListAnd(option))
        }
        Command::OfProgram(ProgramCommand::Run(_)) => Some(AskedBy::List),
        _ => None,
    }
}

/// The option that what is asked of outcomes has its condition from, and the condition.
fn condition_asked<'a>(asked: &OutcomesCommand<'a>) -> (&'static str, Option<&'a str>) {
    let (option, text) = condition_in(asked.question);
    if asked.why {
        return ("--why", text);
    }
    (option, text)
}

/// The option that a question has its condition from, and the condition.
fn condition_in(question: Option<QuestionText<'_>>) -> (&'static str, Option<&str>) {
    match question {
        Some(QuestionText::Exists(text)) => ("--exists", Some(text)),
        Some(QuestionText::ForAll(text)) => ("--forall", Some(text)),
        Some(QuestionText::Never(text)) => ("--never", Some(text)),
        Some(QuestionText::NeverStuck) | None => ("--exists", None),
    }
}

/// Adds where the text of an option is misspelled: the rest from there on.
fn add_query(
    option: &str,
    text: Option<&str>,
    why: QueryRefused,
    fault: &LineFault<'_, '_>,
    hint: &mut Hint,
    alloc: Global,
) -> Result<(), AllocError> {
    let QueryRefused { column, expected } = why;
    let place = format!(in alloc; "column {column} of {option}")?;
    hint.add(Part::Place, place.as_bytes())?;
    let text = text.unwrap_or("").as_bytes();
    let rest = text.get(column.saturating_sub(1)..).unwrap_or(b"");
    hint.add(Part::Word, rest)?;
    let text = expected.to_string(alloc)?;
    hint.add(Part::Expected, text.as_bytes())?;
    add_named(rest, expected, fault, hint, alloc)
}

/// Adds that a word that is watched isn't there, or a half or a byte.
pub(crate) fn add_absent_word(
    bytes: WatchedBytes,
    fault: &LineFault<'_, '_>,
    hint: &mut Hint,
    alloc: Global,
) -> Result<(), AllocError> {
    let address = bytes.address;
    let word = match options_of(&fault.line.command) {
        Some(AskedBy::ListAnd(option)) => format!(in alloc;
            "{address:08x} in {option} or --watch"
        )?,
        Some(AskedBy::List) | None => format!(in alloc; "{address:08x} in --watch")?,
    };
    hint.add(Part::Word, word.as_bytes())?;
    let Ok(text) = fault.inputs.config else {
        return Ok(());
    };
    let Ok(settings) = read_config(text, alloc) else {
        return Ok(());
    };
    let size = bytes.width.bytes();
    let last = RAM_START
        .wrapping_add(settings.ram.bytes())
        .wrapping_sub(u32::from(size));
    let expected = match bytes.width {
        Width::Byte => format!(in alloc; "an address from {RAM_START:08x} to {last:08x}")?,
        _ => format!(in alloc; "a multiple of {size} from {RAM_START:08x} to {last:08x}")?,
    };
    hint.add(Part::Expected, expected.as_bytes())
}

/// Adds that there is no outcome of this number, or no state.
pub(crate) fn add_absent_outcome(
    number: u32,
    fault: &LineFault<'_, '_>,
    hint: &mut Hint,
    alloc: Global,
) -> Result<(), AllocError> {
    let word = format!(in alloc; "--outcome {number}")?;
    hint.add(Part::Word, word.as_bytes())?;
    if let Command::Litmus(_) = fault.line.command {
        hint.add(Part::Cause, b"there are fewer states")?;
        return hint.add(Part::Expected, b"the number of a state by its line, from 1");
    }
    hint.add(Part::Cause, b"there are fewer outcomes")?;
    hint.add(
        Part::Expected,
        b"the number of a line that is printed without --outcome",
    )
}
