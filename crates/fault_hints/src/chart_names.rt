//! What the options of a chart name, and what was meant.

use crate::inside_text::add_line;
use crate::line_fault::LineFault;
use crate::named::{add_addresses, nearest};
use crate::named_files::{add_lines, add_program};
use command_parts::{ChartOption, Inputs};
use hints::{Hint, Part};
use sim_inputs::{ChartEnd, Command, Line, ProgramCommand};
use source_lines::LineFault as SourceFault;
use std::alloc::{AllocError, Global};
use symbols::{Name, Unread, read};

/// Adds that an option of a chart names nothing in the program, and what was meant.
pub(crate) fn add_nothing_named(
    option: ChartOption,
    fault: &LineFault<'_, '_>,
    hint: &mut Hint,
    alloc: Global,
) -> Result<(), AllocError> {
    add_option(option, fault, hint, alloc)?;
    add_program(fault, hint, alloc)?;
    let file = fault.inputs.program.unwrap_or(&[]);
    match read(file, alloc) {
        Ok(symbols) => {
            hint.add(Part::Cause, b"nothing in the image has this name")?;
            let word = word_of(option, fault).as_bytes();
            match nearest(&symbols, word, alloc)? {
                Some(meant) => hint.add(Part::Meant, symbols.name_of(&meant)),
                None => Ok(()),
            }
        }
        Err(Unread::Absent) => hint.add(Part::Cause, NO_TABLE.as_bytes()),
        Err(Unread::Damaged) => hint.add(Part::Cause, DAMAGED.as_bytes()),
        Err(Unread::Memory) => Err(AllocError),
    }
}

/// Why an image has no names.
const NO_TABLE: &str = "the image has no table of symbols";

const DAMAGED: &str = "the image's table of symbols is damaged";

/// Why there are no names in the image of a line that shows some; none where there are, or none are to be shown.
pub fn why_nameless(line: &Line<'_>, inputs: &Inputs<'_>, alloc: Global) -> Option<&'static str> {
    let Command::OfProgram(command) = line.command else {
        return None;
    };
    if !command.shows_names() {
        return None;
    }
    match read(inputs.program.ok()?, alloc) {
        Err(Unread::Absent) => Some(NO_TABLE),
        Err(Unread::Damaged) => Some(DAMAGED),
        _ => None,
    }
}

/// Adds that an option of a chart names several addresses.
pub(crate) fn add_several_named(
    option: ChartOption,
    fault: &LineFault<'_, '_>,
    hint: &mut Hint,
    alloc: Global,
) -> Result<(), AllocError> {
    add_option(option, fault, hint, alloc)?;
    hint.add(
        Part::Expected,
        b"FILE:NAME, with the file of the part that is meant",
    )?;
    let file = fault.inputs.program.unwrap_or(&[]);
    let Ok(symbols) = read(file, alloc) else {
        return Ok(());
    };
    let name = Name {
        file: None,
        name: word_of(option, fault).as_bytes(),
    };
    add_addresses(&symbols, &name, hint, alloc)
}

/// Adds that nothing is fetched in what an option of a chart names.
pub(crate) fn add_never_fetched(
    option: ChartOption,
    fault: &LineFault<'_, '_>,
    hint: &mut Hint,
    alloc: Global,
) -> Result<(), AllocError> {
    add_option(option, fault, hint, alloc)?;
    hint.add(
        Part::Cause,
        b"no instruction in it is fetched, of a hart that is drawn",
    )
}

/// Adds that a chart would end before it begins.
pub(crate) fn add_turned(
    from: u32,
    to: u32,
    fault: &LineFault<'_, '_>,
    hint: &mut Hint,
    alloc: Global,
) -> Result<(), AllocError> {
    for option in [ChartOption::From, ChartOption::To] {
        if !word_of(option, fault).is_empty() {
            add_option(option, fault, hint, alloc)?;
        }
    }
    let cause = format!(in alloc; "the first event would be {from}, and the last {to}")?;
    hint.add(Part::Cause, cause.as_bytes())
}

/// Adds the line of source lines that is refused, and why.
pub(crate) fn add_source_line(
    line: usize,
    why: SourceFault,
    fault: &LineFault<'_, '_>,
    hint: &mut Hint,
    alloc: Global,
) -> Result<(), AllocError> {
    add_lines(fault, hint, alloc)?;
    let Ok(text) = fault.inputs.lines else {
        return Ok(());
    };
    add_line(text, line, hint, alloc)?;
    let cause = why.to_string(alloc)?;
    hint.add(Part::Cause, cause.as_bytes())?;
    hint.add(
        Part::Expected,
        b"ADDRESS FILE NUMBER, by rising address, as image.sh -g writes them beside the image",
    )
}

/// Adds an option of a chart as it stands in the command line.
fn add_option(
    option: ChartOption,
    fault: &LineFault<'_, '_>,
    hint: &mut Hint,
    alloc: Global,
) -> Result<(), AllocError> {
    let word = word_of(option, fault);
    let said = format!(in alloc; "{option} {word}")?;
    hint.add(Part::Word, said.as_bytes())
}

/// The name that an option of a chart gives.
fn word_of<'a>(option: ChartOption, fault: &LineFault<'a, '_>) -> &'a str {
    let Command::OfProgram(ProgramCommand::Chart(chart)) = fault.line.command else {
        return "";
    };
    let end = match option {
        ChartOption::From => chart.from,
        ChartOption::To => chart.to,
    };
    match end {
        ChartEnd::Function(name) => name,
        ChartEnd::Event(_) => "",
    }
}
