//! The files of a line by name, and what each is for.

use crate::file_fault::{Doing, add_cause};
use crate::line_fault::LineFault;
use command_parts::Unread;
use hints::{Hint, Part};
use sim_inputs::{Command, Line, OutcomesCommand, ProgramCommand, is_standard_input};
use std::alloc::{AllocError, Global};

/// What the configuration is.
const CONFIGURATION: &str = "the configuration";

/// What the program of a line is.
pub(crate) fn program_role(line: &Line<'_>) -> &'static str {
    match line.command {
        Command::Litmus(_) => "the litmus test",
        _ => "the image",
    }
}

/// What the second file of a line is.
fn second_role(line: &Line<'_>) -> &'static str {
    match line.command {
        Command::OfProgram(ProgramCommand::Step(_)) => "the script",
        Command::OfProgram(ProgramCommand::Plain(_) | ProgramCommand::Schedule(_)) => "the order",
        Command::Litmus(_) => "the summary",
        _ => "the trace",
    }
}

/// What the file of a line is that is written.
fn written_role(line: &Line<'_>) -> &'static str {
    match line.command {
        Command::OfProgram(ProgramCommand::Chart(_)) => "the chart",
        Command::OfProgram(ProgramCommand::Outcomes(asked)) => order_role(&asked),
        Command::OfProgram(ProgramCommand::Plain(_)) => "the picture",
        Command::Litmus(asked) if asked.image.is_some() => "the image",
        Command::Litmus(asked) => order_role(&asked.order_asked()),
        _ => "the trace",
    }
}

/// What is written of an order; where none is, it is a picture of something else.
fn order_role(asked: &OutcomesCommand<'_>) -> &'static str {
    if asked.witness.is_some() {
        "the order"
    } else if asked.script.is_some() {
        "the script"
    } else if asked.story.is_some() {
        "the story"
    } else {
        "the picture"
    }
}

/// Adds the file of the configuration, if the line names one.
pub(crate) fn add_config(
    fault: &LineFault<'_, '_>,
    hint: &mut Hint,
    alloc: Global,
) -> Result<(), AllocError> {
    match fault.line.config {
        Some(name) => add_read(name, CONFIGURATION, hint, alloc),
        None => hint.add(Part::File, b"no configuration: see --config"),
    }
}

/// Adds the program of the line.
pub(crate) fn add_program(
    fault: &LineFault<'_, '_>,
    hint: &mut Hint,
    alloc: Global,
) -> Result<(), AllocError> {
    match fault.line.files().program {
        Some(name) => add_read(name, program_role(fault.line), hint, alloc),
        None => Ok(()),
    }
}

/// Adds the second file of the line.
pub(crate) fn add_second(
    fault: &LineFault<'_, '_>,
    hint: &mut Hint,
    alloc: Global,
) -> Result<(), AllocError> {
    add_second_of(fault.line, hint, alloc)
}

pub(crate) fn add_second_of(
    line: &Line<'_>,
    hint: &mut Hint,
    alloc: Global,
) -> Result<(), AllocError> {
    match line.files().second {
        Some(name) => add_read(name, second_role(line), hint, alloc),
        None => Ok(()),
    }
}

/// Adds the source lines of the line.
pub(crate) fn add_lines(
    fault: &LineFault<'_, '_>,
    hint: &mut Hint,
    alloc: Global,
) -> Result<(), AllocError> {
    match fault.line.files().lines {
        Some(name) => add_read(name, "the source lines", hint, alloc),
        None => Ok(()),
    }
}

/// Adds a file that is read.
fn add_read(name: &str, role: &str, hint: &mut Hint, alloc: Global) -> Result<(), AllocError> {
    let shown = if is_standard_input(name) {
        "standard input"
    } else {
        name
    };
    add_named(shown, "read", role, hint, alloc)
}

fn add_named(
    name: &str,
    done: &str,
    role: &str,
    hint: &mut Hint,
    alloc: Global,
) -> Result<(), AllocError> {
    let said = format!(in alloc; "{done} as {role}: {name}")?;
    hint.add(Part::File, said.as_bytes())
}

/// Adds which file can't be read, and why: the first that is needed.
pub(crate) fn add_unread(
    fault: &LineFault<'_, '_>,
    hint: &mut Hint,
    alloc: Global,
) -> Result<(), AllocError> {
    let (inputs, files) = (&fault.inputs, &fault.files);
    let named = fault.line.files();
    let (name, why) = if is_refused(inputs.config, Unread::File) {
        add_config(fault, hint, alloc)?;
        (named.config, files.config)
    } else if is_refused(inputs.program, Unread::File) {
        add_program(fault, hint, alloc)?;
        (named.program, files.program)
    } else if is_refused(inputs.lines, Unread::File) {
        add_lines(fault, hint, alloc)?;
        (named.lines, files.lines)
    } else {
        add_second(fault, hint, alloc)?;
        (named.second, files.second)
    };
    match why {
        Some(why) => add_cause(why, reading(name), hint, alloc),
        None => Ok(()),
    }
}

/// How a file of this name is read.
fn reading(name: Option<&str>) -> Doing {
    match name {
        Some(name) if is_standard_input(name) => Doing::ReadingInput,
        _ => Doing::Reading,
    }
}

/// Adds for which file there isn't enough memory, if it is one.
pub(crate) fn add_memory(
    fault: &LineFault<'_, '_>,
    hint: &mut Hint,
    alloc: Global,
) -> Result<(), AllocError> {
    let inputs = &fault.inputs;
    if is_refused(inputs.config, Unread::Memory) {
        add_config(fault, hint, alloc)?;
    } else if is_refused(inputs.program, Unread::Memory) {
        add_program(fault, hint, alloc)?;
    } else if is_refused(inputs.lines, Unread::Memory) {
        add_lines(fault, hint, alloc)?;
    } else if is_refused(inputs.second, Unread::Memory) {
        add_second(fault, hint, alloc)?;
    } else {
        return hint.add(Part::For, b"what the command makes of its files");
    }
    hint.add(Part::For, b"the bytes of this file")
}

/// Whether a file couldn't be read for this.
fn is_refused(file: Result<&[u8], Unread>, why: Unread) -> bool {
    match file {
        Ok(_) => false,
        Err(other) => other == why,
    }
}

/// Adds what takes no more, and why: a file that is written, or standard output.
pub(crate) fn add_unwritten(
    fault: &LineFault<'_, '_>,
    hint: &mut Hint,
    alloc: Global,
) -> Result<(), AllocError> {
    let Some(why) = fault.files.written else {
        hint.add(Part::File, b"standard output")?;
        return match fault.files.output {
            Some(why) => add_cause(why, Doing::Printing, hint, alloc),
            None => Ok(()),
        };
    };
    let line = fault.line;
    if let Command::OfProgram(ProgramCommand::Run(run)) = line.command {
        if let Some(folder) = run.keep {
            add_named(folder, "written", "the folder of the ends", hint, alloc)?;
            return add_cause(why, Doing::Writing, hint, alloc);
        }
    }
    let files = line.files();
    if fault.files.is_beside {
        if let Some(name) = files.beside {
            add_named(name, "written", "the log for Konata", hint, alloc)?;
        }
    } else if let Some(name) = files.written {
        add_named(name, "written", written_role(line), hint, alloc)?;
    }
    add_cause(why, Doing::Writing, hint, alloc)
}
