//! What `explain` says first of a configuration or an image that is refused.

use crate::line_fault::LineFault;
use crate::named_files::{add_config, add_program};
use explanations::{explain_config, explain_image};
use hints::{Hint, Part};
use shown_text::write_file_name;
use sim_inputs::{Command, ProgramCommand, read_config};
use std::alloc::{AllocError, Global};
use std::io;
use std::io::Write;

/// Adds what `explain` says of the configuration, or why it is refused though it is one.
pub(crate) fn add_config_fault(
    fault: &LineFault<'_, '_>,
    hint: &mut Hint,
    alloc: Global,
) -> Result<(), AllocError> {
    let Ok(text) = fault.inputs.config else {
        return Ok(());
    };
    let said = explain_config(text, fault.line.harts, alloc)?;
    if said.settings.is_some() {
        return add_unfit_config(fault, hint, alloc);
    }
    add_config(fault, hint, alloc)?;
    if is_explained(fault) {
        return hint.add(Part::Cause, b"on standard output");
    }
    add_said(&said.text, hint)?;
    add_explain(fault, hint, alloc)
}

/// Whether a command makes runs by threads: a litmus test whose configuration doesn't fit it does.
fn is_run(command: &Command<'_>) -> bool {
    matches!(
        command,
        Command::OfProgram(ProgramCommand::Run(_)) | Command::Litmus(_)
    )
}

/// Adds why a configuration doesn't fit its command.
fn add_unfit_config(
    fault: &LineFault<'_, '_>,
    hint: &mut Hint,
    alloc: Global,
) -> Result<(), AllocError> {
    if is_run(&fault.line.command) {
        add_config(fault, hint, alloc)?;
        hint.add(Part::Cause, b"a run needs an actor of each role")?;
        hint.add(
            Part::Expected,
            b"fetch, front, retire, alu, mul and mem among the actors",
        )?;
        return add_explain(fault, hint, alloc);
    }
    crate::named_files::add_second(fault, hint, alloc)?;
    hint.add(Part::Cause, b"more events than a history may have")
}

/// Adds what `explain` says of the image.
pub(crate) fn add_image_fault(
    fault: &LineFault<'_, '_>,
    hint: &mut Hint,
    alloc: Global,
) -> Result<(), AllocError> {
    add_program(fault, hint, alloc)?;
    if is_explained(fault) {
        return hint.add(Part::Cause, b"on standard output");
    }
    let (Ok(config), Ok(file)) = (fault.inputs.config, fault.inputs.program) else {
        return Ok(());
    };
    let Ok(settings) = read_config(config, alloc) else {
        return Ok(());
    };
    let said = explain_image(file, settings.ram, alloc)?;
    add_said(&said.text, hint)?;
    add_explain(fault, hint, alloc)
}

/// Whether the command itself has said why.
fn is_explained(fault: &LineFault<'_, '_>) -> bool {
    matches!(fault.line.command, Command::Explain(_))
}

/// Adds the lines behind the first of what `explain` says, but leaves room for one more part.
fn add_said(said: &[u8], hint: &mut Hint) -> Result<(), AllocError> {
    for line in said.split(|byte| *byte == b'\n').skip(1) {
        if line.is_empty() || !hint.has_room_beside(1) {
            continue;
        }
        let (part, text) = part_of(line);
        hint.add(part, text)?;
    }
    Ok(())
}

/// Which part of a hint a line of `explain` is.
fn part_of(line: &[u8]) -> (Part, &[u8]) {
    if let Some(text) = line.strip_prefix(b"expected: ") {
        return (Part::Expected, text);
    }
    if let Some(text) = line.strip_prefix(b"usually: ") {
        return (Part::Usually, text);
    }
    (Part::Cause, line)
}

/// Adds the command that explains the files of the line, as it is to be typed.
fn add_explain(
    fault: &LineFault<'_, '_>,
    hint: &mut Hint,
    alloc: Global,
) -> Result<(), AllocError> {
    let files = fault.line.files();
    let image = match fault.line.command {
        // What is refused is its configuration, and its file is no image.
        Command::Litmus(_) => "IMAGE",
        _ => files.program.unwrap_or("IMAGE"),
    };
    let mut words = Vec::new(alloc);
    match write_explain(image, files.config, &mut words) {
        Ok(()) => hint.add(Part::See, words.as_slice()),
        Err(_) => Err(AllocError),
    }
}

fn write_explain<W: Write>(image: &str, config: Option<&str>, out: &mut W) -> io::Result<()> {
    out.write_all(b"smtsim explain ")?;
    write_file_name(image, out)?;
    if let Some(config) = config {
        out.write_all(b" --config ")?;
        write_file_name(config, out)?;
    }
    Ok(())
}
