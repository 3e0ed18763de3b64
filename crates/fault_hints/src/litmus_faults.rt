//! Why a text is no litmus test: its first fault, and more of them.

use crate::inside_text::add_line;
use crate::line_fault::LineFault;
use crate::litmus_instead::in_place_of;
use crate::named_files::add_program;
use hints::{Hint, Part};
use litmus_reading::{Fault, FaultAt, Place, faults_in};
use std::alloc::{AllocError, Global};

/// Adds where a litmus test is refused, what is to stand there, and up to nine faults behind that.
pub(crate) fn add_litmus(
    place: Place,
    why: Fault,
    fault: &LineFault<'_, '_>,
    hint: &mut Hint,
    alloc: Global,
) -> Result<(), AllocError> {
    add_program(fault, hint, alloc)?;
    let Ok(text) = fault.inputs.program else {
        return Ok(());
    };
    add_line(text, place.line, hint, alloc)?;
    let faults = faults_in(text, alloc)?;
    match faults.as_slice().split_first() {
        Some((first, further)) => {
            add_first(first, hint, alloc)?;
            for one in further {
                add_further(one, hint, alloc)?;
            }
        }
        None => {
            let column = place.column;
            let cause = format!(in alloc; "column {column}: {why}")?;
            hint.add(Part::Cause, cause.as_bytes())?;
        }
    }
    hint.add_further(Part::More, b"docs/FORMATS.md, \"Litmus tests\"")
}

/// Adds the first fault, and what to write in place of its word, where that is known.
fn add_first(first: &FaultAt, hint: &mut Hint, alloc: Global) -> Result<(), AllocError> {
    let column = first.place.column;
    let what = what_of(first, alloc)?;
    let cause = format!(in alloc; "column {column}: {what}")?;
    hint.add(Part::Cause, cause.as_bytes())?;
    match other_of(first) {
        Some(other) => hint.add(Part::Expected, other.as_bytes()),
        None => Ok(()),
    }
}

/// Adds a fault behind the first, as one part.
fn add_further(one: &FaultAt, hint: &mut Hint, alloc: Global) -> Result<(), AllocError> {
    let (line, column) = (one.place.line, one.place.column);
    let what = what_of(one, alloc)?;
    let said = match other_of(one) {
        Some(other) => format!(in alloc; "line {line}, column {column}: {what}; {other}")?,
        None => format!(in alloc; "line {line}, column {column}: {what}")?,
    };
    hint.add_further(Part::Further, said.as_bytes())
}

/// What to write in place of what is at fault, where that is known.
fn other_of(one: &FaultAt) -> Option<&'static str> {
    match one.fault {
        Fault::LinkRegister => Some("j and the label: a test has no addresses of code"),
        Fault::NoElement => Some("an index or an offset inside: both count from 0"),
        Fault::WholeArray => Some("one of its elements, as x[0]"),
        Fault::NarrowAddress => Some("a number, or a location of 32 bits: an address has as many"),
        Fault::OtherSize => Some("the type that the location has, before the *"),
        _ => in_place_of(one.word.as_str()),
    }
}

/// What is wrong, with the word at fault where there is one.
fn what_of(one: &FaultAt, alloc: Global) -> Result<String, AllocError> {
    let (fault, word) = (one.fault, one.word.as_str());
    if word.is_empty() {
        return format!(in alloc; "{fault}");
    }
    if one.is_instruction {
        return format!(in alloc; "{word} is not known here");
    }
    format!(in alloc; "{fault}: {word}")
}
