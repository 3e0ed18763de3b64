//! A line of a trace that is refused: as a text, as an event, or by a command.

use crate::event_rules::rule_of_event;
use crate::inside_text::{add_line, line_at};
use crate::line_fault::LineFault;
use crate::named_files::add_second;
use hints::{Hint, Part};
use std::alloc::{AllocError, Global};

/// The first line of a trace without a line of its core.
const VERSION_1: &[u8] = b"smt-trace 1";

/// Adds the line of a trace with this number, from 1, and the rule of its text that it breaks.
pub(crate) fn add_trace_line(
    number: usize,
    rule: u8,
    fault: &LineFault<'_, '_>,
    hint: &mut Hint,
    alloc: Global,
) -> Result<(), AllocError> {
    add_second(fault, hint, alloc)?;
    let Ok(text) = fault.inputs.second else {
        return Ok(());
    };
    add_line(text, number, hint, alloc)?;
    hint.add(Part::Cause, broken_rule(rule).as_bytes())?;
    let line = line_at(text, number).unwrap_or(b"");
    hint.add(Part::Expected, form_of(number, line, rule).as_bytes())
}

/// What a line does that breaks this rule.
fn broken_rule(rule: u8) -> &'static str {
    match rule {
        1 => "it isn't the first line of a trace",
        2 => "no newline ends it",
        3 => "it begins otherwise",
        4 => "it has another number of fields",
        5 => "a field is spelled otherwise",
        _ => "a number is out of range",
    }
}

/// What may stand in a line of a trace that breaks this rule.
fn form_of(number: usize, line: &[u8], rule: u8) -> &'static str {
    match (rule, line.first()) {
        (1, _) => "smt-trace 3, smt-trace 2 or smt-trace 1",
        (2, _) => "a newline behind each line",
        (_, Some(b'c')) => "config harts extra queue role ..",
        (_, Some(b'F')) => "F actor hart number pc word predicted",
        (_, Some(b'D')) => "D actor number",
        (_, Some(b'R')) => "R actor number register",
        (_, Some(b'I')) => "I actor number",
        (_, Some(b'C')) => "C actor number value next address data out",
        (_, Some(b'X')) => "X actor number",
        (_, Some(b'T')) => "T actor number value next address data out",
        (4..=6, Some(b'G')) => "G actor number",
        _ if number == 2 => "config harts extra queue role ..",
        _ => "an event: F, D, R, I, C, X, T or G, which version 3 alone has",
    }
}

/// Adds the event of a trace at this place, from 0, and the rule that it breaks.
pub(crate) fn add_event(
    index: u32,
    rule: u8,
    fault: &LineFault<'_, '_>,
    hint: &mut Hint,
    alloc: Global,
) -> Result<(), AllocError> {
    let letter = add_event_line(index, fault, hint, alloc)?;
    hint.add(Part::Expected, rule_of_event(letter, rule).as_bytes())?;
    hint.add(Part::More, b"docs/TRACES.md")
}

/// Adds the event of a trace at this place, from 0, and what it would have to be.
pub(crate) fn add_other_event(
    index: u32,
    expected: &str,
    fault: &LineFault<'_, '_>,
    hint: &mut Hint,
    alloc: Global,
) -> Result<(), AllocError> {
    add_event_line(index, fault, hint, alloc)?;
    hint.add(Part::Expected, expected.as_bytes())
}

/// Adds the line of an event, and answers its letter.
fn add_event_line(
    index: u32,
    fault: &LineFault<'_, '_>,
    hint: &mut Hint,
    alloc: Global,
) -> Result<u8, AllocError> {
    add_second(fault, hint, alloc)?;
    let Ok(text) = fault.inputs.second else {
        return Ok(b' ');
    };
    let heads = match line_at(text, 1) {
        Some(VERSION_1) => 1,
        _ => 2,
    };
    let number = (index as usize).saturating_add(heads).saturating_add(1);
    add_line(text, number, hint, alloc)?;
    let line = line_at(text, number).unwrap_or(b"");
    Ok(line.first().copied().unwrap_or(b' '))
}
