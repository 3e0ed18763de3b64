//! The parts of what is told, put together.

ghost use Rattle.std.specs.Prelude.{◌≡◌, ◌++◌, ◌∷◌, [], IfOk, IfSome, IfNone};
ghost use Rattle.refused_traces.specs.Why.{IsNoneWanted, event_head, line_head, rule_head, wanted_line};

use crate::explaining::Place;
use arrayvec::ArrayString;
use event_text::push_event;
use events::Event;
use reasons::Reason;
use std::alloc::{AllocError, Global};
use std::io::Write;
use text_fields::{push_ascii, push_decimal, push_number, push_small_number};

/// The line of an event that is refused, and up to the words of its rule.
fn event_head(event: &Event, place: Place) -> ArrayString<128>
    ensures { result.bytes ≡ event_head place event.now }
{
    let mut head = ArrayString::new();
    head.push_str("event ");
    push_number(&mut head, place.index);
    head.push_str(", line ");
    push_decimal(&mut head, place.line);
    head.push_str(": ");
    push_event(&mut head, event);
    head.push_str("\nrule ");
    push_small_number(&mut head, place.rule);
    head.push_str(": ");
    head
}

/// The begin of what is told of a line.
fn line_head(line: usize) -> ArrayString<32>
    ensures { result.bytes ≡ line_head line }
{
    let mut head = ArrayString::new();
    head.push_str("line ");
    push_decimal(&mut head, line);
    head.push_str(": ");
    head
}

/// The end of its first line, and up to the words of its rule.
fn rule_head(rule: u8) -> ArrayString<16>
    ensures { result.bytes ≡ rule_head rule }
{
    let mut head = ArrayString::new();
    head.push_str("\nrule ");
    push_small_number(&mut head, rule);
    head.push_str(": ");
    head
}

/// The line of the event that is wanted, or why there is none.
pub(crate) fn last_line(
    wanted: Option<Event>,
    reason: Option<Reason>,
    alloc: Global,
) -> Result<Vec<u8>, AllocError>
    ensures told { IfOk result (λ last. IfSome wanted (λ w. last.items ≡ wanted_line w)) }
    ensures none { IfOk result (λ last. IfNone wanted (IsNoneWanted last.items)) }
{
    match wanted {
        Some(event) => copied(wanted_line(&event).as_str().as_bytes(), alloc),
        None => none_line(reason, alloc),
    }
}

fn wanted_line(event: &Event) -> ArrayString<80>
    ensures { result.bytes ≡ wanted_line event.now }
{
    let mut line = ArrayString::new();
    line.push_str("wanted: ");
    push_event(&mut line, event);
    push_ascii(&mut line, b'\n');
    line
}

fn copied(text: &[u8], alloc: Global) -> Result<Vec<u8>, AllocError>
    ensures { IfOk result (λ copy. copy.items ≡ text.now) }
{
    let mut copy = Vec::with_capacity(alloc, text.len())?;
    copy.extend_from_slice(text)?;
    Ok(copy)
}

/// That no event of the kind can come, and why.
fn none_line(reason: Option<Reason>, alloc: Global) -> Result<Vec<u8>, AllocError>
    ensures { IfOk result (λ last. IsNoneWanted last.items) }
{
    let why = written_reason(reason, alloc)?;
    let mut line = Vec::new(alloc);
    line.extend_from_slice(b"wanted: none")?;
    line.extend_from_slice(why.as_slice())?;
    Ok(line)
}

fn written_reason(reason: Option<Reason>, alloc: Global) -> Result<Vec<u8>, AllocError> {
    let mut text = Vec::new(alloc);
    let written = match reason {
        Some(reason) => write!(text, ", {reason}\n"),
        None => text.write_all(b"\n"),
    };
    match written {
        Ok(()) => Ok(text),
        Err(_) => Err(AllocError),
    }
}

/// What is told of an event: its head, what is told between, and the last line.
pub(crate) fn text_of_event(
    event: &Event,
    place: Place,
    facts: &[u8],
    last: &[u8],
    alloc: Global,
) -> Result<Vec<u8>, AllocError>
    ensures { IfOk result (λ text. text.items ≡ event_head place event.now ++ (facts.now ++ last.now)) }
{
    let head = event_head(event, place);
    joined(head.as_str().as_bytes(), facts, last, alloc)
}

/// What is told of a line: the line as it is shown, and what is told of its rule.
pub(crate) fn text_of_line(
    line: usize,
    rule: u8,
    shown: &[u8],
    may: &[u8],
    alloc: Global,
) -> Result<Vec<u8>, AllocError>
    ensures { IfOk result
        (λ text. text.items ≡ line_head line ++ (shown.now ++ (rule_head rule ++ may.now))) }
{
    let behind = rule_text(rule, may, alloc)?;
    let head = line_head(line);
    joined(head.as_str().as_bytes(), shown, behind.as_slice(), alloc)
}

fn rule_text(rule: u8, may: &[u8], alloc: Global) -> Result<Vec<u8>, AllocError>
    ensures { IfOk result (λ text. text.items ≡ rule_head rule ++ may.now) }
{
    let head = rule_head(rule);
    let mut text = Vec::new(alloc);
    text.extend_from_slice(head.as_str().as_bytes())?;
    text.extend_from_slice(may)?;
    Ok(text)
}

/// Three texts, one behind the other.
fn joined(head: &[u8], middle: &[u8], last: &[u8], alloc: Global) -> Result<Vec<u8>, AllocError>
    ensures { IfOk result (λ text. text.items ≡ head.now ++ (middle.now ++ last.now)) }
{
    let mut text = Vec::new(alloc);
    text.extend_from_slice(head)?;
    text.extend_from_slice(middle)?;
    text.extend_from_slice(last)?;
    Ok(text)
}
