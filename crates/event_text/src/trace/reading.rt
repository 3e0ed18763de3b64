//! Reading: the events of a text, or the first line that is refused.

ghost use Rattle.std.specs.Prelude.{◌≡◌, ◌==◌, ◌++◌, List, IfOk, IfErr, IfSome, IfNone, true, false};
ghost use Rattle.text_fields.specs.Splitting.{field, field_count};
ghost use Rattle.events.specs.declared.event.Event.{Event as AnyEvent};
ghost use Rattle.event_text.specs.declared.head.TraceHead.{TraceHead as AnyHead};
ghost use Rattle.event_text.specs.declared.trace.reading.TraceRefused.TheVariants.{Memory};
ghost use Rattle.event_text.specs.Core.{AreCoreSizes};
ghost use Rattle.event_text.specs.Heads.{config_line, ended, head_lines};
ghost use Rattle.event_text.specs.Line.{line_of};
ghost use Rattle.event_text.specs.Ranges.{IsEventWithin};
ghost use Rattle.event_text.specs.Refusals.{IsRefusedFor, Gives};
ghost use Rattle.event_text.specs.Trace.{event_lines, trace_text, AreWithin, IsHead};
ghost use Rattle.event_text.specs.Trace.{Breaks, BreaksConfig, BreaksEvent};

use crate::head::{LaterVersion, TraceHead, TraceHeader};
use crate::ranges::Ranges;
use crate::read::read_event_within;
use crate::trace::Trace;
use crate::trace::config::read_config_line;
use events::Event;
use memchr::memchr;
use std::alloc::{AllocFailed, Global};
use thiserror::Error;

/// About how many bytes a line of a trace has, rather too few: room for so many events is made at
/// once, and they seldom move.
const USUAL_LINE: usize = 20;

/// Why a text is no trace.
#[derive(Clone, Copy, Debug, PartialEq, Eq, Drop, Error)]
pub enum TraceRefused {
    /// The line, from 1, is the first that breaks a rule, and the rule the first that it breaks: 1
    /// it names no version, 2 no newline ends it, and 3 to 6 as `Rule` numbers them.
    #[error("trace line {line} refused {rule}")]
    Line { line: usize, rule: u8 },
    #[error("memory")]
    Memory,
}

impl From<AllocFailed<Event>> for TraceRefused {
    ghost from_gives = { λ _ refused. refused ≡ Memory };

    fn from(_error: AllocFailed<Event>) -> Self {
        TraceRefused::Memory
    }
}

/// Reads a trace, of version 1, 2 or 3: the lines that say how it begins and a line for each event,
/// each ended by a newline. Any bytes may come.
pub fn read_trace(text: &[u8], alloc: Global) -> Result<Trace, TraceRefused>
    ensures read { IfOk result (λ trace. text.now ≡ trace_text trace.head trace.events) }
    ensures is_head { IfOk result (λ trace. IsHead trace.head) }
    ensures in_range { IfOk result (λ trace. AreWithin trace.head trace.events) }
    ensures refused { IfErr result (IsRefusedFor text.now) }
    ensures back { (head : AnyHead) (events : List AnyEvent) → IsHead head → AreWithin head events
        → text.now ≡ trace_text head events → Gives head events result }
{
    read_parts(text, alloc)
}

fn read_parts(text: &[u8], alloc: Global) -> Result<Trace, TraceRefused>
    ensures read { IfOk result (λ trace. text.now ≡ trace_text trace.head trace.events) }
    ensures is_head { IfOk result (λ trace. IsHead trace.head) }
    ensures in_range { IfOk result (λ trace. AreWithin trace.head trace.events) }
    ensures refused { IfErr result (IsRefusedFor text.now) }
{
    let (head, lines) = match read_head(text) {
        Ok(parts) => parts,
        Err(refused) => return Err(refused),
    };
    let events = read_events(&head, lines, alloc)?;
    Ok(Trace { head, events })
}

// How a text begins, and the lines behind that.
fn read_head(text: &[u8]) -> Result<(TraceHead, &[u8]), TraceRefused>
    ensures read { IfOk result (λ p. text.now ≡ head_lines p.0 ++ p.1.now) }
    ensures is_head { IfOk result (λ p. IsHead p.0) }
    ensures refused { IfErr result (IsRefusedFor text.now) }
{
    let Some((line, behind)) = split_line(text) else {
        return Err(TraceRefused::Line { line: 1, rule: 2 });
    };
    if line == b"smt-trace 1".as_slice() {
        return Ok((TraceHead::First, behind));
    }
    let Some(version) = LaterVersion::named(line) else {
        return Err(TraceRefused::Line { line: 1, rule: 1 });
    };
    match read_core(behind) {
        Ok((header, behind)) => Ok((TraceHead::Later(version, header), behind)),
        Err(rule) => Err(TraceRefused::Line { line: 2, rule }),
    }
}

// The core of the first line and the text behind it, or the rule that this line breaks.
#[tactic(auto, unfolding(crate::specs::Trace::Breaks))]
fn read_core(text: &[u8]) -> Result<(TraceHeader, &[u8]), u8>
    ensures read { IfOk result (λ p. text.now ≡ ended (config_line p.0) ++ p.1.now) }
    ensures sizes { IfOk result (λ p. AreCoreSizes p.0) }
    ensures broken { IfErr result (Breaks BreaksConfig text.now) }
{
    let Some((line, behind)) = split_line(text) else {
        return Err(2);
    };
    match read_config_line(line) {
        Ok(header) => Ok((header, behind)),
        Err(rule) => Err(rule.number()),
    }
}

// The events of all lines behind those that say how a trace begins.
fn read_events(head: &TraceHead, lines: &[u8], alloc: Global) -> Result<Vec<Event>, TraceRefused>
    requires { IsHead head.now }
    ensures read { IfOk result (λ events. lines.now ≡ event_lines events.items) }
    ensures in_range { IfOk result (λ events. AreWithin head.now events.items) }
    ensures refused { IfErr result (IsRefusedFor (head_lines head.now ++ lines.now)) }
{
    let ranges = head.ranges();
    let mut rest = lines;
    let Ok(mut events) = Vec::with_capacity(alloc, rest.len() / USUAL_LINE) else {
        return Err(TraceRefused::Memory);
    };
    while !rest.is_empty() {
        match read_first_event(rest, ranges) {
            Ok((event, others)) => {
                events.push(event)?;
                rest = others;
            }
            Err(rule) => {
                let line = events.len() + head.line_count() + 1;
                return Err(TraceRefused::Line { line, rule });
            }
        }
    }
    Ok(events)
}

// The event of the first line and the text behind it, or the rule that this line breaks.
#[tactic(auto, unfolding(crate::specs::Trace::Breaks))]
fn read_first_event(text: &[u8], ranges: Ranges) -> Result<(Event, &[u8]), u8>
    ensures read { IfOk result (λ p. text.now ≡ ended (line_of p.0) ++ p.1.now) }
    ensures in_range { IfOk result (λ p. IsEventWithin ranges p.0) }
    ensures broken { IfErr result (Breaks (BreaksEvent ranges) text.now) }
{
    let Some((line, rest)) = split_line(text) else {
        return Err(2);
    };
    match read_event_within(line, ranges) {
        Ok(event) => Ok((event, rest)),
        Err(broken) => Err(broken.number()),
    }
}

// The first line without its newline, and the text behind it, where a newline ends it.
fn split_line(text: &[u8]) -> Option<(&[u8], &[u8])>
    ensures parts { IfSome result (λ p. text.now ≡ ended p.0.now ++ p.1.now) }
    ensures first { IfSome result (λ p. p.0.now ≡ field 10 text.now) }
    ensures ended { IfSome result (λ p. (field_count 10 text.now == 1) ≡ false) }
    ensures cut { IfNone result ((field_count 10 text.now == 1) ≡ true) }
{
    let end = memchr(b'\n', text)?;
    Some((&text[..end], &text[end + 1..]))
}
