//! Reading: the event of a line, its fields from left to right.

ghost use Rattle.std.specs.Prelude.{◌≡◌, ◌==◌, Err, if◌then◌else◌};
ghost use Rattle.text_fields.specs.Splitting.{field_count};
ghost use Rattle.events.specs.Kind.{fields_after};
ghost use Rattle.event_text.specs.declared.read.Rule.TheVariants.{FieldCount};
ghost use Rattle.event_text.specs.Reading.{rule_number, outcome_of, effect_of, fetch_of};
ghost use Rattle.event_text.specs.Reading.{rename_of, complete_of, retire_of, decode_of, issue_of};
ghost use Rattle.event_text.specs.Reading.{drop_of, refetch_of, behind_actor, event_fields};
ghost use Rattle.event_text.specs.Reading.{kind_named};
ghost use Rattle.event_text.specs.Reading.{event_within, of_fields};

use crate::fields::{first_next, first_optional_sized, read_optional_byte, read_phys, written};
use crate::ranges::Ranges;
use events::{Effect, Event, EventKind, Outcome};
use std::fmt;
use text_fields::{
    FieldError, field_count, first_decimal, first_hex, first_optional_hex, read_decimal, read_hex,
    split_field,
};
use thiserror::Error;

/// The first rule that a line of a trace breaks.
#[derive(Clone, Copy, Debug, PartialEq, Eq, Drop, Error)]
pub enum Rule {
    /// The first field is none that the line may begin with.
    FirstField,
    FieldCount,
    Field(FieldError),
}

impl Rule {
    /// Its number: 3 a first field that the line may not begin with, 4 a wrong number of fields, 5 a
    /// field spelled otherwise, 6 a number out of range.
    pub fn number(self) -> u8
        ensures { result ≡ rule_number self }
    {
        match self {
            Rule::FirstField => 3,
            Rule::FieldCount => 4,
            Rule::Field(FieldError::Misspelled) => 5,
            Rule::Field(FieldError::OutOfRange) => 6,
        }
    }
}

impl fmt::Display for Rule {
    fn fmt<W: fmt::Write>(&self, f: &mut fmt::Formatter<W>) -> fmt::Result {
        f.write_str(match self {
            Rule::FirstField => "unknown first field",
            Rule::FieldCount => "wrong number of fields",
            Rule::Field(FieldError::Misspelled) => "a field is spelled otherwise",
            Rule::Field(FieldError::OutOfRange) => "a field is out of range",
        })
    }
}

#[tactic(auto, unfolding(crate::specs::Reading::outcome_of))]
fn read_outcome(fields: &[u8]) -> Result<Outcome, FieldError>
    ensures { result ≡ outcome_of fields.now }
{
    let (value, fields) = first_optional_hex(fields, 8, b' ')?;
    let (next, fields) = first_next(fields)?;
    let (addr, fields) = first_optional_hex(fields, 8, b' ')?;
    let (datum, fields) = first_optional_hex(fields, 8, b' ')?;
    let out = read_optional_byte(fields)?;
    Ok(Outcome {
        value,
        next,
        addr,
        datum,
        out,
    })
}

#[tactic(auto, unfolding(crate::specs::Reading::effect_of))]
fn read_effect(fields: &[u8]) -> Result<Effect, FieldError>
    ensures { result ≡ effect_of fields.now }
{
    let (value, fields) = first_optional_hex(fields, 8, b' ')?;
    let (next, fields) = first_next(fields)?;
    let (addr, fields) = first_optional_hex(fields, 8, b' ')?;
    let (number, fields) = first_optional_sized(fields)?;
    let write = written(addr, number)?;
    let out = read_optional_byte(fields)?;
    Ok(Effect {
        value,
        next,
        write,
        out,
    })
}

#[tactic(auto, unfolding(crate::specs::Reading::fetch_of))]
fn read_fetch(actor: u8, fields: &[u8], ranges: Ranges) -> Result<Event, FieldError>
    ensures { result ≡ fetch_of ranges actor fields.now }
{
    let (hart, fields) = first_decimal(fields, u32::from(ranges.hart), b' ')?;
    let (seq, fields) = first_decimal(fields, ranges.seq, b' ')?;
    let (pc, fields) = first_hex(fields, 8, b' ')?;
    let (word, fields) = first_optional_hex(fields, 8, b' ')?;
    Ok(Event::Fetch {
        actor,
        hart: hart as u8,
        seq,
        pc,
        word,
        predicted: read_hex(fields, 8)?,
    })
}

#[tactic(auto, unfolding(crate::specs::Reading::decode_of))]
fn read_decode(actor: u8, fields: &[u8], ranges: Ranges) -> Result<Event, FieldError>
    ensures { result ≡ decode_of ranges actor fields.now }
{
    let seq = read_decimal(fields, ranges.seq)?;
    Ok(Event::Decode { actor, seq })
}

#[tactic(auto, unfolding(crate::specs::Reading::rename_of))]
fn read_rename(actor: u8, fields: &[u8], ranges: Ranges) -> Result<Event, FieldError>
    ensures { result ≡ rename_of ranges actor fields.now }
{
    let (seq, fields) = first_decimal(fields, ranges.seq, b' ')?;
    let phys = read_phys(fields, ranges.phys)?;
    Ok(Event::Rename { actor, seq, phys })
}

#[tactic(auto, unfolding(crate::specs::Reading::issue_of))]
fn read_issue(actor: u8, fields: &[u8], ranges: Ranges) -> Result<Event, FieldError>
    ensures { result ≡ issue_of ranges actor fields.now }
{
    let seq = read_decimal(fields, ranges.seq)?;
    Ok(Event::Issue { actor, seq })
}

#[tactic(auto, unfolding(crate::specs::Reading::complete_of))]
fn read_complete(actor: u8, fields: &[u8], ranges: Ranges) -> Result<Event, FieldError>
    ensures { result ≡ complete_of ranges actor fields.now }
{
    let (seq, fields) = first_decimal(fields, ranges.seq, b' ')?;
    let outcome = read_outcome(fields)?;
    Ok(Event::Complete {
        actor,
        seq,
        outcome,
    })
}

#[tactic(auto, unfolding(crate::specs::Reading::drop_of))]
fn read_drop(actor: u8, fields: &[u8], ranges: Ranges) -> Result<Event, FieldError>
    ensures { result ≡ drop_of ranges actor fields.now }
{
    let seq = read_decimal(fields, ranges.seq)?;
    Ok(Event::Drop { actor, seq })
}

#[tactic(auto, unfolding(crate::specs::Reading::retire_of))]
fn read_retire(actor: u8, fields: &[u8], ranges: Ranges) -> Result<Event, FieldError>
    ensures { result ≡ retire_of ranges actor fields.now }
{
    let (seq, fields) = first_decimal(fields, ranges.seq, b' ')?;
    let effect = read_effect(fields)?;
    Ok(Event::Retire { actor, seq, effect })
}

#[tactic(auto, unfolding(crate::specs::Reading::refetch_of))]
fn read_refetch(actor: u8, fields: &[u8], ranges: Ranges) -> Result<Event, FieldError>
    ensures { result ≡ refetch_of ranges actor fields.now }
{
    let seq = read_decimal(fields, ranges.seq)?;
    Ok(Event::Refetch { actor, seq })
}

// The event of a kind and an actor.
fn read_behind_actor(
    kind: EventKind,
    actor: u8,
    fields: &[u8],
    ranges: Ranges,
) -> Result<Event, FieldError>
    ensures { result ≡ behind_actor ranges kind actor fields.now }
{
    match kind {
        EventKind::Fetch => read_fetch(actor, fields, ranges),
        EventKind::Decode => read_decode(actor, fields, ranges),
        EventKind::Rename => read_rename(actor, fields, ranges),
        EventKind::Issue => read_issue(actor, fields, ranges),
        EventKind::Complete => read_complete(actor, fields, ranges),
        EventKind::Drop => read_drop(actor, fields, ranges),
        EventKind::Retire => read_retire(actor, fields, ranges),
        EventKind::Refetch => read_refetch(actor, fields, ranges),
    }
}

#[tactic(auto, unfolding(crate::specs::Reading::event_fields))]
fn read_fields(kind: EventKind, fields: &[u8], ranges: Ranges) -> Result<Event, FieldError>
    ensures { result ≡ event_fields ranges kind fields.now }
{
    let (actor, fields) = first_decimal(fields, u32::from(ranges.actor), b' ')?;
    read_behind_actor(kind, actor as u8, fields, ranges)
}

fn kind_named(text: &[u8], ranges: Ranges) -> Option<EventKind>
    ensures { result ≡ kind_named ranges text.now }
{
    if text.len() != 1 {
        return None;
    }
    match EventKind::from_letter(text[0]) {
        Some(EventKind::Refetch) if !ranges.refetches => None,
        named => named,
    }
}

/// The event of a line without its newline, in a version of the trace format that has these ranges,
/// or the first rule that the line breaks, its fields from left to right.
#[tactic(auto, unfolding(crate::specs::Reading::event_within))]
pub fn read_event_within(line: &[u8], ranges: Ranges) -> Result<Event, Rule>
    ensures { result ≡ event_within ranges line.now }
{
    let (letter, fields) = split_field(line, b' ');
    let Some(kind) = kind_named(letter, ranges) else {
        return Err(Rule::FirstField);
    };
    match read_fields(kind, fields, ranges) {
        Ok(event) => Ok(event),
        Err(error) => Err(broken_rule(kind, fields, error)),
    }
}

// The rule that a line breaks whose fields are refused: it may have more or fewer than its kind.
#[cold]
fn broken_rule(kind: EventKind, fields: &[u8], error: FieldError) -> Rule
    ensures { Err result ≡ (if field_count 32 fields.now == fields_after kind
        then of_fields (Err error) else Err FieldCount) }
{
    if field_count(fields, b' ') != kind.fields_after() {
        return Rule::FieldCount;
    }
    Rule::Field(error)
}
