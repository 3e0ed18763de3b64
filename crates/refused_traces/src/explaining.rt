//! Why an event is refused.

ghost use Rattle.std.specs.Prelude.{◌≡◌, IfOk};
ghost use Rattle.refused_traces.specs.Why.{IsWhy};

use crate::fetches::{write_choice, write_pc, write_word};
use crate::fronts::{write_decode, write_oldest, write_rename};
use crate::issues::{write_actor, write_issue, write_job};
use crate::parts::{last_line, text_of_event};
use crate::past::Past;
use crate::places::Holder;
use crate::results::{write_effect, write_fresh, write_outcome, write_stale};
use crate::rules::event_rule;
use crate::standing::write_standing;
use crate::wanted::make_wanted;
use chart_rows::{Row, rows_of};
use events::{Event, History};
use shared_memory::Memory;
use smt_core::Core;
use std::alloc::{AllocError, Global};
use std::io;
use std::io::Write;

/// Which event is refused: it stands behind so many others, on this line of the trace, and breaks this rule.
#[derive(Clone, Copy, PartialEq, Eq, Drop)]
pub struct Place {
    pub index: u32,
    pub line: usize,
    pub rule: u8,
}

/// The lines that say why an event is refused by a core that has followed those before it: the event, the rule, what the
/// trace says and who has something else, and the event that would be accepted there.
///
/// Fails only for want of memory.
pub fn explain_event(
    core: Core,
    event: &Event,
    place: Place,
    alloc: Global,
) -> Result<Vec<u8>, AllocError>
    ensures { IfOk result (λ text. IsWhy core event.now place text.items) }
{
    let (events, rows) = rows_before(&core, alloc)?;
    let config = core.config().copied();
    let past = Past {
        events: events.as_slice(),
        rows: rows.as_slice(),
        config: &config,
    };
    let mut core = core;
    let (wanted, reason) = make_wanted(&mut core, event, past.hart(event.seq()));
    let facts = facts_of(&past, event, place.rule, wanted, &core, alloc)?;
    let last = last_line(wanted, reason, alloc)?;
    text_of_event(event, place, facts.as_slice(), last.as_slice(), alloc)
}

/// The events of a core, and the rows of the instructions that they have fetched.
fn rows_before(core: &Core, alloc: Global) -> Result<(Vec<Event>, Vec<Row>), AllocError> {
    let events = listed(core.history(), alloc)?;
    let rows = rows_of(events.as_slice(), alloc)?;
    Ok((events, rows))
}

/// The events of a history, one after another.
fn listed(history: &History, alloc: Global) -> Result<Vec<Event>, AllocError>
    ensures { IfOk result (λ events. events.items ≡ history.now.items) }
{
    let mut events = Vec::new(alloc);
    for event in history.iter() {
        events.push(event)?;
    }
    Ok(events)
}

/// What is told between the first two lines and the last: the words of the rule, what the trace says, and who has
/// something else.
fn facts_of(
    past: &Past<'_>,
    event: &Event,
    rule: u8,
    wanted: Option<Event>,
    core: &Core,
    alloc: Global,
) -> Result<Vec<u8>, AllocError> {
    let mut facts = Vec::new(alloc);
    let memory = &core.parts().0.memory;
    match write_rule(past, event, rule, wanted, memory, &mut facts) {
        Ok(()) => Ok(facts),
        Err(_) => Err(AllocError),
    }
}

fn write_rule<W: Write>(
    past: &Past<'_>,
    event: &Event,
    rule: u8,
    wanted: Option<Event>,
    memory: &Memory,
    out: &mut W,
) -> io::Result<()> {
    out.write_all(event_rule(event.kind(), rule).as_bytes())?;
    out.write_all(b"\n")?;
    write_facts(past, event, rule, wanted, memory, out)
}

/// Writes what the trace says, and who has something else.
fn write_facts<W: Write>(
    past: &Past<'_>,
    event: &Event,
    rule: u8,
    wanted: Option<Event>,
    memory: &Memory,
    out: &mut W,
) -> io::Result<()> {
    if rule == 1 {
        return write_actors(past, event.actor(), out);
    }
    match *event {
        Event::Fetch { .. } => write_fetch(past, event, rule, wanted, out),
        Event::Decode { seq, .. } | Event::Rename { seq, .. } if rule == 2 => {
            write_standing(past, seq, out)
        }
        Event::Decode { seq, .. } => {
            write_decode(past, seq, past.hart(seq).unwrap_or(0), rule, out)
        }
        Event::Rename { seq, phys, .. } => {
            write_rename(past, seq, phys, past.hart(seq).unwrap_or(0), rule, out)
        }
        Event::Issue { .. } => write_issuing(past, event, rule, wanted, out),
        Event::Complete { .. } | Event::Drop { .. } => {
            write_handing(past, event, rule, wanted, out)
        }
        Event::Retire { .. } | Event::Refetch { .. } => {
            write_leaving(past, event, rule, wanted, memory, out)
        }
    }
}

/// Writes which actors the core has.
fn write_actors<W: Write>(past: &Past<'_>, actor: u8, out: &mut W) -> io::Result<()> {
    let last = past.config.roles.len().saturating_sub(1);
    writeln!(
        out,
        "actor: the trace says {actor}, the core has 0 to {last}"
    )
}

fn write_fetch<W: Write>(
    past: &Past<'_>,
    event: &Event,
    rule: u8,
    wanted: Option<Event>,
    out: &mut W,
) -> io::Result<()> {
    let Event::Fetch {
        hart,
        seq,
        pc,
        word,
        ..
    } = *event
    else {
        return Ok(());
    };
    match rule {
        2 => write_choice(past, hart, wanted, out),
        3 => {
            let next = past.rows.len();
            writeln!(out, "number: the trace says {seq}, the next is {next}")
        }
        4 => write_pc(past, hart, pc, wanted, out),
        _ => write_word(past, pc, word, wanted, out),
    }
}

fn write_issuing<W: Write>(
    past: &Past<'_>,
    event: &Event,
    rule: u8,
    wanted: Option<Event>,
    out: &mut W,
) -> io::Result<()> {
    let (actor, seq) = (event.actor(), event.seq());
    match rule {
        2 => write_actor(past, actor, out),
        3 => write_standing(past, seq, out),
        _ => write_issue(past, actor, seq, rule, wanted, out),
    }
}

/// Writes what a completion or a drop breaks a rule by.
fn write_handing<W: Write>(
    past: &Past<'_>,
    event: &Event,
    rule: u8,
    wanted: Option<Event>,
    out: &mut W,
) -> io::Result<()> {
    if rule == 2 {
        write_job(past, event.actor(), out)?;
    }
    match (*event, wanted) {
        (
            Event::Complete {
                seq,
                outcome: said,
                ..
            },
            Some(Event::Complete { outcome, .. }),
        ) if rule == 4 => write_outcome(past, seq, &said, &outcome, out),
        _ => write_standing(past, event.seq(), out),
    }
}

/// Writes what a retirement or a refetch breaks a rule by.
fn write_leaving<W: Write>(
    past: &Past<'_>,
    event: &Event,
    rule: u8,
    wanted: Option<Event>,
    memory: &Memory,
    out: &mut W,
) -> io::Result<()> {
    let seq = event.seq();
    match rule {
        2 => write_standing(past, seq, out),
        3 => write_oldest(past, seq, Holder::Flight(past.hart(seq).unwrap_or(0)), out),
        _ => write_effect_or_words(past, event, wanted, memory, out),
    }
}

fn write_effect_or_words<W: Write>(
    past: &Past<'_>,
    event: &Event,
    wanted: Option<Event>,
    memory: &Memory,
    out: &mut W,
) -> io::Result<()> {
    let Event::Retire {
        seq,
        effect: said,
        ..
    } = *event
    else {
        return write_fresh(past, event.seq(), out);
    };
    match wanted {
        Some(Event::Retire { effect, .. }) => write_effect(past, seq, &said, &effect, out),
        _ => write_stale(past, seq, memory, out),
    }
}
