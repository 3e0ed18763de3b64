//! What is told of an issue, and of which job an actor has.

use crate::past::Past;
use crate::sources::write_waits;
use events::Event;
use numbers::Seq;
use rv_instr::unit_name;
use std::io;
use std::io::Write;

/// Writes what an issue to an actor breaks rule 2 by: what the actor is, or which job it has.
pub(crate) fn write_actor<W: Write>(past: &Past<'_>, actor: u8, out: &mut W) -> io::Result<()> {
    let Some(role) = past.role(actor) else {
        return Ok(());
    };
    if role.unit().is_some() {
        return write_job(past, actor, out);
    }
    let name = role.name();
    writeln!(out, "actor: the trace says {actor}, whose role is {name}")
}

/// Writes which job an actor has.
pub(crate) fn write_job<W: Write>(past: &Past<'_>, actor: u8, out: &mut W) -> io::Result<()> {
    write!(out, "actor: the trace says {actor}, which has ")?;
    match job_of(past, actor) {
        Some((seq, place)) => writeln!(out, "the job of number {seq} (event {place})"),
        None => out.write_all(b"no job\n"),
    }
}

/// The instruction of the job that an actor has, and the place of its issue.
fn job_of(past: &Past<'_>, actor: u8) -> Option<(Seq, usize)> {
    let mut job = None;
    for (place, event) in past.events.iter().enumerate() {
        if event.actor() == actor {
            match *event {
                Event::Issue { seq, .. } => job = Some((seq, place)),
                Event::Complete { .. } | Event::Drop { .. } => job = None,
                _ => {}
            }
        }
    }
    job
}

/// Writes what an issue of an instruction breaks a rule from 4 to 6 by.
pub(crate) fn write_issue<W: Write>(
    past: &Past<'_>,
    actor: u8,
    seq: Seq,
    rule: u8,
    wanted: Option<Event>,
    out: &mut W,
) -> io::Result<()> {
    match rule {
        4 => write_unit(past, actor, seq, out),
        5 => write_waits(past, seq, out),
        _ => write_oldest_ready(past, seq, wanted, out),
    }
}

fn write_unit<W: Write>(past: &Past<'_>, actor: u8, seq: Seq, out: &mut W) -> io::Result<()> {
    let Some(role) = past.role(actor) else {
        return Ok(());
    };
    let (unit, name) = (past.op(seq).unit(), role.name());
    let unit = unit_name(&unit);
    writeln!(
        out,
        "unit: number {seq} is for {unit}, actor {actor} is {name}"
    )
}

fn write_oldest_ready<W: Write>(
    past: &Past<'_>,
    seq: Seq,
    wanted: Option<Event>,
    out: &mut W,
) -> io::Result<()> {
    let Some(Event::Issue { seq: oldest, .. }) = wanted else {
        return Ok(());
    };
    let unit = past.op(seq).unit();
    let unit = unit_name(&unit);
    write!(out, "number: the trace says {seq}, ")?;
    writeln!(out, "the oldest ready one for {unit} is {oldest}")
}
