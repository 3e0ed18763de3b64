//! What is told of a decode and of a rename.

use crate::past::{Past, op_of};
use crate::places::{Holder, oldest_in, write_holder};
use chart_rows::Row;
use events::Event;
use numbers::sizes::{LATCH_ROOM, MOST_ACCESSES, MOST_IN_FLIGHT, RENAMED_REGISTERS};
use numbers::{Phys, Seq};
use std::io;
use std::io::Write;

/// Writes which instruction is the oldest in a place of a hart, where a trace says another.
pub(crate) fn write_oldest<W: Write>(
    past: &Past<'_>,
    seq: Seq,
    holder: Holder,
    out: &mut W,
) -> io::Result<()> {
    let Some(oldest) = oldest_in(past, holder) else {
        return Ok(());
    };
    write!(out, "number: the trace says {seq}, ")?;
    match holder {
        Holder::DecodeLatch(hart) => write!(out, "the oldest fetched of hart {hart}")?,
        Holder::RenameLatch(hart) => write!(out, "the oldest decoded of hart {hart}")?,
        Holder::Flight(hart) => write!(out, "the oldest in flight of hart {hart}")?,
        _ => out.write_all(b"the oldest")?,
    }
    writeln!(out, " is {oldest}")
}

/// Writes what a decode of a hart's instruction breaks rule 3 or 4 by.
pub(crate) fn write_decode<W: Write>(
    past: &Past<'_>,
    seq: Seq,
    hart: u8,
    rule: u8,
    out: &mut W,
) -> io::Result<()> {
    match rule {
        3 => write_oldest(past, seq, Holder::DecodeLatch(hart), out),
        _ => write_holder(past, Holder::RenameLatch(hart), LATCH_ROOM, out),
    }
}

/// Writes what a rename of a hart's instruction breaks a rule from 3 to 9 by.
pub(crate) fn write_rename<W: Write>(
    past: &Past<'_>,
    seq: Seq,
    phys: Option<Phys>,
    hart: u8,
    rule: u8,
    out: &mut W,
) -> io::Result<()> {
    let queue = usize::from(past.config.queue);
    match rule {
        3 => write_oldest(past, seq, Holder::RenameLatch(hart), out),
        4 => write_holder(past, Holder::Queue, queue, out),
        5 => write_holder(past, Holder::Flight(hart), MOST_IN_FLIGHT, out),
        6 => write_holder(past, Holder::Loads(hart), MOST_ACCESSES, out),
        7 => write_holder(past, Holder::Stores(hart), MOST_ACCESSES, out),
        8 => write_fitting(past, seq, phys, out),
        _ => write_owner(past, phys, out),
    }
}

/// Writes whether the instruction writes a register.
fn write_fitting<W: Write>(
    past: &Past<'_>,
    seq: Seq,
    phys: Option<Phys>,
    out: &mut W,
) -> io::Result<()> {
    match phys {
        Some(phys) => write!(out, "register: the trace says {phys}, ")?,
        None => out.write_all(b"register: the trace says -, ")?,
    }
    let register = past.op(seq).destination();
    if register == 0 {
        return writeln!(out, "number {seq} writes none");
    }
    writeln!(out, "number {seq} writes x{register}")
}

/// Writes who has a physical register, or which the core has.
fn write_owner<W: Write>(past: &Past<'_>, phys: Option<Phys>, out: &mut W) -> io::Result<()> {
    let Some(phys) = phys else {
        return Ok(());
    };
    write!(out, "register: the trace says {phys}, ")?;
    let first = RENAMED_REGISTERS.saturating_mul(u16::from(past.config.harts));
    let registers = first.saturating_add(past.config.extra);
    if phys >= registers {
        let last = registers.saturating_sub(1);
        return writeln!(out, "the core has 0 to {last}");
    }
    match last_given(past, phys) {
        Some((seq, row)) => write_holding(seq, &row, out),
        None => {
            let (hart, register) = (phys / RENAMED_REGISTERS, phys % RENAMED_REGISTERS + 1);
            writeln!(out, "hart {hart} has it for x{register}, from the start")
        }
    }
}

/// Writes that an instruction has a register, or has had it and left it to its hart.
fn write_holding<W: Write>(seq: Seq, row: &Row, out: &mut W) -> io::Result<()> {
    let (hart, register) = (row.hart, op_of(row).destination());
    let place = row.renamed.unwrap_or(0);
    match row.retired {
        Some(retired) => {
            write!(out, "hart {hart} has it for x{register}, ")?;
            writeln!(out, "of number {seq} (event {retired})")
        }
        None => {
            write!(out, "number {seq} of hart {hart} has it for x{register}")?;
            writeln!(out, " (event {place})")
        }
    }
}

/// The instruction that was given a register last, and its row.
fn last_given(past: &Past<'_>, phys: Phys) -> Option<(Seq, Row)> {
    let mut found = None;
    for event in past.events {
        if let Event::Rename {
            seq,
            phys: given,
            ..
        } = *event
        {
            if given == Some(phys) {
                found = Some(seq);
            }
        }
    }
    let seq = found?;
    Some((seq, past.row(seq)?))
}
