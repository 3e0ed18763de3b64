//! Whose number an operand is.

use crate::past::{Past, op_of};
use crate::standing::progress_of;
use chart_rows::Row;
use events::Event;
use numbers::{Reg, Seq};
use std::io;
use std::io::Write;

/// The registers that an instruction reads, each once; x0 is none of them.
pub(crate) fn registers_read(past: &Past<'_>, seq: Seq) -> [Option<Reg>; 2] {
    let op = past.op(seq);
    let first = named(op.rs1());
    let second = named(op.rs2());
    if first == second {
        return [first, None];
    }
    [first, second]
}

fn named(register: Option<Reg>) -> Option<Reg> {
    match register {
        Some(0) | None => None,
        Some(register) => Some(register),
    }
}

/// The instruction whose number an instruction reads in a register: the youngest older one of its hart that writes the
/// register and isn't squashed. None where that is what the register held at the start.
pub(crate) fn writer_for(past: &Past<'_>, seq: Seq, register: Reg) -> Option<Seq> {
    let hart = past.hart(seq)?;
    let mut found = None;
    for older in 0..seq {
        if let Some(row) = past.row(older) {
            if writes(&row, hart, register) {
                found = Some(older);
            }
        }
    }
    found
}

fn writes(row: &Row, hart: u8, register: Reg) -> bool {
    row.hart == hart && row.squashed.is_none() && op_of(row).destination() == register
}

/// The number that an instruction has given its register, and the place of the event that said it: its completion, or
/// of an LR, SC or AMO its retirement. None where it has none yet.
pub(crate) fn given_by(past: &Past<'_>, writer: Seq) -> Option<(u32, u32)> {
    let row = past.row(writer)?;
    if let Some(value) = row.value {
        return Some((value, row.completed?));
    }
    let place = row.retired?;
    match past.event(place) {
        Some(Event::Retire { effect, .. }) => Some((effect.value?, place)),
        _ => None,
    }
}

/// Writes a line for each register that an instruction waits for.
pub(crate) fn write_waits<W: Write>(past: &Past<'_>, seq: Seq, out: &mut W) -> io::Result<()> {
    for register in registers_read(past, seq) {
        if let Some(register) = register {
            write_wait(past, seq, register, out)?;
        }
    }
    Ok(())
}

fn write_wait<W: Write>(past: &Past<'_>, seq: Seq, register: Reg, out: &mut W) -> io::Result<()> {
    let Some(writer) = writer_for(past, seq, register) else {
        return Ok(());
    };
    if given_by(past, writer).is_some() {
        return Ok(());
    }
    let Some(row) = past.row(writer) else {
        return Ok(());
    };
    let (progress, place) = progress_of(&row);
    write!(
        out,
        "number {seq} waits for x{register} of number {writer}, "
    )?;
    writeln!(out, "which is {progress} (event {place})")
}

/// Writes a line for each register that an instruction has read: what it held, and of whom.
pub(crate) fn write_operands<W: Write>(past: &Past<'_>, seq: Seq, out: &mut W) -> io::Result<()> {
    for register in registers_read(past, seq) {
        if let Some(register) = register {
            write_operand(past, seq, register, out)?;
        }
    }
    Ok(())
}

fn write_operand<W: Write>(
    past: &Past<'_>,
    seq: Seq,
    register: Reg,
    out: &mut W,
) -> io::Result<()> {
    match writer_for(past, seq, register) {
        Some(writer) => {
            let Some((value, place)) = given_by(past, writer) else {
                return Ok(());
            };
            write!(out, "x{register} is {value:08x}, ")?;
            writeln!(out, "of number {writer} (event {place})")
        }
        None => {
            let value = first_number(past, seq, register);
            writeln!(out, "x{register} is {value:08x}, from the start")
        }
    }
}

/// What a register of an instruction's hart holds at the start.
fn first_number(past: &Past<'_>, seq: Seq, register: Reg) -> u32 {
    match register {
        10 => u32::from(past.hart(seq).unwrap_or(0)),
        11 => u32::from(past.config.harts),
        _ => 0,
    }
}
