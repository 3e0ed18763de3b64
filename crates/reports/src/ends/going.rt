//! Why a run has ended with a hart still going, and what that hart waits for.

use crate::ends::RunEnd;
use core_parts::HartState;
use numbers::Seq;
use retire_squash::{Active, Stage};
use rv_decode::decode_op;
use rv_instr::{Op, UnitKind};
use smt_core::Core;
use std::io;
use std::io::Write;

/// Writes the line of a hart that is going.
pub(crate) fn write_going<W: Write>(
    core: &Core,
    hart: u8,
    end: RunEnd,
    out: &mut W,
) -> io::Result<()> {
    write!(out, "hart {hart} going: ")?;
    write_end(core, end, out)?;
    // A core has the state of each of its harts.
    if let Some(state) = core.parts().0.harts.as_slice().get(usize::from(hart)) {
        write_waiting(state, out)?;
    }
    out.write_all(b"\n")
}

/// Why the run has ended.
fn write_end<W: Write>(core: &Core, end: RunEnd, out: &mut W) -> io::Result<()> {
    match end {
        RunEnd::Trace => out.write_all(b"trace at its end"),
        RunEnd::Script | RunEnd::Turns if core.is_full() => {
            let limit = core.history().limit();
            write!(out, "limit of {limit} events reached")
        }
        RunEnd::Script => out.write_all(b"script at its end"),
        RunEnd::Turns => out.write_all(b"turns used up"),
    }
}

/// The hart's oldest instruction, and what that waits for.
fn write_waiting<W: Write>(state: &HartState, out: &mut W) -> io::Result<()> {
    if let Some(active) = state.active.head() {
        write_instruction(active.seq, active.word, active.pc, out)?;
        return write_stage(active, out);
    }
    if let Some(slot) = state.rename_latch.as_slice().first() {
        write_instruction(slot.seq, slot.word, slot.pc, out)?;
        return out.write_all(b" waits to be renamed");
    }
    if let Some(slot) = state.decode_latch.as_slice().first() {
        write_instruction(slot.seq, slot.word, slot.pc, out)?;
        return out.write_all(b" waits to be decoded");
    }
    write!(out, "; nothing fetched, next is {:08x}", state.fetch_pc)
}

/// The number of an instruction, its spelling and its pc.
fn write_instruction<W: Write>(
    seq: Seq,
    word: Option<u32>,
    pc: u32,
    out: &mut W,
) -> io::Result<()> {
    write!(out, "; number {seq}, ")?;
    match decode_op(word) {
        Op::Known(instr) => write!(out, "{}", rv_text::print(instr, pc))?,
        Op::Illegal => out.write_all(b".word")?,
        Op::NoWord => out.write_all(b"-")?,
    }
    write!(out, " at {pc:08x},")
}

/// What an instruction in flight waits for, where no older one of its hart is in flight: none of its
/// sources is one that it could wait for.
fn write_stage<W: Write>(active: &Active, out: &mut W) -> io::Result<()> {
    let unit = unit_name(active.op.unit());
    match active.stage {
        Stage::Renamed => write!(out, " waits for {unit} unit"),
        Stage::Issued => write!(out, " is with {unit} unit"),
        Stage::Completed(_) => out.write_all(b" waits to retire"),
    }
}

fn unit_name(unit: UnitKind) -> &'static str {
    match unit {
        UnitKind::Alu => "an alu",
        UnitKind::Mul => "a mul",
        UnitKind::Mem => "a mem",
    }
}
