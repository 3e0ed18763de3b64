//! What an event squashes, and why.

ghost use Rattle.std.specs.Prelude.{◌≤◌};

use events::{Effect, Event, History, Next, Outcome, Written};
use numbers::Seq;
use retire_squash::{Active, Stage};
use rv_instr::{Instr, LoadOp, Op};
use shared_memory::{AccessKind, Memory};
use std::io;
use std::io::Write;

/// Why an event squashes instructions of its hart.
#[derive(Clone, Copy, PartialEq, Eq, Drop)]
pub(crate) enum Cause {
    /// It goes on elsewhere than here.
    Mispredicted {
        predicted: u32,
    },
    /// A load whose value was this as it completed, and is another as it retires; the retired write
    /// that was the last to touch its bytes.
    Replayed {
        was: Option<u32>,
        is: Option<u32>,
        writer: Option<Writer>,
    },
    /// It is fetched again: the word at its pc was this, and is another; the retired write that was
    /// the last to touch it.
    Refetched {
        was: Option<u32>,
        is: Option<u32>,
        writer: Option<Writer>,
    },
    HartEnded,
    HartStopped,
}

/// Who wrote: the number of an instruction, and its hart.
#[derive(Clone, Copy, PartialEq, Eq, Drop)]
pub(crate) struct Writer {
    seq: Seq,
    hart: u8,
}

/// Why this event squashes, if it does: `active` is how its instruction stands before it, and
/// `memory` what memory holds then; `made` are the events, of which `before` came before it.
pub(crate) fn cause_of(
    event: &Event,
    active: &Active,
    memory: &Memory,
    made: &History,
    before: usize,
) -> Option<Cause> {
    match *event {
        Event::Complete { outcome, .. } => misprediction(outcome, active.predicted),
        Event::Retire { effect, .. } => retirement(effect, active, made, before),
        Event::Refetch { .. } => Some(Cause::Refetched {
            was: active.word,
            is: word_at(memory, active.pc),
            writer: writer_of(active.pc, 4, made, before),
        }),
        _ => None,
    }
}

/// The word that memory has at an address, where a load has no fault there.
fn word_at(memory: &Memory, addr: u32) -> Option<u32> {
    match memory.fault(addr, 4, AccessKind::Load) {
        None => Some(memory.read(addr, 4)),
        Some(_) => None,
    }
}

fn misprediction(outcome: Outcome, predicted: u32) -> Option<Cause> {
    match outcome.next.redirect_pc(predicted) {
        Some(_) => Some(Cause::Mispredicted { predicted }),
        None => None,
    }
}

fn retirement(effect: Effect, active: &Active, made: &History, before: usize) -> Option<Cause> {
    match effect.next {
        Next::Ended(_) => Some(Cause::HartEnded),
        Next::Stopped(_) => Some(Cause::HartStopped),
        Next::Pc(_) => replay(effect, active, made, before),
    }
}

fn replay(effect: Effect, active: &Active, made: &History, before: usize) -> Option<Cause> {
    let size = load_size(active.op)?;
    let Stage::Completed(outcome) = active.stage else {
        return None;
    };
    if outcome.value == effect.value {
        return None;
    }
    Some(Cause::Replayed {
        was: outcome.value,
        is: effect.value,
        writer: writer_of(outcome.addr.unwrap_or(0), size, made, before),
    })
}

/// How many bytes a load reads; none for what is no load.
fn load_size(op: Op) -> Option<u8> {
    match op {
        Op::Known(Instr::Load { op, .. }) => Some(bytes_of(op)),
        _ => None,
    }
}

fn bytes_of(op: LoadOp) -> u8
    ensures { result ≤ 4 }
{
    match op {
        LoadOp::Lb | LoadOp::Lbu => 1,
        LoadOp::Lh | LoadOp::Lhu => 2,
        LoadOp::Lw => 4,
    }
}

/// The last of the first `before` events that wrote one of these bytes. It is sought from the newest event
/// back: what was written over what an instruction in flight has seen is no older than that instruction.
fn writer_of(addr: u32, size: u8, made: &History, before: usize) -> Option<Writer> {
    for place in (0..before).rev() {
        if let Some(seq) = writes_at(made.get(place), addr, size) {
            return Some(Writer {
                seq,
                hart: hart_of(seq, made, place)?,
            });
        }
    }
    None
}

/// The instruction of a retirement that wrote one of these bytes.
fn writes_at(event: Option<Event>, addr: u32, size: u8) -> Option<Seq> {
    match event {
        Some(Event::Retire { seq, effect, .. }) if overlaps(effect.write, addr, size) => Some(seq),
        _ => None,
    }
}

fn overlaps(write: Option<Written>, addr: u32, size: u8) -> bool {
    let Some(write) = write else {
        return false;
    };
    u64::from(write.addr) < u64::from(addr) + u64::from(size)
        && u64::from(addr) < u64::from(write.addr) + u64::from(write.n)
}

/// The hart of an instruction that was retired behind so many events: that of its fetch.
fn hart_of(number: Seq, made: &History, before: usize) -> Option<u8> {
    for place in (0..before).rev() {
        if let Some(hart) = fetches(made.get(place), number) {
            return Some(hart);
        }
    }
    None
}

fn fetches(event: Option<Event>, number: Seq) -> Option<u8> {
    match event {
        Some(Event::Fetch { hart, seq, .. }) if seq == number => Some(hart),
        _ => None,
    }
}

/// Writes the words of a cause.
pub(crate) fn write_cause<W: Write>(cause: Cause, out: &mut W) -> io::Result<()> {
    match cause {
        Cause::Mispredicted { predicted } => {
            write!(out, "mispredicted: predicted {predicted:08x}")
        }
        Cause::Replayed { was, is, writer } => write_change("replayed", was, is, writer, out),
        Cause::Refetched { was, is, writer } => write_change("refetched", was, is, writer, out),
        Cause::HartEnded => out.write_all(b"hart ended"),
        Cause::HartStopped => out.write_all(b"hart stopped"),
    }
}

/// What was first seen, what is seen now, and who wrote it.
fn write_change<W: Write>(
    name: &str,
    was: Option<u32>,
    is: Option<u32>,
    writer: Option<Writer>,
    out: &mut W,
) -> io::Result<()> {
    out.write_all(name.as_bytes())?;
    write_value(": was ", was, out)?;
    write_value(", is ", is, out)?;
    match writer {
        Some(writer) => write_writer(writer, out),
        None => Ok(()),
    }
}

fn write_value<W: Write>(before: &str, value: Option<u32>, out: &mut W) -> io::Result<()> {
    out.write_all(before.as_bytes())?;
    match value {
        Some(value) => write!(out, "{value:08x}"),
        None => out.write_all(b"-"),
    }
}

fn write_writer<W: Write>(writer: Writer, out: &mut W) -> io::Result<()> {
    let Writer { seq, hart } = writer;
    write!(out, ", written by number {seq} of hart {hart}")
}
