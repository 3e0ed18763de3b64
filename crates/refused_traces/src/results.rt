//! What a completion or a retirement has, and has to have.

use crate::fetches::write_optional;
use crate::memory::{accessed_by, forwarding_store, write_doer, write_reservation, write_writer};
use crate::past::Past;
use crate::sources::write_operands;
use chart_rows::Row;
use events::{Effect, Next, Outcome, Written};
use numbers::Seq;
use rv_execute::access_size;
use rv_instr::Kind;
use shared_memory::{AccessKind, Memory};
use std::io;
use std::io::Write;

/// A field of a completion or a retirement.
#[derive(Clone, Copy, PartialEq, Eq, Drop)]
enum Name {
    Value,
    Next,
    Address,
    Data,
    Out,
}

impl Name {
    fn text(self) -> &'static str {
        match self {
            Name::Value => "value",
            Name::Next => "next",
            Name::Address => "address",
            Name::Data => "data",
            Name::Out => "out",
        }
    }
}

/// What stands in a field.
#[derive(Clone, Copy, PartialEq, Eq, Drop)]
enum Content {
    None,
    Word(u32),
    /// The number of a write of so many bytes.
    Sized(u8, u32),
    Byte(u8),
    Next(Next),
}

fn optional_word(word: Option<u32>) -> Content {
    match word {
        Some(word) => Content::Word(word),
        None => Content::None,
    }
}

fn optional_byte(byte: Option<u8>) -> Content {
    match byte {
        Some(byte) => Content::Byte(byte),
        None => Content::None,
    }
}

/// The fields behind the number of a completion, in their order.
fn outcome_fields(outcome: &Outcome) -> [(Name, Content); 5] {
    [
        (Name::Value, optional_word(outcome.value)),
        (Name::Next, Content::Next(outcome.next)),
        (Name::Address, optional_word(outcome.addr)),
        (Name::Data, optional_word(outcome.datum)),
        (Name::Out, optional_byte(outcome.out)),
    ]
}

/// Those of a retirement.
fn effect_fields(effect: &Effect) -> [(Name, Content); 5] {
    let (address, data) = write_fields(effect.write);
    [
        (Name::Value, optional_word(effect.value)),
        (Name::Next, Content::Next(effect.next)),
        (Name::Address, address),
        (Name::Data, data),
        (Name::Out, optional_byte(effect.out)),
    ]
}

fn write_fields(write: Option<Written>) -> (Content, Content) {
    match write {
        Some(write) => (
            Content::Word(write.addr),
            Content::Sized(write.n, write.datum),
        ),
        None => (Content::None, Content::None),
    }
}

fn write_content<W: Write>(content: Content, out: &mut W) -> io::Result<()> {
    match content {
        Content::None => out.write_all(b"-"),
        Content::Word(word) => write!(out, "{word:08x}"),
        Content::Sized(1, number) => write!(out, "{number:02x}"),
        Content::Sized(2, number) => write!(out, "{number:04x}"),
        Content::Sized(_, number) => write!(out, "{number:08x}"),
        Content::Byte(byte) => write!(out, "{byte:02x}"),
        Content::Next(Next::Pc(pc)) => write!(out, "p{pc:08x}"),
        Content::Next(Next::Ended(status)) => write!(out, "e{status:08x}"),
        Content::Next(Next::Stopped(cause)) => write!(out, "s{cause}"),
    }
}

/// Writes what a trace says in a field, and up to who has something else there.
fn write_said<W: Write>(name: Name, said: Content, out: &mut W) -> io::Result<()> {
    let name = name.text();
    write!(out, "{name}: the trace says ")?;
    write_content(said, out)?;
    out.write_all(b", ")
}

/// Writes each field of a completion that isn't what its instruction computes, and its operands.
pub(crate) fn write_outcome<W: Write>(
    past: &Past<'_>,
    seq: Seq,
    said: &Outcome,
    wanted: &Outcome,
    out: &mut W,
) -> io::Result<()> {
    let (said, fields) = (outcome_fields(said), outcome_fields(wanted));
    for place in 0..5 {
        let (name, has) = fields[place];
        let (_, says) = said[place];
        if says != has {
            write_said(name, says, out)?;
            write_computed(past, seq, name, has, wanted, out)?;
        }
    }
    write_operands(past, seq, out)
}

/// Writes who has what in a field of a completion.
fn write_computed<W: Write>(
    past: &Past<'_>,
    seq: Seq,
    name: Name,
    has: Content,
    wanted: &Outcome,
    out: &mut W,
) -> io::Result<()> {
    let op = past.op(seq);
    let is_look = name == Name::Value && op.kind().is_loading() && !wanted.next.is_last();
    if !is_look {
        write!(out, "number {seq} has ")?;
        write_content(has, out)?;
        return out.write_all(b"\n");
    }
    let (addr, size) = (wanted.addr.unwrap_or(0), access_size(op));
    match forwarding_store(past, seq, addr, size) {
        Some(doer) => {
            out.write_all(b"the first look has ")?;
            write_content(has, out)?;
            write_doer(past, ", of the store", doer, out)?;
        }
        None => {
            out.write_all(b"memory has ")?;
            write_content(has, out)?;
            write_writer(past, addr, size, out)?;
        }
    }
    out.write_all(b"\n")
}

/// Writes each field of a retirement that isn't the effect that memory gives now, and of an SC what is reserved.
pub(crate) fn write_effect<W: Write>(
    past: &Past<'_>,
    seq: Seq,
    said: &Effect,
    wanted: &Effect,
    out: &mut W,
) -> io::Result<()> {
    let (said, fields) = (effect_fields(said), effect_fields(wanted));
    for place in 0..5 {
        let (name, has) = fields[place];
        let (_, says) = said[place];
        if says != has {
            write_said(name, says, out)?;
            write_done(past, seq, name, has, wanted.next, out)?;
        }
    }
    if is_conditional(past, seq) && !wanted.next.is_last() {
        return write_reservation(past, past.hart(seq).unwrap_or(0), out);
    }
    Ok(())
}

fn is_conditional(past: &Past<'_>, seq: Seq) -> bool {
    matches!(past.op(seq).kind(), Kind::Conditional)
}

/// Where what a retirement has in a field comes from.
#[derive(Clone, Copy, PartialEq, Eq, Drop)]
enum Origin {
    /// The completion of the instruction.
    Completion,
    /// Memory as it is now.
    Memory,
    /// What the instruction makes of memory, or of its reservation.
    Instruction,
}

fn origin_of(kind: Kind, name: Name, next: Next) -> Origin {
    if name == Name::Next || next.is_last() {
        return Origin::Completion;
    }
    match kind {
        Kind::Computing | Kind::Storing => Origin::Completion,
        Kind::Loading | Kind::Reserving | Kind::Atomic if name == Name::Value => Origin::Memory,
        _ => Origin::Instruction,
    }
}

/// Writes who has what in a field of a retirement.
fn write_done<W: Write>(
    past: &Past<'_>,
    seq: Seq,
    name: Name,
    has: Content,
    next: Next,
    out: &mut W,
) -> io::Result<()> {
    let op = past.op(seq);
    let origin = origin_of(op.kind(), name, next);
    if origin == Origin::Memory {
        out.write_all(b"memory has ")?;
    } else {
        write!(out, "number {seq} has ")?;
    }
    write_content(has, out)?;
    match origin {
        Origin::Memory => {
            let addr = accessed_by(past, seq).unwrap_or(0);
            write_writer(past, addr, access_size(op), out)?;
        }
        Origin::Completion => write_completed(past, seq, out)?,
        Origin::Instruction => {}
    }
    out.write_all(b"\n")
}

/// Writes by which event an instruction has completed, behind a comma.
fn write_completed<W: Write>(past: &Past<'_>, seq: Seq, out: &mut W) -> io::Result<()> {
    let place = match past.row(seq) {
        Some(row) => row.completed.unwrap_or(0),
        None => 0,
    };
    write!(out, ", completed so (event {place})")
}

/// Writes as which word an instruction was fetched, and which memory has there now.
pub(crate) fn write_stale<W: Write>(
    past: &Past<'_>,
    seq: Seq,
    memory: &Memory,
    out: &mut W,
) -> io::Result<()> {
    let Some(row) = past.row(seq) else {
        return Ok(());
    };
    write_fetched(&row, seq, out)?;
    out.write_all(b", memory has ")?;
    write_optional(word_at(memory, row.pc), out)?;
    write_writer(past, row.pc, 4, out)?;
    out.write_all(b"\n")
}

/// Writes as which word an instruction was fetched that memory has there still.
pub(crate) fn write_fresh<W: Write>(past: &Past<'_>, seq: Seq, out: &mut W) -> io::Result<()> {
    let Some(row) = past.row(seq) else {
        return Ok(());
    };
    write_fetched(&row, seq, out)?;
    out.write_all(b", memory has it still\n")
}

fn write_fetched<W: Write>(row: &Row, seq: Seq, out: &mut W) -> io::Result<()> {
    let place = row.fetched;
    write!(out, "word: number {seq} was fetched as ")?;
    write_optional(row.word, out)?;
    write!(out, " (event {place})")
}

/// The word that memory has at an address, where a load has no fault there.
fn word_at(memory: &Memory, addr: u32) -> Option<u32> {
    match memory.fault(addr, 4, AccessKind::Load) {
        None => Some(memory.read(addr, 4)),
        Some(_) => None,
    }
}
