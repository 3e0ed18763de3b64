//! How events, relations, locations and numbers are called.

ghost use Rattle.std.specs.Prelude.{IsTrue};
ghost use Rattle.rv_instr.specs.Table.{IsInstructionInRange};

use crate::names::Naming;
use litmus_cycles::{MemoryEvent, Relation};
use litmus_runs::word_of;
use litmus_tests::{LitmusStep, LitmusTest, Location, Value, beginning_at};
use rv_instr::Instr;
use std::io;
use std::io::Write;

/// What a relation is called (Alglave, Maranget and Tautschnig 2014).
pub(crate) fn relation_name(relation: Relation) -> &'static str {
    match relation {
        Relation::ProgramOrder => "po",
        Relation::ReadsFrom => "rf",
        Relation::Coherence => "co",
        Relation::FromRead => "fr",
        Relation::Breaks => "breaks",
    }
}

/// Writes the letter of an event, with a number behind it where the alphabet comes again.
pub(crate) fn write_event_name<W: Write>(index: usize, out: &mut W) -> io::Result<()> {
    let letter = char::from(b'a' + (index % 26) as u8);
    write!(out, "{letter}")?;
    if index >= 26 {
        write!(out, "{}", index / 26)?;
    }
    Ok(())
}

impl Naming for LitmusTest {
    /// Writes the name of a word of the locations: `x`, and `x[1]` where an element of an array begins it.
    fn write_location<W: Write>(&self, location: usize, out: &mut W) -> io::Result<()> {
        let Some(found) = location_in(self, location) else {
            return write!(out, "{location}");
        };
        out.write_all(found.name.as_slice())?;
        match found.element {
            Some(element) => write!(out, "[{}]", element.index),
            None => Ok(()),
        }
    }

    /// Writes a number in decimal; where it is an address in the locations, as the name of what is there and how many
    /// bytes behind its begin.
    fn write_number<W: Write>(&self, number: u32, out: &mut W) -> io::Result<()> {
        let byte = number.wrapping_sub(word_of(Value::Address(0))) as usize;
        let Some(found) = location_in(self, byte / 4) else {
            return write!(out, "{number}");
        };
        out.write_all(found.name.as_slice())?;
        match byte.saturating_sub(found.begin) {
            0 => Ok(()),
            offset => write!(out, "+{offset}"),
        }
    }

    fn write_instruction<W: Write>(&self, event: &MemoryEvent, out: &mut W) -> io::Result<()> {
        match access_of(self, event) {
            Some(instr) => write_spelling(instr, out),
            None => Ok(()),
        }
    }

    fn write_place<W: Write>(&self, _event: &MemoryEvent, _out: &mut W) -> io::Result<()> {
        Ok(())
    }
}

/// The location that begins a word.
fn location_in(test: &LitmusTest, word: usize) -> Option<&Location> {
    beginning_at(test.locations.as_slice(), word.saturating_mul(4))
}

/// Writes what an event does: `R x 0`, `W x 1`, `RW x 0 1` for a read and a write at once, and `F x` for a
/// store-conditional that fails.
pub(crate) fn write_access<N: Naming, W: Write>(
    names: &N,
    event: &MemoryEvent,
    out: &mut W,
) -> io::Result<()> {
    let kind = match (event.reads, event.writes) {
        (Some(_), Some(_)) => "RW ",
        (Some(_), None) => "R ",
        (None, Some(_)) => "W ",
        (None, None) => "F ",
    };
    out.write_all(kind.as_bytes())?;
    names.write_location(event.location, out)?;
    write_optional(names, event.reads, out)?;
    write_optional(names, event.writes, out)
}

fn write_optional<N: Naming, W: Write>(
    names: &N,
    number: Option<u32>,
    out: &mut W,
) -> io::Result<()> {
    match number {
        Some(number) => {
            out.write_all(b" ")?;
            names.write_number(number, out)
        }
        None => Ok(()),
    }
}

/// Writes the spelling of an instruction that accesses memory; nothing of another one.
pub fn write_spelling<W: Write>(instr: Instr, out: &mut W) -> io::Result<()> {
    if !is_access(instr) {
        return Ok(());
    }
    out.write_all(rv_text::print(instr, 0).as_bytes())
}

fn access_of(test: &LitmusTest, event: &MemoryEvent) -> Option<Instr> {
    let thread = test.threads.get(usize::from(event.hart))?;
    match thread.steps.get(event.step)? {
        LitmusStep::Straight(instr) => Some(*instr),
        LitmusStep::Constant { .. } | LitmusStep::Branch { .. } | LitmusStep::Fence(_) => None,
    }
}

/// Whether it accesses memory, and its fields fit in its word.
fn is_access(instr: Instr) -> bool
    ensures { IsTrue result → IsInstructionInRange instr }
{
    match instr {
        Instr::Load {
            rd,
            rs1,
            offset,
            ..
        } => rd < 32 && rs1 < 32 && -2048 <= offset && offset < 2048,
        Instr::Store {
            rs2,
            rs1,
            offset,
            ..
        } => rs2 < 32 && rs1 < 32 && -2048 <= offset && offset < 2048,
        Instr::LoadReserved { rd, rs1, .. } => rd < 32 && rs1 < 32,
        Instr::StoreConditional { rd, rs1, rs2, .. } | Instr::Amo { rd, rs1, rs2, .. } => {
            rd < 32 && rs1 < 32 && rs2 < 32
        }
        _ => false,
    }
}
