//! What has names for what accesses touch, read and are made by: a litmus test, or a program.

use litmus_cycles::MemoryEvent;
use std::io;
use std::io::Write;

/// How locations, numbers and instructions are called. Each error is the one that `out` answered.
pub trait Naming {
    /// Writes the name of a location, by its index.
    fn write_location<W: Write>(&self, location: usize, out: &mut W) -> io::Result<()>;

    /// Writes a number, or the name of what it is the address of.
    fn write_number<W: Write>(&self, number: u32, out: &mut W) -> io::Result<()>;

    /// Writes the spelling of the instruction that makes an access; nothing where none is known.
    fn write_instruction<W: Write>(&self, event: &MemoryEvent, out: &mut W) -> io::Result<()>;

    /// Writes where that instruction stands, behind a space; nothing where that says nothing.
    fn write_place<W: Write>(&self, event: &MemoryEvent, out: &mut W) -> io::Result<()>;
}
