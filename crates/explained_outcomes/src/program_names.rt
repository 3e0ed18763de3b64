//! How words of a program are called, its numbers and its instructions.

use address_labels::{Form, Labels, write_labels};
use elf_image::RAM_START;
use explained_cycles::{Naming, write_spelling};
use litmus_cycles::MemoryEvent;
use program_ways::{Place, ProgramWays};
use std::io;
use std::io::Write;
use symbols::{Symbols, name_at};

/// The ways of a program, its names, and its source lines where there are some.
#[derive(Clone, Copy, Drop)]
pub(crate) struct ProgramNames<'a> {
    pub ways: &'a ProgramWays,
    pub symbols: &'a Symbols<'a>,
    pub labels: &'a Labels<'a>,
}

impl ProgramNames<'_> {
    fn place_of(&self, event: &MemoryEvent) -> Option<&Place> {
        self.ways.places.get(event.step)
    }

    /// Writes the name of what is at an address, and how many bytes behind its start. Answers false where it has none.
    fn write_name<W: Write>(&self, address: u32, out: &mut W) -> io::Result<bool> {
        let Some(place) = name_at(self.symbols, address) else {
            return Ok(false);
        };
        out.write_all(place.name)?;
        if place.behind > 0 {
            write!(out, "+{}", place.behind)?;
        }
        Ok(true)
    }
}

impl Naming for ProgramNames<'_> {
    /// The name of a word, or its address.
    fn write_location<W: Write>(&self, location: usize, out: &mut W) -> io::Result<()> {
        let Some(word) = self.ways.words.get(location) else {
            return write!(out, "{location}");
        };
        if self.write_name(*word, out)? {
            return Ok(());
        }
        write!(out, "{word:08x}")
    }

    /// A number in decimal, or the name of what it is the address of.
    fn write_number<W: Write>(&self, number: u32, out: &mut W) -> io::Result<()> {
        if number >= RAM_START && self.write_name(number, out)? {
            return Ok(());
        }
        write!(out, "{number}")
    }

    fn write_instruction<W: Write>(&self, event: &MemoryEvent, out: &mut W) -> io::Result<()> {
        match self.place_of(event) {
            Some(place) => write_spelling(place.instr, out),
            None => Ok(()),
        }
    }

    /// Its pc, the name that covers it, and its line in a source where lines are wanted.
    fn write_place<W: Write>(&self, event: &MemoryEvent, out: &mut W) -> io::Result<()> {
        let Some(place) = self.place_of(event) else {
            return Ok(());
        };
        let names = match name_at(self.symbols, place.pc) {
            Some(_) => Some(self.symbols),
            None => None,
        };
        let labels = Labels {
            names,
            lines: self.labels.lines,
        };
        write!(out, " at {:08x}", place.pc)?;
        write_labels(&labels, Form::Word, place.pc, out)
    }
}
