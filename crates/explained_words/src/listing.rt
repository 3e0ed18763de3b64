//! Words that come to nothing: how many there are, and the first of them.

use crate::placed::Placed;
use crate::shown::write_placed;
use std::alloc::Global;
use std::fmt::Display;
use std::io;
use std::io::Write;

/// How many words of a kind are listed.
const MOST_LISTED: u64 = 20;

/// Words of a kind, of which the first are listed.
#[derive(Drop)]
pub(crate) struct Listing {
    lines: Vec<u8>,
    count: u64,
}

impl Listing {
    /// No words.
    pub(crate) fn new(alloc: Global) -> Listing {
        Listing {
            lines: Vec::new(alloc),
            count: 0,
        }
    }

    /// Adds a word, and why it comes to nothing.
    pub(crate) fn add<D: Display>(&mut self, placed: &Placed<'_>, why: &D) -> io::Result<()> {
        if self.count < MOST_LISTED {
            write_placed(placed, &mut self.lines)?;
            writeln!(self.lines, ": {why}")?;
        }
        self.count = self.count.saturating_add(1);
        Ok(())
    }

    /// Writes what the words are, how many there are, and the first of them.
    pub(crate) fn write<W: Write>(&self, kind: &str, out: &mut W) -> io::Result<()> {
        writeln!(out, "{kind} {}", self.count)?;
        out.write_all(self.lines.as_slice())?;
        if self.count > MOST_LISTED {
            writeln!(out, "and {} more", self.count.saturating_sub(MOST_LISTED))?;
        }
        Ok(())
    }
}
