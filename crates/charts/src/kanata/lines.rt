//! The lines of the log: each is a letter and its fields, with tabs between.

use crate::label::instruction_of;
use address_labels::{Form, Labels, write_labels};
use chart_columns::ColumnTable;
use chart_rows::Row;
use events::{Event, EventKind};
use std::io;
use std::io::Write;

/// Where the writing of a log is.
#[derive(Clone, Copy, Drop)]
pub(crate) struct Log<'a> {
    /// The cycle that was told last: a column.
    cycle: u32,
    columns: &'a ColumnTable,
    /// How many instructions have left, retired or squashed.
    left: u32,
    /// What is wanted beside pcs.
    labels: &'a Labels<'a>,
}

impl<'a> Log<'a> {
    /// A log that begins at this cycle.
    pub fn new(cycle: u32, columns: &'a ColumnTable, labels: &'a Labels<'a>) -> Log<'a> {
        Log {
            cycle,
            columns,
            left: 0,
            labels,
        }
    }

    pub fn write_head<W: Write>(&self, out: &mut W) -> io::Result<()> {
        out.write_all(b"Kanata\t0004\n")?;
        writeln!(out, "C=\t{}", self.cycle)
    }

    /// Tells how many cycles have passed up to the event at a place.
    pub fn go_to<W: Write>(&mut self, place: u32, out: &mut W) -> io::Result<()> {
        let column = self.columns.column(place);
        let passed = column.saturating_sub(self.cycle);
        if passed > 0 {
            writeln!(out, "C\t{passed}")?;
            self.cycle = column;
        }
        Ok(())
    }

    /// What an event of an instruction says of it.
    pub fn write_own<W: Write>(
        &mut self,
        row: &Row,
        number: usize,
        id: u32,
        event: &Event,
        out: &mut W,
    ) -> io::Result<()> {
        match event.kind() {
            EventKind::Fetch => write_fetch(row, number, id, self.labels, out),
            EventKind::Decode => write_stage(id, 'F', 'D', out),
            EventKind::Rename => write_stage(id, 'D', 'R', out),
            EventKind::Issue => write_stage(id, 'R', 'I', out),
            EventKind::Complete => write_stage(id, 'I', 'C', out),
            EventKind::Drop => self.write_end(id, 'x', 1, out),
            EventKind::Retire => self.write_end(id, 'C', 0, out),
            // It leaves as one that is squashed.
            EventKind::Refetch => Ok(()),
        }
    }

    /// A squash of an instruction: one that a unit hands back later leaves then, every other one now.
    pub fn write_squash<W: Write>(&mut self, row: &Row, id: u32, out: &mut W) -> io::Result<()> {
        if row.dropped.is_some() {
            write_stage(id, stage_of(row), 'x', out)
        } else {
            self.write_end(id, stage_of(row), 1, out)
        }
    }

    /// The end of an instruction in this stage: it retired (0) or was flushed (1).
    fn write_end<W: Write>(
        &mut self,
        id: u32,
        stage: char,
        how: u8,
        out: &mut W,
    ) -> io::Result<()> {
        let left = self.left;
        writeln!(out, "E\t{id}\t0\t{stage}")?;
        writeln!(out, "R\t{id}\t{left}\t{how}")?;
        self.left = left.saturating_add(1);
        Ok(())
    }
}

/// An instruction comes into the log, with its label and what is told of it beside.
fn write_fetch<W: Write>(
    row: &Row,
    number: usize,
    id: u32,
    labels: &Labels<'_>,
    out: &mut W,
) -> io::Result<()> {
    let instruction = instruction_of(row);
    writeln!(out, "I\t{id}\t{number}\t{}", row.hart)?;
    write!(out, "L\t{id}\t0\t{:08x}: {instruction}", row.pc)?;
    write_labels(labels, Form::Word, row.pc, out)?;
    write!(out, "\nL\t{id}\t1\tnumber {number} of hart {}", row.hart)?;
    if let Some(squash) = row.squashed {
        write!(out, ", squashed by number {}", squash.by)?;
    }
    if row.replayed {
        out.write_all(b", replayed")?;
    }
    if row.refetched.is_some() {
        out.write_all(b", refetched")?;
    }
    writeln!(out, "\nS\t{id}\t0\tF")
}

/// It goes from one stage on to another.
fn write_stage<W: Write>(id: u32, before: char, behind: char, out: &mut W) -> io::Result<()> {
    writeln!(out, "E\t{id}\t0\t{before}")?;
    writeln!(out, "S\t{id}\t0\t{behind}")
}

/// The stage in which an instruction was squashed.
fn stage_of(row: &Row) -> char {
    if row.completed.is_some() {
        'C'
    } else if row.issued.is_some() {
        'I'
    } else if row.renamed.is_some() {
        'R'
    } else if row.decoded.is_some() {
        'D'
    } else {
        'F'
    }
}
