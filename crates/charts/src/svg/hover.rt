//! What a browser shows where one points at a row: all that is known of its instruction.

use super::Sheet;
use super::remarks::write_cause;
use crate::label::instruction_of;
use address_labels::write_labels;
use chart_registers::{Destination, Registers, Source};
use chart_rows::{Cause, Row, store_between};
use events::Event;
use std::io;
use std::io::Write;

/// Writes what is known of the instruction with this number: the places of its events, its registers, what squashed it,
/// and both looks of a load.
pub(crate) fn write_hover<W: Write>(
    sheet: &Sheet<'_>,
    number: usize,
    out: &mut W,
) -> io::Result<()> {
    let Some(row) = sheet.chart.rows.get(number) else {
        return Ok(());
    };
    let instruction = instruction_of(row);
    write!(out, "number {number} of hart {}: ", row.hart)?;
    write!(out, "{:08x} {instruction}", row.pc)?;
    write_labels(sheet.named.labels, sheet.named.form, row.pc, out)?;
    write_places(row, out)?;
    write_registers(sheet, number, out)?;
    write_squash(row, number, out)?;
    write_looks(row, sheet.chart.events, sheet.chart.rows, out)
}

/// Writes the places of its events.
fn write_places<W: Write>(row: &Row, out: &mut W) -> io::Result<()> {
    write!(out, "\nfetched {}", row.fetched)?;
    write_place(", decoded ", row.decoded, out)?;
    write_place(", renamed ", row.renamed, out)?;
    write_place(", issued ", row.issued, out)?;
    write_place(", completed ", row.completed, out)?;
    write_place(", retired ", row.retired, out)?;
    write_place(", refetched ", row.refetched, out)
}

fn write_place<W: Write>(before: &str, place: Option<u32>, out: &mut W) -> io::Result<()> {
    match place {
        Some(place) => write!(out, "{before}{place}"),
        None => Ok(()),
    }
}

/// Writes where it was squashed and handed back, and the whole cause.
fn write_squash<W: Write>(row: &Row, number: usize, out: &mut W) -> io::Result<()> {
    let Some(squash) = row.squashed else {
        return Ok(());
    };
    write!(out, "\nsquashed {} by number {}", squash.place, squash.by)?;
    write_place(", handed back ", row.dropped, out)?;
    out.write_all(b"\n")?;
    write_cause(row, number, squash, out)?;
    write_pcs(squash.cause, out)
}

/// Writes which pc was wrong.
fn write_pcs<W: Write>(cause: Cause, out: &mut W) -> io::Result<()> {
    match cause {
        Cause::Mispredicted { to, predicted } => {
            write!(out, ": to {to:08x}, predicted {predicted:08x}")
        }
        _ => Ok(()),
    }
}

/// Writes what a load that retired found as it looked again, and which store wrote in between.
fn write_looks<W: Write>(row: &Row, events: &[Event], rows: &[Row], out: &mut W) -> io::Result<()> {
    let Some(place) = store_between(events, row) else {
        return Ok(());
    };
    if row.replayed {
        out.write_all(b"\nreplayed: its first look found ")?;
        write_value(row.value, out)?;
        out.write_all(b", its second ")?;
        write_value(second_look(row, events), out)?;
    } else {
        out.write_all(b"\nlooked again: the same")?;
    }
    write_writer(place, events, rows, out)
}

/// Writes which store wrote at a place.
fn write_writer<W: Write>(
    place: u32,
    events: &[Event],
    rows: &[Row],
    out: &mut W,
) -> io::Result<()> {
    let Some(event) = events.get(place as usize) else {
        return Ok(());
    };
    let number = event.seq();
    let Some(row) = rows.get(number as usize) else {
        return Ok(());
    };
    let hart = row.hart;
    write!(
        out,
        "\nnumber {number} of hart {hart} wrote at event {place}"
    )
}

fn write_value<W: Write>(value: Option<u32>, out: &mut W) -> io::Result<()> {
    match value {
        Some(value) => write!(out, "{value:08x}"),
        None => out.write_all(b"-"),
    }
}

/// The number with which an instruction retired.
fn second_look(row: &Row, events: &[Event]) -> Option<u32> {
    match events.get(row.retired? as usize)? {
        Event::Retire { effect, .. } => effect.value,
        _ => None,
    }
}

/// Writes the registers of an instruction that was renamed, where they are wanted.
fn write_registers<W: Write>(sheet: &Sheet<'_>, number: usize, out: &mut W) -> io::Result<()> {
    match sheet.form.registers.get(number) {
        Some(Some(registers)) => write_renamed(registers, out),
        _ => Ok(()),
    }
}

fn write_renamed<W: Write>(registers: &Registers, out: &mut W) -> io::Result<()> {
    if let Some(destination) = registers.destination {
        write_destination(destination, out)?;
    }
    let [first, second] = registers.sources;
    write_source(first, out)?;
    write_source(second, out)
}

fn write_destination<W: Write>(destination: Destination, out: &mut W) -> io::Result<()> {
    let (register, physical) = (destination.register, destination.physical);
    write!(out, "\nwrites x{register} to register {physical}")
}

fn write_source<W: Write>(source: Option<Source>, out: &mut W) -> io::Result<()> {
    let Some(source) = source else {
        return Ok(());
    };
    let (register, physical) = (source.register, source.physical);
    write!(out, "\nreads x{register} from register {physical}, ")?;
    match source.by {
        Some(by) => write!(out, "which number {by} writes"),
        None => out.write_all(b"as it was at the start"),
    }
}
