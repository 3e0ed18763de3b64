//! The registers of a row: what it was given for its destination, and what it found for its sources.

ghost use Rattle.std.specs.Prelude.{◌≡◌, ◌<◌, OnOk, length, slice_index_or, Some, None};
ghost use Rattle.std.specs.Io.KnownBytes.{Appends};
ghost use Rattle.charts.specs.Found.{destination_text, found_text, registers_text, registers_width, source_text, wider_found};

use arrayvec::ArrayString;
use chart_registers::{Destination, Registers, Source};
use chart_rows::{Row, View};
use std::io;
use std::io::Write;
use text_fields::push_decimal;

/// How wide the registers are of the rows that are drawn.
pub(crate) fn registers_width(rows: &[Row], view: &View, registers: &[Option<Registers>]) -> u32
    ensures { result ≡ registers_width view.now registers.now rows.now }
{
    let mut width = 0;
    for number in 0..rows.len() {
        width = wider(&rows[number], view, registers, number, width);
    }
    width
}

/// As wide, or as wide as the registers of one more row, where that is drawn.
fn wider(row: &Row, view: &View, registers: &[Option<Registers>], number: usize, width: u32) -> u32
    ensures { result ≡ wider_found view.now registers.now number row.now width }
{
    if view.shows(row) {
        return width.max(width_of(registers, number));
    }
    width
}

/// How wide the registers of the row with this number are; 0 where none are known.
#[tactic(auto, unfolding(crate::specs::Found::registers_text))]
pub(crate) fn width_of(registers: &[Option<Registers>], number: usize) -> u32
    ensures { result ≡ length (registers_text registers.now number) }
{
    match registers_at(registers, number) {
        Some(found) => {
            (destination_of(found.destination).len()
                + source_of(found.sources[0]).len()
                + source_of(found.sources[1]).len()) as u32
        }
        None => 0,
    }
}

/// Writes the registers of the row with this number, a space before each.
#[tactic(auto, unfolding(crate::specs::Found::registers_text))]
pub(crate) fn write_found<W: Write>(
    registers: &[Option<Registers>],
    number: usize,
    out: &mut W,
) -> io::Result<()>
    ensures { OnOk result (Appends (W.contents out.old) (W.contents out.new) (registers_text registers.now number)) }
{
    match registers_at(registers, number) {
        Some(found) => write_registers(found, out),
        None => out.write_all(b""),
    }
}

fn write_registers<W: Write>(found: Registers, out: &mut W) -> io::Result<()>
    ensures { OnOk result (Appends (W.contents out.old) (W.contents out.new) (found_text (Some found))) }
{
    write_destination(found.destination, out)?;
    write_source(found.sources[0], out)?;
    write_source(found.sources[1], out)
}

fn write_destination<W: Write>(destination: Option<Destination>, out: &mut W) -> io::Result<()>
    ensures { OnOk result (Appends (W.contents out.old) (W.contents out.new) (destination_text destination)) }
{
    let text = destination_of(destination);
    out.write_all(text.as_bytes())
}

fn write_source<W: Write>(source: Option<Source>, out: &mut W) -> io::Result<()>
    ensures { OnOk result (Appends (W.contents out.old) (W.contents out.new) (source_text source)) }
{
    let text = source_of(source);
    out.write_all(text.as_bytes())
}

fn registers_at(registers: &[Option<Registers>], number: usize) -> Option<Registers>
    ensures { result ≡ slice_index_or registers.now number None }
{
    match registers.get(number) {
        Some(found) => *found,
        None => None,
    }
}

/// What was given for a destination, as ` x7>p33`.
fn destination_of(destination: Option<Destination>) -> ArrayString<16>
    ensures { result.bytes ≡ destination_text destination }
{
    let mut text = ArrayString::new();
    if let Some(given) = destination {
        text.push_str(" x");
        push_decimal(&mut text, given.register);
        text.push_str(">p");
        push_decimal(&mut text, given.physical);
    }
    text
}

/// What was found for a source, as ` x5=p31:4`, or ` x6=p6` where it is a register of the start.
fn source_of(source: Option<Source>) -> ArrayString<24>
    ensures { result.bytes ≡ source_text source }
{
    let mut text = ArrayString::new();
    if let Some(found) = source {
        text.push_str(" x");
        push_decimal(&mut text, found.register);
        text.push_str("=p");
        push_decimal(&mut text, found.physical);
        if let Some(by) = found.by {
            text.push_str(":");
            push_decimal(&mut text, by);
        }
    }
    text
}
