//! The line of an outcome.

ghost use Rattle.std.specs.Prelude.{◌≡◌, ◌+◌, ◌≤◌, ◌++◌, length, flat_map, slice_index, OnOk};
ghost use Rattle.std.specs.Io.KnownBytes.{Appends};
ghost use Rattle.arrayvec.specs.ArrayString.{array_string_len};
ghost use Rattle.text_fields.specs.Spelling.{hex};
ghost use Rattle.text_fields.specs.Each.{each_from};
ghost use Rattle.outcome_text.specs.Line.{status_words, status_text, comma_of};
ghost use Rattle.outcome_text.specs.Line.{column_lead, column_text, columns_text, watched_text};
ghost use Rattle.outcome_text.specs.Line.{output_lead, output_text, outcome_line};

use arrayvec::ArrayString;
use outcome_queries::{Asked, Columns};
use report_lines::write_bytes;
use shown_text::write_shown;
use smt_model::Status;
use std::io;
use std::io::Write;
use text_fields::{push_ascii, push_decimal};
use watched_outcomes::Outcome;

/// Room for a part of a line.
type Part = ArrayString<64>;

/// Writes the line of an outcome: how each hart has ended, what is watched by what asked for it, and the bytes that were
/// put out, in hexadecimal. What isn't there is left out.
#[tactic(auto, unfolding(crate::specs::Line::outcome_line))]
pub fn write_line<W: Write>(columns: &Columns<'_>, outcome: &Outcome, out: &mut W) -> io::Result<()>
    ensures { OnOk result (Appends (W.contents out.old) (W.contents out.new)
        (outcome_line columns.now.registers.items columns.now.words.items outcome.now)) }
{
    let registers = columns.registers.as_slice();
    let words = columns.words.as_slice();
    write_statuses(outcome.statuses.as_slice(), out)?;
    write_columns(0, registers, outcome.registers.as_slice(), out)?;
    write_columns(registers.len(), words, outcome.words.as_slice(), out)?;
    write_output(outcome.output.as_slice(), out)?;
    out.write_all(b"\n")
}

/// Writes what is watched of an outcome, as its line has it. Where nothing is watched it writes nothing.
pub fn write_watched<W: Write>(
    columns: &Columns<'_>,
    outcome: &Outcome,
    out: &mut W,
) -> io::Result<()>
    ensures { OnOk result (Appends (W.contents out.old) (W.contents out.new)
        (watched_text columns.now.registers.items columns.now.words.items outcome.now)) }
{
    let registers = columns.registers.as_slice();
    write_columns(0, registers, outcome.registers.as_slice(), out)?;
    write_columns(
        registers.len(),
        columns.words.as_slice(),
        outcome.words.as_slice(),
        out,
    )
}

fn write_statuses<W: Write>(statuses: &[Status], out: &mut W) -> io::Result<()>
    ensures { OnOk result (Appends (W.contents out.old) (W.contents out.new)
        (each_from status_text 0 statuses.now)) }
{
    for (index, status) in statuses.iter().enumerate() {
        write_status(index, *status, out)?;
    }
    Ok(())
}

fn write_status<W: Write>(index: usize, status: Status, out: &mut W) -> io::Result<()>
    ensures { OnOk result (Appends (W.contents out.old) (W.contents out.new)
        (status_text index status)) }
{
    let mut part = Part::new();
    part.push_str(comma_of(index));
    push_status(&mut part, status);
    out.write_all(part.as_bytes())
}

/// What stands before the end of a hart.
fn comma_of(index: usize) -> &'static str
    ensures lead { result.now ≡ comma_of index }
    ensures short { length result.now ≤ 2 }
{
    if index == 0 { "" } else { ", " }
}

fn push_status(part: &mut Part, status: Status)
    requires { array_string_len part.old + 18 ≤ 64 }
    ensures { part.new.bytes ≡ part.old.bytes ++ status_words status }
{
    match status {
        Status::Going => part.push_str("going"),
        Status::Ended(number) => {
            part.push_str("ended ");
            push_decimal(part, number);
        }
        Status::Stopped(cause) => {
            part.push_str("stopped ");
            push_decimal(part, cause);
        }
    }
}

/// Writes columns behind so many others.
fn write_columns<W: Write>(
    before: usize,
    columns: &[Asked<'_>],
    numbers: &[u32],
    out: &mut W,
) -> io::Result<()>
    ensures { OnOk result (Appends (W.contents out.old) (W.contents out.new)
        (columns_text before columns.now numbers.now)) }
{
    for (index, asked) in columns.iter().enumerate() {
        write_column(before, index, *asked, number_at(numbers, index), out)?;
    }
    Ok(())
}

/// The number at an index; 0 where there is none.
fn number_at(numbers: &[u32], index: usize) -> u32
    ensures { result ≡ slice_index numbers.now index }
{
    if index < numbers.len() {
        return numbers[index];
    }
    0
}

fn write_column<W: Write>(
    before: usize,
    index: usize,
    asked: Asked<'_>,
    number: u32,
    out: &mut W,
) -> io::Result<()>
    ensures { OnOk result (Appends (W.contents out.old) (W.contents out.new)
        (column_text before index asked.entry number)) }
{
    out.write_all(column_lead(before, index).as_bytes())?;
    write_shown(asked.spelled, out)?;
    let mut part = Part::new();
    push_ascii(&mut part, b'=');
    push_decimal(&mut part, number);
    out.write_all(part.as_bytes())
}

/// What stands before a column, behind so many others and those before it.
#[tactic(auto, unfolding(crate::specs::Line::column_lead))]
fn column_lead(before: usize, index: usize) -> &'static str
    ensures { result.now ≡ column_lead before index }
{
    if before == 0 && index == 0 {
        "; "
    } else {
        ", "
    }
}

fn write_output<W: Write>(output: &[u8], out: &mut W) -> io::Result<()>
    ensures { OnOk result (Appends (W.contents out.old) (W.contents out.new)
        (output_text output.now)) }
{
    out.write_all(output_lead(output).as_bytes())?;
    write_bytes(output, out)
}

/// What stands before the bytes that were put out.
fn output_lead(output: &[u8]) -> &'static str
    ensures { result.now ≡ output_lead output.now }
{
    if output.is_empty() { "" } else { "; output " }
}
