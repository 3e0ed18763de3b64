//! The numbers of a history, each under its word.

ghost use Rattle.std.specs.Prelude.{◌≡◌, ◌≤◌, ◌++◌, length, OnOk};
ghost use Rattle.std.specs.Io.KnownBytes.{Appends};
ghost use Rattle.arrayvec.specs.ArrayString.{array_string_len};
ghost use Rattle.reports.specs.Counts.{counts_text, early_text, late_text, events_text};
ghost use Rattle.reports.specs.Counts.{outcomes_text, squashes_text, units_text, hart_text};
ghost use Rattle.reports.specs.Counts.{unit_text, unit_name, unit_word};
ghost use Rattle.reports.specs.declared.form.Form.TheVariants.{Lines};

use crate::form::{Form, write_number};
use arrayvec::ArrayString;
use events::Record;
use history_counts::{Counts, count_retired};
use rv_instr::UnitKind;
use std::io;
use std::io::Write;
use text_fields::push_decimal;

/// Writes a line for each number of a history: its events, what became of its instructions, and of
/// each of so many harts how many of these retired instructions each kind of unit has executed.
pub fn report_counts<W: Write>(
    counts: &Counts,
    harts: usize,
    records: &[Record],
    out: &mut W,
) -> io::Result<()>
    ensures { OnOk result
        (Appends (W.contents out.old) (W.contents out.new)
        (counts_text Lines counts.now harts records.now)) }
{
    write_counts(Form::Lines, counts, harts, records, out)
}

/// Writes the numbers of a history in a form; as members they open an object.
pub(crate) fn write_counts<W: Write>(
    form: Form,
    counts: &Counts,
    harts: usize,
    records: &[Record],
    out: &mut W,
) -> io::Result<()>
    ensures { OnOk result
        (Appends (W.contents out.old) (W.contents out.new)
        (counts_text form counts.now harts records.now)) }
{
    write_events(form, counts, out)?;
    write_outcomes(form, counts, out)?;
    write_units(form, harts, records, out)
}

fn write_events<W: Write>(form: Form, counts: &Counts, out: &mut W) -> io::Result<()>
    ensures { OnOk result
        (Appends (W.contents out.old) (W.contents out.new) (events_text form counts.now)) }
{
    write_early(form, counts, out)?;
    write_late(form, counts, out)
}

/// How many instructions came to a unit.
fn write_early<W: Write>(form: Form, counts: &Counts, out: &mut W) -> io::Result<()>
    ensures { OnOk result
        (Appends (W.contents out.old) (W.contents out.new) (early_text form counts.now)) }
{
    write_number(form, "{", "fetched", counts.fetched, out)?;
    write_number(form, ",", "decoded", counts.decoded, out)?;
    write_number(form, ",", "renamed", counts.renamed, out)?;
    write_number(form, ",", "issued", counts.issued, out)
}

/// How many came from one.
fn write_late<W: Write>(form: Form, counts: &Counts, out: &mut W) -> io::Result<()>
    ensures { OnOk result
        (Appends (W.contents out.old) (W.contents out.new) (late_text form counts.now)) }
{
    write_number(form, ",", "completed", counts.completed, out)?;
    write_number(form, ",", "dropped", counts.dropped, out)?;
    write_number(form, ",", "retired", counts.retired, out)
}

/// What squashes, and what was squashed for it.
fn write_outcomes<W: Write>(form: Form, counts: &Counts, out: &mut W) -> io::Result<()>
    ensures { OnOk result
        (Appends (W.contents out.old) (W.contents out.new) (outcomes_text form counts.now)) }
{
    write_number(form, ",", "mispredicted", counts.mispredicted, out)?;
    write_number(form, ",", "replayed", counts.replayed, out)?;
    write_number(form, ",", "refetched", counts.refetched, out)?;
    write_squashes(form, counts, out)
}

fn write_squashes<W: Write>(form: Form, counts: &Counts, out: &mut W) -> io::Result<()>
    ensures { OnOk result
        (Appends (W.contents out.old) (W.contents out.new) (squashes_text form counts.now)) }
{
    let Counts {
        squashed_mispredicted,
        squashed_replayed,
        squashed_refetched,
        squashed_ended,
        squashed_stopped,
        ..
    } = *counts;
    write_number(
        form,
        ",",
        "squashed-mispredicted",
        squashed_mispredicted,
        out,
    )?;
    write_number(form, ",", "squashed-replayed", squashed_replayed, out)?;
    write_number(form, ",", "squashed-refetched", squashed_refetched, out)?;
    write_number(form, ",", "squashed-ended", squashed_ended, out)?;
    write_number(form, ",", "squashed-stopped", squashed_stopped, out)
}

fn write_units<W: Write>(
    form: Form,
    harts: usize,
    records: &[Record],
    out: &mut W,
) -> io::Result<()>
    ensures { OnOk result
        (Appends (W.contents out.old) (W.contents out.new) (units_text form harts records.now)) }
{
    for hart in 0..harts {
        write_hart(form, hart, records, out)?;
    }
    Ok(())
}

fn write_hart<W: Write>(form: Form, hart: usize, records: &[Record], out: &mut W) -> io::Result<()>
    ensures { OnOk result
        (Appends (W.contents out.old) (W.contents out.new) (hart_text form records.now hart)) }
{
    write_unit(form, hart, UnitKind::Alu, records, out)?;
    write_unit(form, hart, UnitKind::Mul, records, out)?;
    write_unit(form, hart, UnitKind::Mem, records, out)
}

fn write_unit<W: Write>(
    form: Form,
    hart: usize,
    unit: UnitKind,
    records: &[Record],
    out: &mut W,
) -> io::Result<()>
    ensures { OnOk result
        (Appends (W.contents out.old) (W.contents out.new)
        (unit_text form hart unit records.now)) }
{
    let mut name = ArrayString::<32>::new();
    name.push_str("hart-");
    push_decimal(&mut name, hart);
    name.push_str(unit_word(unit));
    write_number(
        form,
        ",",
        name.as_str(),
        count_retired(records, hart, unit),
        out,
    )
}

fn unit_word(unit: UnitKind) -> &'static str
    ensures word { result.now ≡ unit_word unit }
    ensures short { length result.now ≤ 4 }
{
    match unit {
        UnitKind::Alu => "-alu",
        UnitKind::Mul => "-mul",
        UnitKind::Mem => "-mem",
    }
}
