//! Under a band the lines that say why rows were squashed in it.

ghost use Rattle.std.specs.Prelude.{◌≡◌, ◌++◌, OnOk, codes, find, if◌then◌else◌};
ghost use Rattle.std.specs.Fmt.{decimal};
ghost use Rattle.std.specs.Io.KnownBytes.{Appends};
ghost use Rattle.text_fields.specs.Spelling.{hex};
ghost use Rattle.chart_rows.specs.Order.{AreByFetch, AreOver};
ghost use Rattle.chart_rows.specs.declared.cause.Cause.TheVariants.{Mispredicted};
ghost use Rattle.charts.specs.Drawings.{drawing_of};
ghost use Rattle.charts.specs.Text.{whys_text};
ghost use Rattle.charts.specs.Whys.{
  cause_text,
  is_cross,
  is_crossed,
  is_shown_crossed,
  mispredicted_text,
  paths_text,
  reason_text,
  squash_text,
  why_text,
};

use crate::text::TextChart;
use arrayvec::ArrayString;
use chart_rows::{Band, Cause, Cell, Row, Squash, View};
use std::io;
use std::io::Write;
use text_fields::{push_decimal, push_hex};

/// Writes for each event in the columns of a band that squashed a row which is drawn there, why it did, the oldest
/// event first. No row before `first` stands in the band.
pub(crate) fn write_whys<W: Write>(
    chart: &TextChart<'_>,
    first: usize,
    band: &Band,
    out: &mut W,
) -> io::Result<()>
    ensures { OnOk result (AreByFetch chart.now.rows.now → AreOver chart.now.rows.now first band.now.from
        → Appends (W.contents out.old) (W.contents out.new) (whys_text (drawing_of chart.now) band.now)) }
{
    let shown = chart.view.within(band);
    let from = chart.columns.head(band.from);
    let to = chart.columns.last(band.to);
    for place in from..=to {
        write_why(chart, first, &shown, place, out)?;
    }
    Ok(())
}

/// Writes why the event at a place squashed the first row which is drawn, where there is such a row.
#[tactic(auto, unfolding(crate::specs::Whys::why_text))]
fn write_why<W: Write>(
    chart: &TextChart<'_>,
    first: usize,
    shown: &View,
    place: u32,
    out: &mut W,
) -> io::Result<()>
    ensures { OnOk result (AreByFetch chart.now.rows.now → AreOver chart.now.rows.now first shown.now.from
        → Appends (W.contents out.old) (W.contents out.new)
        (why_text chart.now.rows.now chart.now.events.now shown.now chart.now.columns.now place)) }
{
    let Some(event) = chart.events.get(place as usize) else {
        return out.write_all(b"");
    };
    let column = chart.columns.column(place);
    match crossed_row(chart.rows, first, shown, column, event.seq()) {
        Some(row) => write_reason(&row, place, out),
        None => out.write_all(b""),
    }
}

/// The first row which is drawn that has an `x` in this column, where it was squashed by an instruction. No row before
/// `first` is drawn.
fn crossed_row(rows: &[Row], first: usize, shown: &View, column: u32, by: u32) -> Option<Row>
    ensures { AreByFetch rows.now → AreOver rows.now first shown.now.from
        → result ≡ find (is_shown_crossed shown.now column by) rows.now }
{
    for number in first..rows.len() {
        let row = &rows[number];
        if row.fetched > shown.to {
            return None;
        }
        if is_shown_crossed(row, shown, column, by) {
            return Some(*row);
        }
    }
    None
}

/// Whether a row is drawn, and has an `x` in a column, where it was squashed by this instruction.
fn is_shown_crossed(row: &Row, shown: &View, column: u32, by: u32) -> bool
    ensures { result ≡ is_shown_crossed shown.now column by row.now }
{
    is_crossed(row, column, by) && shown.shows(row)
}

/// Whether a row has an `x` in a column, where it was squashed by this instruction.
fn is_crossed(row: &Row, column: u32, by: u32) -> bool
    ensures { result ≡ is_crossed column by row.now }
{
    match row.squashed {
        Some(squash) if squash.place == column && squash.by == by => is_cross(row.cell(column)),
        _ => false,
    }
}

fn is_cross(cell: Cell) -> bool
    ensures { result ≡ is_cross cell }
{
    match cell {
        Cell::Squash(_) => true,
        _ => false,
    }
}

/// Writes why a row was squashed by the event at a place.
fn write_reason<W: Write>(row: &Row, place: u32, out: &mut W) -> io::Result<()>
    ensures { OnOk result (Appends (W.contents out.old) (W.contents out.new)
        (squash_text place row.now.hart row.now.squashed)) }
{
    match row.squashed {
        Some(squash) => write_squash(place, row.hart, squash, out),
        None => out.write_all(b""),
    }
}

/// Writes why the event at a place squashed instructions of a hart.
#[tactic(auto, unfolding(crate::specs::Whys::reason_text))]
fn write_squash<W: Write>(place: u32, hart: u8, squash: Squash, out: &mut W) -> io::Result<()>
    ensures { OnOk result (Appends (W.contents out.old) (W.contents out.new) (reason_text place hart squash)) }
{
    write_place(place, out)?;
    write_cause(hart, squash.by, squash.cause, out)?;
    out.write_all(b"\n")
}

fn write_place<W: Write>(place: u32, out: &mut W) -> io::Result<()>
    ensures { OnOk result (Appends (W.contents out.old) (W.contents out.new)
        (codes "x at " ++ (decimal place ++ codes ":"))) }
{
    let mut text = ArrayString::<16>::new();
    text.push_str("x at ");
    push_decimal(&mut text, place);
    text.push_str(":");
    out.write_all(text.as_bytes())
}

/// Writes why instructions of a hart were squashed by one of this number.
fn write_cause<W: Write>(hart: u8, by: u32, cause: Cause, out: &mut W) -> io::Result<()>
    ensures { OnOk result (Appends (W.contents out.old) (W.contents out.new) (cause_text hart by cause)) }
{
    match cause {
        Cause::Mispredicted { to, predicted } => write_mispredicted(by, to, predicted, out),
        Cause::Replayed => write_replayed(by, out),
        Cause::Ended => write_last(hart, true, out),
        Cause::Stopped => write_last(hart, false, out),
        Cause::Refetched => out.write_all(b" refetched"),
    }
}

fn write_mispredicted<W: Write>(by: u32, to: u32, predicted: u32, out: &mut W) -> io::Result<()>
    ensures { OnOk result (Appends (W.contents out.old) (W.contents out.new)
        (cause_text 0 by (Mispredicted to predicted))) }
{
    write_by(by, out)?;
    write_paths(to, predicted, out)
}

#[tactic(auto, unfolding(crate::specs::Whys::mispredicted_text))]
fn write_by<W: Write>(by: u32, out: &mut W) -> io::Result<()>
    ensures { OnOk result (Appends (W.contents out.old) (W.contents out.new) (mispredicted_text by)) }
{
    let mut text = ArrayString::<32>::new();
    text.push_str(" mispredicted by ");
    push_decimal(&mut text, by);
    out.write_all(text.as_bytes())
}

fn write_paths<W: Write>(to: u32, predicted: u32, out: &mut W) -> io::Result<()>
    ensures { OnOk result (Appends (W.contents out.old) (W.contents out.new) (paths_text to predicted)) }
{
    let text = paths_of(to, predicted);
    out.write_all(text.as_bytes())
}

/// Where a hart goes on, and where it was expected to.
#[tactic(auto, unfolding(crate::specs::Whys::paths_text))]
fn paths_of(to: u32, predicted: u32) -> ArrayString<40>
    ensures { result.bytes ≡ paths_text to predicted }
{
    let mut text = ArrayString::new();
    text.push_str(": to ");
    push_hex(&mut text, to, 8);
    text.push_str(", predicted ");
    push_hex(&mut text, predicted, 8);
    text
}

fn write_replayed<W: Write>(by: u32, out: &mut W) -> io::Result<()>
    ensures { OnOk result (Appends (W.contents out.old) (W.contents out.new) (codes " replayed by " ++ decimal by)) }
{
    let mut text = ArrayString::<24>::new();
    text.push_str(" replayed by ");
    push_decimal(&mut text, by);
    out.write_all(text.as_bytes())
}

/// Writes that a hart ended, or that it stopped.
fn write_last<W: Write>(hart: u8, ended: bool, out: &mut W) -> io::Result<()>
    ensures { OnOk result (Appends (W.contents out.old) (W.contents out.new)
        (codes " hart " ++ (decimal hart ++ (if ended then codes " ended" else codes " stopped")))) }
{
    let mut text = ArrayString::<24>::new();
    text.push_str(" hart ");
    push_decimal(&mut text, hart);
    text.push_str(if ended { " ended" } else { " stopped" });
    out.write_all(text.as_bytes())
}
