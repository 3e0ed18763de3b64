//! The chart as text: a row an instruction, a column an event or several, cut into bands that fit a screen.

ghost use Rattle.std.specs.Prelude.{◌≡◌, [], if◌then◌else◌, OnOk};
ghost use Rattle.std.specs.Io.KnownBytes.{Appends};
ghost use Rattle.text_fields.specs.Each.{each_from};
ghost use Rattle.address_labels.specs.Labels.{marks_of};
ghost use Rattle.chart_rows.specs.Views.{shows};
ghost use Rattle.chart_rows.specs.Order.{AreByFetch, AreOver};
ghost use Rattle.charts.specs.Drawings.{drawing_of};
ghost use Rattle.charts.specs.Text.{band_text, chart_text, columns_in, gap_before, line_text, row_text};

mod counted;
mod line;
mod ruler;
mod why;

use crate::label::{Named, Widths};
use address_labels::{Form, Labels};
use chart_columns::ColumnTable;
use chart_counters::Counters;
use chart_registers::Registers;
use chart_rows::{Band, Row, View, first_left};
use counted::write_counters;
use events::Event;
use line::write_line;
use ruler::write_ruler;
use std::io;
use std::io::Write;
use why::write_whys;

/// The fewest columns of a band, however narrow the screen is.
const FEWEST_COLUMNS: u32 = 10;

/// What is drawn as text, and how.
#[derive(Clone, Copy, Drop)]
pub struct TextChart<'a> {
    /// The rows of a history, with columns where the places of events were.
    pub rows: &'a [Row],
    /// Its events, the oldest first.
    pub events: &'a [Event],
    pub columns: &'a ColumnTable,
    /// The columns and rows that are drawn.
    pub view: View,
    /// How many characters a line has.
    pub width: u32,
    /// How many harts the core has.
    pub harts: u8,
    /// What is wanted beside the pcs.
    pub labels: Labels<'a>,
    /// What is counted behind each event, from the first in the first column that is drawn on; nothing where it isn't
    /// wanted.
    pub counters: &'a [Counters],
    /// The registers of each instruction, by number; nothing where they aren't wanted.
    pub registers: &'a [Option<Registers>],
}

/// Writes a chart in lines of so many characters as are wanted (docs/FORMATS.md). An error is the one that `out`
/// answered.
pub fn write_text<W: Write>(chart: &TextChart<'_>, out: &mut W) -> io::Result<()>
    ensures { OnOk result (AreByFetch chart.now.rows.now → Appends (W.contents out.old) (W.contents out.new)
        (chart_text (drawing_of chart.now))) }
{
    let widths = Widths::of(chart.rows, &chart.view, &chart.labels, chart.registers);
    let columns = columns_in(chart.width, &widths);
    let mut first = 0;
    for number in 0..chart.view.bands(columns) {
        let band = chart.view.band(number, columns);
        first = first_left(chart.rows, first, band.from);
        write_gap(number, out)?;
        write_band(chart, first, &band, &widths, out)?;
    }
    Ok(())
}

/// How many columns stand beside the names and the remarks in a line of so many characters.
fn columns_in(width: u32, widths: &Widths) -> u32
    ensures { result ≡ columns_in width widths.now }
{
    let beside = (width as usize)
        .saturating_sub(widths.name())
        .saturating_sub(widths.remark());
    (beside as u32).max(FEWEST_COLUMNS)
}

/// Writes an empty line, where a band stands before the one with this number.
fn write_gap<W: Write>(number: u32, out: &mut W) -> io::Result<()>
    ensures { OnOk result (Appends (W.contents out.old) (W.contents out.new) (gap_before number)) }
{
    if number == 0 {
        return out.write_all(b"");
    }
    out.write_all(b"\n")
}

/// Writes a band: its ruler, its rows, and why some of them end. None before `first` stands in it.
#[tactic(auto, unfolding(crate::specs::Text::band_text))]
fn write_band<W: Write>(
    chart: &TextChart<'_>,
    first: usize,
    band: &Band,
    widths: &Widths,
    out: &mut W,
) -> io::Result<()>
    ensures { OnOk result (AreByFetch chart.now.rows.now → AreOver chart.now.rows.now first band.now.from
        → Appends (W.contents out.old) (W.contents out.new) (band_text widths.now (drawing_of chart.now) band.now)) }
{
    write_ruler(chart.columns, band, widths, out)?;
    write_rows(chart, first, band, widths, out)?;
    write_counters(chart, band, widths, out)?;
    write_whys(chart, first, band, out)
}

/// The rows of a band. None before `first` stands in it.
fn write_rows<W: Write>(
    chart: &TextChart<'_>,
    first: usize,
    band: &Band,
    widths: &Widths,
    out: &mut W,
) -> io::Result<()>
    ensures { OnOk result (AreByFetch chart.now.rows.now → AreOver chart.now.rows.now first band.now.from
        → Appends (W.contents out.old) (W.contents out.new)
        (each_from (row_text widths.now (drawing_of chart.now) band.now) 0 chart.now.rows.now)) }
{
    let shown = chart.view.within(band);
    for number in first..chart.rows.len() {
        let row = &chart.rows[number];
        if row.fetched > band.to {
            return Ok(());
        }
        write_row(chart, row, number, &shown, band, widths, out)?;
    }
    Ok(())
}

/// Writes the line of a row with this number, where something of it is shown.
fn write_row<W: Write>(
    chart: &TextChart<'_>,
    row: &Row,
    number: usize,
    shown: &View,
    band: &Band,
    widths: &Widths,
    out: &mut W,
) -> io::Result<()>
    ensures { OnOk result (Appends (W.contents out.old) (W.contents out.new)
        (if shows shown.now row.now then line_text widths.now (marks_of chart.now.labels) chart.now.registers.now band.now
        number row.now else [])) }
{
    if shown.shows(row) {
        let named = Named {
            labels: &chart.labels,
            form: Form::Word,
            registers: chart.registers,
        };
        return write_line(row, number, band, widths, named, out);
    }
    out.write_all(b"")
}
