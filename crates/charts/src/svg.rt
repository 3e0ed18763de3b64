//! The chart as a picture: an SVG file, for light and for dark.
//!
//! Read in this order: `form` (what is asked of a picture), `page` (where its parts stand), `style`; `heading` and
//! `legend` (what stands over the bands), `ruler`, `bars`, `arrows`, `remarks` and `hover` (the parts of a row), `strip`
//! (a row), `counters` (what stands below them).

ghost use Rattle.std.specs.Prelude.{◌≡◌, ◌<◌};
ghost use Rattle.charts.specs.Pictures.{last_pictured};

mod arrows;
mod bars;
mod counters;
mod form;
mod heading;
mod hover;
mod legend;
mod page;
mod remarks;
mod ruler;
mod strip;
mod style;

use crate::chart::Chart;
use crate::label::{Named, Widths};
use address_labels::Form;
use arrows::write_arrows;
use chart_rows::{Band, Row, View, first_left};
use counters::write_strips;
pub use form::{PictureForm, Theme};
use heading::{write_file_title, write_heading};
use legend::write_legend;
use page::{Page, count_shown};
use ruler::write_ruler;
use std::io;
use std::io::Write;
use strip::write_strip;
use style::write_style;
use svg_drawing::{write_begin, write_end};

/// The most instructions that a picture has.
pub const MOST_PICTURED: usize = 4000;

/// What a picture is made of.
#[derive(Clone, Copy, Drop)]
pub(crate) struct Sheet<'a> {
    chart: &'a Chart<'a>,
    form: &'a PictureForm<'a>,
    page: Page,
    widths: Widths,
    named: Named<'a>,
}

/// The last event to which a picture may be drawn, where it would have more than `MOST_PICTURED`
/// instructions; none where it has no more.
pub fn last_pictured(rows: &[Row], view: &View) -> Option<u32>
    ensures { result ≡ last_pictured view.now rows.now }
{
    let mut count = 0_usize;
    for row in rows {
        if view.shows(row) {
            if count == MOST_PICTURED {
                return Some(row.fetched.saturating_sub(1));
            }
            count = count.saturating_add(1);
        }
    }
    None
}

/// Writes a chart as a picture, an SVG file (docs/FORMATS.md): the part that its view shows, in bands one below the
/// other. An error is the one that `out` answered.
pub fn write_svg<W: Write>(
    chart: &Chart<'_>,
    form: &PictureForm<'_>,
    out: &mut W,
) -> io::Result<()> {
    // A band is no wider than what there is to see.
    let columns = chart.view.span().min(form.width).max(1);
    let widths = Widths::of(chart.placed, &chart.view, &chart.labels, form.registers);
    let sheet = Sheet {
        chart,
        form,
        page: Page::of(chart, form, columns, &widths),
        widths,
        named: Named {
            labels: &chart.labels,
            form: Form::Drawn,
            registers: form.registers,
        },
    };
    write_head(&sheet, out)?;
    write_bands(&sheet, columns, out)?;
    write_end(out)
}

/// Writes the head of the file, and what stands over the bands.
fn write_head<W: Write>(sheet: &Sheet<'_>, out: &mut W) -> io::Result<()> {
    write_begin(sheet.page.width, sheet.page.height, out)?;
    write_file_title(sheet.chart, sheet.form, out)?;
    write_style(sheet.form.theme, out)?;
    write_heading(sheet.chart, sheet.form, out)?;
    write_legend(sheet.chart, sheet.form, out)
}

/// Writes the bands, of so many columns each.
fn write_bands<W: Write>(sheet: &Sheet<'_>, columns: u32, out: &mut W) -> io::Result<()>
    requires { 0 < columns }
{
    let view = &sheet.chart.view;
    let mut top = sheet.page.first_top();
    let mut first = 0;
    for number in 0..view.bands(columns) {
        let band = view.band(number, columns);
        first = first_left(sheet.chart.placed, first, band.from);
        top = write_band(sheet, &band, first, top, out)?;
    }
    Ok(())
}

/// Writes a band from this height on. No row before the first stands in it. Answers where the next band begins.
fn write_band<W: Write>(
    sheet: &Sheet<'_>,
    band: &Band,
    first: usize,
    top: u32,
    out: &mut W,
) -> io::Result<u32> {
    let count = count_shown(sheet.chart.placed, first, &sheet.chart.view, band);
    write_ruler(sheet, band, top, count, out)?;
    let top = sheet.page.below_ruler(top);
    write_rows(sheet, first, band, top, out)?;
    write_arrows(sheet, band, first, top, out)?;
    let below = write_strips(sheet, band, sheet.page.below_rows(top, count), out)?;
    Ok(sheet.page.below_band(below))
}

/// Writes the rows of a band from this height on.
fn write_rows<W: Write>(
    sheet: &Sheet<'_>,
    first: usize,
    band: &Band,
    top: u32,
    out: &mut W,
) -> io::Result<()> {
    let placed = sheet.chart.placed;
    let shown = sheet.chart.view.within(band);
    let mut top = top;
    for number in first..placed.len() {
        let row = &placed[number];
        if row.fetched > band.to {
            return Ok(());
        }
        if shown.shows(row) {
            write_strip(sheet, row, number, band, top, out)?;
            top = sheet.page.below_row(top);
        }
    }
    Ok(())
}
