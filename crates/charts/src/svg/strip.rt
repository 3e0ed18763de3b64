//! The row of an instruction in a picture.

use super::Sheet;
use super::bars::write_bar;
use super::hover::write_hover;
use super::page::{MARGIN, Page};
use super::remarks::write_remarks;
use chart_rows::{Band, Cell, Row};
use std::io;
use std::io::Write;

/// Writes the row of the instruction with this number, at this height of a band: its name, a bar where it is in the
/// pipeline, a letter for each of its events, and what stands behind.
pub(crate) fn write_strip<W: Write>(
    sheet: &Sheet<'_>,
    placed: &Row,
    number: usize,
    band: &Band,
    top: u32,
    out: &mut W,
) -> io::Result<()> {
    let base = top.saturating_add(13);
    out.write_all(b"<g><title>")?;
    write_hover(sheet, number, out)?;
    out.write_all(b"</title>\n")?;
    write!(
        out,
        "<text xml:space=\"preserve\" x=\"{MARGIN}\" y=\"{base}\">"
    )?;
    sheet.widths.write_name(placed, number, sheet.named, out)?;
    out.write_all(b"</text>\n")?;
    write_bar(placed, &sheet.chart.view, band, &sheet.page, top, out)?;
    write_letters(placed, band, &sheet.page, base, out)?;
    write_remarks(sheet, placed, number, band, top, out)?;
    out.write_all(b"</g>\n")
}

/// The letters of the row's own events in the band.
fn write_letters<W: Write>(
    row: &Row,
    band: &Band,
    page: &Page,
    base: u32,
    out: &mut W,
) -> io::Result<()> {
    for column in band.from..=band.last_column(row) {
        let cell = row.cell(column);
        let class = match cell {
            Cell::Blank | Cell::Live => continue,
            Cell::Event(_) => "",
            Cell::Squash(_) => " class=\"x\"",
        };
        let x = page.middle(band, column);
        let letter = char::from(cell.letter());
        write!(out, "<text{class} x=\"{x}\" y=\"{base}\" ")?;
        writeln!(out, "text-anchor=\"middle\">{letter}</text>")?;
    }
    Ok(())
}
