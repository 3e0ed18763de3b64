//! What stands over the columns of a band.

use super::Sheet;
use chart_rows::Band;
use std::io;
use std::io::Write;

/// How many columns lie from one number over them to the next.
const COLUMNS_A_NUMBER: u32 = 10;

/// Writes over every tenth column of a band of so many rows the place of its first event, and a line below it.
pub(crate) fn write_ruler<W: Write>(
    sheet: &Sheet<'_>,
    band: &Band,
    top: u32,
    rows: u32,
    out: &mut W,
) -> io::Result<()> {
    let base = top.saturating_add(15);
    let end = sheet.page.below_rows(sheet.page.below_ruler(top), rows);
    for column in band.from..=band.to {
        if column % COLUMNS_A_NUMBER == 0 {
            let x = sheet.page.edge(band, column);
            let place = sheet.chart.columns.head(column);
            writeln!(
                out,
                "<text class=\"far\" x=\"{x}\" y=\"{base}\">{place}</text>"
            )?;
            write!(out, "<line class=\"grid\" x1=\"{x}\" x2=\"{x}\" ")?;
            writeln!(out, "y1=\"{top}\" y2=\"{end}\"/>")?;
        }
    }
    Ok(())
}
