//! What stands behind a row, and the ring round the retirement of a load that looked again.

use super::Sheet;
use super::arrows::{Sides, sides_of, write_stub};
use super::page::Page;
use chart_rows::{Band, Cause, Row, Squash, store_between};
use std::io;
use std::io::Write;
use svg_drawing::write_label;

/// Writes behind a row, in the band of that, what squashed it, or that it was replayed; and a ring round the retirement
/// of a load that looked again.
pub(crate) fn write_remarks<W: Write>(
    sheet: &Sheet<'_>,
    placed: &Row,
    number: usize,
    band: &Band,
    top: u32,
    out: &mut W,
) -> io::Result<()> {
    if let Some(squash) = placed.squashed {
        if band.has(Some(squash.place)) {
            let x = behind(&sheet.page, band, placed);
            write_why(placed, number, squash, x, top.saturating_add(13), out)?;
        }
    }
    if let Some(place) = placed.retired {
        if band.has(Some(place)) {
            write_second_look(sheet, placed, number, band, top, out)?;
        }
    }
    Ok(())
}

/// Where it begins what stands behind a row.
fn behind(page: &Page, band: &Band, placed: &Row) -> u32 {
    page.edge(band, band.last_column(placed).saturating_add(1))
        .saturating_add(4)
}

/// Writes why an instruction was squashed.
fn write_why<W: Write>(
    row: &Row,
    number: usize,
    squash: Squash,
    x: u32,
    base: u32,
    out: &mut W,
) -> io::Result<()> {
    write!(out, "<text class=\"x\" x=\"{x}\" y=\"{base}\">")?;
    write_cause(row, number, squash, out)?;
    out.write_all(b"</text>\n")
}

/// Writes in short what squashed an instruction, and by which one.
pub(crate) fn write_cause<W: Write>(
    row: &Row,
    number: usize,
    squash: Squash,
    out: &mut W,
) -> io::Result<()> {
    let (by, hart) = (squash.by, row.hart);
    match squash.cause {
        Cause::Mispredicted { .. } => write!(out, "mispredicted by {by}"),
        Cause::Replayed => write!(out, "replayed by {by}"),
        Cause::Ended => write!(out, "hart {hart} ended"),
        Cause::Stopped => write!(out, "hart {hart} stopped"),
        Cause::Refetched if by as usize == number => out.write_all(b"refetched"),
        Cause::Refetched => write!(out, "refetched by {by}"),
    }
}

/// Writes a ring round the retirement of a load that looked again, thick where it found another number; and behind
/// that one `replayed`, with the number of the store that wrote in between where that is drawn in another band.
fn write_second_look<W: Write>(
    sheet: &Sheet<'_>,
    placed: &Row,
    number: usize,
    band: &Band,
    top: u32,
    out: &mut W,
) -> io::Result<()> {
    let Some(row) = sheet.chart.rows.get(number) else {
        return Ok(());
    };
    let retired = placed.retired.unwrap_or(0);
    let (x, y) = (sheet.page.middle(band, retired), top.saturating_add(9));
    if !row.replayed {
        if store_between(sheet.chart.events, row).is_some() {
            write_ring("same", x, y, out)?;
        }
        return Ok(());
    }
    write_ring("again", x, y, out)?;
    let (base, free) = (top.saturating_add(13), x.saturating_add(12));
    match sides_of(sheet, number, band) {
        Some(
            Sides {
                store,
                is_store_here: false,
                is_load_here: true,
                ..
            },
        ) => {
            let free = write_stub(store, x, y, out)?;
            write_label("x", free, base, "replayed", out)
        }
        _ => write_label("x", free, base, "replayed", out),
    }
}

fn write_ring<W: Write>(class: &str, x: u32, y: u32, out: &mut W) -> io::Result<()> {
    writeln!(
        out,
        "<circle class=\"{class}\" cx=\"{x}\" cy=\"{y}\" r=\"7\"/>"
    )
}
