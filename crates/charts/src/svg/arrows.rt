//! The arrows from stores to the loads that they have overtaken.

use super::Sheet;
use super::page::{CHARACTER, COLUMN, Page, count_before};
use crate::label::digits_of;
use chart_rows::{Band, Row, store_between};
use numbers::Seq;
use std::io;
use std::io::Write;

/// A load that was replayed, and the store that wrote last between its looks, where both retirements are drawn.
#[derive(Clone, Copy, Drop)]
pub(crate) struct Sides {
    /// The number of the store.
    pub store: Seq,
    /// The columns of the retirements.
    store_column: u32,
    load_column: u32,
    /// Whether they are in a band.
    pub is_store_here: bool,
    pub is_load_here: bool,
}

/// Of the load with this number, where it was replayed.
pub(crate) fn sides_of(sheet: &Sheet<'_>, number: usize, band: &Band) -> Option<Sides> {
    let chart = sheet.chart;
    let row = chart.rows.get(number)?;
    if !row.replayed {
        return None;
    }
    let place = store_between(chart.events, row)?;
    let store = chart.events.get(place as usize)?.seq();
    let (load, writer) = (chart.placed.get(number)?, chart.placed.get(store as usize)?);
    let (store_column, load_column) = (writer.retired?, load.retired?);
    let whole = Band {
        from: chart.view.from,
        to: chart.view.to,
    };
    let are_drawn = chart.view.shows(load) && chart.view.shows(writer);
    if !(are_drawn && whole.has(writer.retired) && whole.has(load.retired)) {
        return None;
    }
    Some(Sides {
        store,
        store_column,
        load_column,
        is_store_here: band.has(writer.retired),
        is_load_here: band.has(load.retired),
    })
}

/// Writes the arrows of a band whose first row begins at this height: to each load that was replayed from the store
/// that wrote in between; where the load is in another band, a line that leads there.
pub(crate) fn write_arrows<W: Write>(
    sheet: &Sheet<'_>,
    band: &Band,
    first: usize,
    top: u32,
    out: &mut W,
) -> io::Result<()> {
    let placed = sheet.chart.placed;
    for number in first..placed.len() {
        if placed[number].fetched > band.to {
            return Ok(());
        }
        if let Some(sides) = sides_of(sheet, number, band) {
            if sides.is_store_here {
                write_from_store(sheet, &sides, number, band, first, top, out)?;
            }
        }
    }
    Ok(())
}

/// Writes what leads from a store to a load.
fn write_from_store<W: Write>(
    sheet: &Sheet<'_>,
    sides: &Sides,
    load: usize,
    band: &Band,
    first: usize,
    top: u32,
    out: &mut W,
) -> io::Result<()> {
    let from = sheet.page.middle(band, sides.store_column);
    let y = middle_of_row(sheet, band, first, sides.store as usize, top);
    if !sides.is_load_here {
        let x = from.saturating_add(COLUMN / 2);
        return writeln!(out, "<path class=\"arrow\" d=\"M{x} {y}h14\"/>");
    }
    let to = sheet
        .page
        .middle(band, sides.load_column)
        .saturating_sub(COLUMN / 2);
    let x = from.saturating_add(COLUMN / 2).min(to);
    let ring = middle_of_row(sheet, band, first, load, top);
    let end = if ring < y {
        ring.saturating_add(5)
    } else {
        ring.saturating_sub(5)
    };
    write!(out, "<path class=\"arrow\" marker-end=\"url(#point)\" ")?;
    writeln!(out, "d=\"M{x} {y}H{to}V{end}\"/>")
}

/// The middle of the row with this number, in a band whose first row begins at this height.
fn middle_of_row(sheet: &Sheet<'_>, band: &Band, first: usize, number: usize, top: u32) -> u32 {
    let before = count_before(sheet.chart.placed, first, number, &sheet.chart.view, band);
    sheet.page.below_rows(top, before).saturating_add(9)
}

/// Writes at a load, whose ring is round this point, from which store it was overtaken. Answers what is free behind.
pub(crate) fn write_stub<W: Write>(store: Seq, x: u32, y: u32, out: &mut W) -> io::Result<u32> {
    let (tail, end) = (x.saturating_add(24), x.saturating_add(8));
    let (text, base) = (x.saturating_add(28), y.saturating_add(4));
    write!(out, "<path class=\"arrow\" marker-end=\"url(#point)\" ")?;
    writeln!(out, "d=\"M{tail} {y}H{end}\"/>")?;
    writeln!(
        out,
        "<text class=\"x\" x=\"{text}\" y=\"{base}\">from {store}</text>"
    )?;
    let letters = u32::from(digits_of(store as usize)).saturating_add(6);
    Ok(text.saturating_add(letters.saturating_mul(CHARACTER)))
}
