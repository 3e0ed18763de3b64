//! The bar of a row: where its instruction is in the pipeline.

use super::page::Page;
use chart_rows::{Band, Row, View};
use std::io;
use std::io::Write;

/// The height of a bar, and how far the edges of an open end go on.
const HEIGHT: u32 = 15;

const BEYOND: u32 = 4;

/// The first of the harts that have a mark at the left ends of their bars.
const FIRST_MARKED: u8 = 8;

/// The size of that mark.
const NOTCH: u32 = 6;

/// The columns of a bar in a band, and whether it goes on at either side of that.
#[derive(Clone, Copy, Drop)]
struct Span {
    begin: u32,
    end: u32,
    is_open_before: bool,
    is_open_behind: bool,
}

/// The bar of a row in a band, where it has one there.
fn span_of(row: &Row, band: &Band) -> Option<Span> {
    let last = row.end_of_life().unwrap_or(u32::MAX);
    let (begin, end) = (row.fetched.max(band.from), last.min(band.to));
    if begin > end {
        return None;
    }
    Some(Span {
        begin,
        end,
        is_open_before: row.fetched < band.from,
        is_open_behind: last > band.to,
    })
}

/// Writes the bar of a row, from its fetch to its retirement or its squash, as far as that is in the band. It is pale
/// where the squash is drawn, and open where it goes on.
pub(crate) fn write_bar<W: Write>(
    row: &Row,
    view: &View,
    band: &Band,
    page: &Page,
    top: u32,
    out: &mut W,
) -> io::Result<()> {
    let Some(span) = span_of(row, band) else {
        return Ok(());
    };
    let (x, y) = (page.edge(band, span.begin), top.saturating_add(1));
    let end = page.edge(band, span.end.saturating_add(1));
    let is_pale = row.is_squashed_by(view.to);
    write_fill(row.hart, is_pale, x, end, y, out)?;
    write_ends(row.hart, is_pale, &span, x, end, y, out)?;
    if row.hart < FIRST_MARKED {
        return Ok(());
    }
    write_notch(row.hart, x, y, out)
}

fn write_fill<W: Write>(
    hart: u8,
    is_pale: bool,
    x: u32,
    end: u32,
    y: u32,
    out: &mut W,
) -> io::Result<()> {
    let width = end.saturating_sub(x);
    let pale = if is_pale { " pale" } else { "" };
    write!(
        out,
        "<rect class=\"bar{pale} h{hart}\" x=\"{x}\" y=\"{y}\" "
    )?;
    writeln!(out, "width=\"{width}\" height=\"{HEIGHT}\"/>")
}

/// Writes the edges of a bar from one point to another, where it isn't open with its ends.
fn write_ends<W: Write>(
    hart: u8,
    is_dashed: bool,
    span: &Span,
    x: u32,
    end: u32,
    y: u32,
    out: &mut W,
) -> io::Result<()> {
    let (far, low) = (end.saturating_add(BEYOND), y.saturating_add(HEIGHT));
    let near = x.saturating_sub(BEYOND);
    match (span.is_open_before, span.is_open_behind) {
        (false, false) => write_edge(hart, is_dashed, x, end, y, out),
        (false, true) => {
            write_edge_class(hart, is_dashed, out)?;
            writeln!(out, "M{far} {y}H{x}V{low}H{far}\"/>")
        }
        (true, false) => {
            write_edge_class(hart, is_dashed, out)?;
            writeln!(out, "M{near} {y}H{end}V{low}H{near}\"/>")
        }
        (true, true) => {
            write_edge_class(hart, is_dashed, out)?;
            writeln!(out, "M{near} {y}H{far}M{near} {low}H{far}\"/>")
        }
    }
}

/// Writes all four edges of a bar from one point to another.
pub(crate) fn write_edge<W: Write>(
    hart: u8,
    is_dashed: bool,
    x: u32,
    end: u32,
    y: u32,
    out: &mut W,
) -> io::Result<()> {
    let low = y.saturating_add(HEIGHT);
    write_edge_class(hart, is_dashed, out)?;
    writeln!(out, "M{x} {y}H{end}V{low}H{x}z\"/>")
}

fn write_edge_class<W: Write>(hart: u8, is_dashed: bool, out: &mut W) -> io::Result<()> {
    let dashed = if is_dashed { " dashed" } else { "" };
    write!(out, "<path class=\"edge{dashed} e{hart}\" d=\"")
}

/// Writes the mark at the left end of the bar of a hart that has one.
pub(crate) fn write_notch<W: Write>(hart: u8, x: u32, y: u32, out: &mut W) -> io::Result<()> {
    if hart < FIRST_MARKED {
        return Ok(());
    }
    writeln!(
        out,
        "<path class=\"k{hart}\" d=\"M{x} {y}h{NOTCH}l-{NOTCH} {NOTCH}z\"/>"
    )
}
