//! The legend of a picture: what its colours, letters and marks mean.

use super::bars::{write_edge, write_notch};
use super::form::PictureForm;
use super::heading::legend_top;
use super::page::MARGIN;
use crate::chart::Chart;
use chart_rows::{Row, View};
use numbers::sizes::MOST_HARTS;
use std::io;
use std::io::Write;
use svg_drawing::write_label;

/// The height of a line.
const LINE: u32 = 20;

/// How many harts stand in a line, and the width of one.
const HARTS_A_LINE: u32 = 8;

const HART: u32 = 78;

/// How many lines stand below the harts, without that of counters, and how wide they are.
const LINES: u32 = 7;

const WIDTH: u32 = 740;

/// What letters and marks mean: from the top of the first of the lines on.
const MARKS: &[u8] =
    b"<text class=\"far\" x=\"12\" y=\"14\"><tspan class=\"key\">F</tspan> fetched</text>
<text class=\"far\" x=\"104\" y=\"14\"><tspan class=\"key\">D</tspan> decoded</text>
<text class=\"far\" x=\"196\" y=\"14\"><tspan class=\"key\">R</tspan> renamed</text>
<text class=\"far\" x=\"288\" y=\"14\"><tspan class=\"key\">I</tspan> issued</text>
<text class=\"far\" x=\"372\" y=\"14\"><tspan class=\"key\">C</tspan> completed</text>
<text class=\"far\" x=\"478\" y=\"14\"><tspan class=\"key\">T</tspan> retired</text>
<text class=\"far\" x=\"12\" y=\"34\"><tspan class=\"key\">G</tspan> refetched: another word stands there now</text>
<text class=\"far\" x=\"354\" y=\"34\"><tspan class=\"x\">x</tspan> squashed</text>
<text class=\"far\" x=\"446\" y=\"34\"><tspan class=\"key\">X</tspan> handed back by its unit</text>
<rect class=\"bar any\" x=\"12\" y=\"43\" width=\"36\" height=\"15\"/>
<path class=\"edge eany\" d=\"M12 43H48V58H12z\"/>
<text class=\"far\" x=\"56\" y=\"54\">in the pipeline</text>
<rect class=\"bar pale any\" x=\"184\" y=\"43\" width=\"36\" height=\"15\"/>
<path class=\"edge dashed eany\" d=\"M184 43H220V58H184z\"/>
<text class=\"far\" x=\"228\" y=\"54\">squashed</text>
<rect class=\"bar any\" x=\"312\" y=\"43\" width=\"32\" height=\"15\"/>
<path class=\"edge eany\" d=\"M348 43H312V58H348\"/>
<text class=\"far\" x=\"356\" y=\"54\">goes on in the next band, or behind what is drawn</text>
<circle class=\"again\" cx=\"20\" cy=\"70\" r=\"7\"/>
<text x=\"20\" y=\"74\" text-anchor=\"middle\">T</text>
<text class=\"far\" x=\"36\" y=\"74\">a load's second look found another number</text>
<circle class=\"same\" cx=\"368\" cy=\"70\" r=\"7\"/>
<text x=\"368\" y=\"74\" text-anchor=\"middle\">T</text>
<text class=\"far\" x=\"384\" y=\"74\">found the same number</text>
<path class=\"arrow\" marker-end=\"url(#point)\" d=\"M12 90H48\"/>
<text class=\"far\" x=\"56\" y=\"94\">from the store that wrote between a load's looks to its second (from N: number N)</text>
";

/// Where the lines of `MARKS` end, and the two behind them.
const LEFT_LINE: u32 = 114;

const BEHIND_LINE: u32 = 134;

const COUNTERS_LINE: u32 = 154;

/// The height of the legend.
pub(crate) fn legend_height(chart: &Chart<'_>, form: &PictureForm<'_>) -> u32 {
    let below = if form.counters.is_empty() {
        LINES
    } else {
        LINES + 1
    };
    hart_lines(chart)
        .saturating_add(below)
        .saturating_mul(LINE)
        .saturating_add(8)
}

/// How many lines the harts take.
fn hart_lines(chart: &Chart<'_>) -> u32 {
    let mut count = 0_u32;
    for hart in 0..MOST_HARTS {
        if has_hart(chart.placed, &chart.view, hart) {
            count = count.saturating_add(1);
        }
    }
    count.saturating_add(HARTS_A_LINE - 1) / HARTS_A_LINE
}

/// The width of the legend, with its margins.
pub(crate) fn legend_width(form: &PictureForm<'_>) -> u32 {
    if !form.registers.is_empty() {
        return WIDTH + 180;
    }
    WIDTH
}

/// Writes the legend.
pub(crate) fn write_legend<W: Write>(
    chart: &Chart<'_>,
    form: &PictureForm<'_>,
    out: &mut W,
) -> io::Result<()> {
    write_harts(chart, out)?;
    let top = legend_top().saturating_add(hart_lines(chart).saturating_mul(LINE));
    writeln!(out, "<g class=\"legend\" transform=\"translate(0 {top})\">")?;
    out.write_all(MARKS)?;
    write_left(chart, form, out)?;
    write_label(
        "far",
        MARGIN,
        BEHIND_LINE,
        "over the columns: the places of events; behind a row: what squashed it (by N: number N)",
        out,
    )?;
    write_below(form, out)?;
    out.write_all(b"</g>\n")
}

/// Writes what stands at the left of a row.
fn write_left<W: Write>(chart: &Chart<'_>, form: &PictureForm<'_>, out: &mut W) -> io::Result<()> {
    write!(out, "<text class=\"far\" x=\"{MARGIN}\" y=\"{LEFT_LINE}\">")?;
    out.write_all(b"at the left: hart, number, pc, instruction")?;
    if !chart.labels.are_none() {
        out.write_all(b", name of the code")?;
    }
    if !form.registers.is_empty() {
        out.write_all(
            b", registers (x7&gt;p33 written to p33, x5=p31:4 read from p31, which number 4 writes)",
        )?;
    }
    out.write_all(b"</text>\n")
}

/// Writes what stands below the rows.
fn write_below<W: Write>(form: &PictureForm<'_>, out: &mut W) -> io::Result<()> {
    if form.counters.is_empty() {
        return Ok(());
    }
    write_label(
        "far",
        MARGIN,
        COUNTERS_LINE,
        "below the rows: how many there are behind each column (ICOUNT: in decode, rename and queue)",
        out,
    )
}

/// Writes the colour of each hart of which there is a row.
fn write_harts<W: Write>(chart: &Chart<'_>, out: &mut W) -> io::Result<()> {
    let mut place = 0_u32;
    for hart in 0..MOST_HARTS {
        if has_hart(chart.placed, &chart.view, hart) {
            let x = MARGIN.saturating_add((place % HARTS_A_LINE).saturating_mul(HART));
            let y = legend_top().saturating_add((place / HARTS_A_LINE).saturating_mul(LINE));
            write_hart(hart, x, y, out)?;
            place = place.saturating_add(1);
        }
    }
    Ok(())
}

/// Writes the colour and the mark of a hart, at this point.
fn write_hart<W: Write>(hart: u8, x: u32, y: u32, out: &mut W) -> io::Result<()> {
    let (end, base, text) = (
        x.saturating_add(15),
        y.saturating_add(12),
        x.saturating_add(20),
    );
    write!(out, "<rect class=\"bar h{hart}\" x=\"{x}\" y=\"{y}\" ")?;
    out.write_all(b"width=\"15\" height=\"15\"/>\n")?;
    write_edge(hart, false, x, end, y, out)?;
    write_notch(hart, x, y, out)?;
    writeln!(out, "<text x=\"{text}\" y=\"{base}\">hart {hart}</text>")
}

fn has_hart(rows: &[Row], view: &View, hart: u8) -> bool {
    for row in rows {
        if row.hart == hart && view.shows(row) {
            return true;
        }
    }
    false
}
