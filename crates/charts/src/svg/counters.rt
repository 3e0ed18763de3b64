//! The strips below a band: how full the parts of a core are behind each column.

use super::Sheet;
use super::form::PictureForm;
use super::page::{CHARACTER, COLUMN, MARGIN, STRIP};
use crate::chart::Chart;
use chart_counters::Counters;
use chart_rows::Band;
use numbers::sizes::MOST_HARTS;
use std::io;
use std::io::Write;

/// The height of the highest column of a strip.
const HIGHEST: u64 = 14;

/// What a strip shows.
#[derive(Clone, Copy, Drop)]
enum Part {
    /// How many instructions of a hart are in decode, rename and the issue queue.
    Icount(u8),
    /// How many instructions wait in the issue queue, for each kind of unit.
    Alu,
    Mul,
    Mem,
    /// How many instructions of a hart are in flight.
    InFlight(u8),
    /// How many registers are free.
    Free,
}

impl Part {
    fn count(self, counters: &Counters) -> u32 {
        match self {
            Part::Icount(hart) => of_hart(&counters.icount, hart),
            Part::Alu => counters.queue.alu,
            Part::Mul => counters.queue.mul,
            Part::Mem => counters.queue.mem,
            Part::InFlight(hart) => of_hart(&counters.in_flight, hart),
            Part::Free => counters.free,
        }
    }

    /// The greatest of its numbers.
    fn most(self, all: &[Counters]) -> u32 {
        let mut most = 0;
        for counters in all {
            most = self.count(counters).max(most);
        }
        most
    }

    fn write_name<W: Write>(self, out: &mut W) -> io::Result<()> {
        match self {
            Part::Icount(hart) => write!(out, "ICOUNT {hart}"),
            Part::Alu => out.write_all(b"queue alu"),
            Part::Mul => out.write_all(b"queue mul"),
            Part::Mem => out.write_all(b"queue mem"),
            Part::InFlight(hart) => write!(out, "in flight {hart}"),
            Part::Free => out.write_all(b"free"),
        }
    }
}

fn of_hart(counts: &[u32], hart: u8) -> u32 {
    match counts.get(usize::from(hart)) {
        Some(count) => *count,
        None => 0,
    }
}

/// How many strips a band has.
pub(crate) fn strips_of(chart: &Chart<'_>, form: &PictureForm<'_>) -> u32 {
    if form.counters.is_empty() {
        return 0;
    }
    let harts = match chart.view.hart {
        Some(_) => 1,
        None => u32::from(form.harts.min(MOST_HARTS)),
    };
    harts * 2 + 5
}

/// Writes the strips of a band from this height on. Answers where the next would begin.
pub(crate) fn write_strips<W: Write>(
    sheet: &Sheet<'_>,
    band: &Band,
    top: u32,
    out: &mut W,
) -> io::Result<u32> {
    let counters = sheet.form.counters;
    if counters.is_empty() {
        return Ok(top);
    }
    let mut top = write_by_hart(sheet, counters, false, band, top, out)?;
    top = write_chosen(sheet, counters, band, top, out)?;
    for part in [Part::Alu, Part::Mul, Part::Mem] {
        top = write_part(sheet, counters, part, band, top, out)?;
    }
    top = write_by_hart(sheet, counters, true, band, top, out)?;
    write_part(sheet, counters, Part::Free, band, top, out)
}

/// Writes a strip for each hart that is drawn.
fn write_by_hart<W: Write>(
    sheet: &Sheet<'_>,
    counters: &[Counters],
    is_in_flight: bool,
    band: &Band,
    top: u32,
    out: &mut W,
) -> io::Result<u32> {
    let mut top = top;
    for hart in 0..sheet.form.harts.min(MOST_HARTS) {
        if sheet.chart.view.hart.is_none() || sheet.chart.view.hart == Some(hart) {
            let part = if is_in_flight {
                Part::InFlight(hart)
            } else {
                Part::Icount(hart)
            };
            top = write_part(sheet, counters, part, band, top, out)?;
        }
    }
    Ok(top)
}

/// Writes the strip of a part.
fn write_part<W: Write>(
    sheet: &Sheet<'_>,
    counters: &[Counters],
    part: Part,
    band: &Band,
    top: u32,
    out: &mut W,
) -> io::Result<u32> {
    let most = part.most(counters);
    let base = top.saturating_add(STRIP - 3);
    write!(out, "<g><text class=\"far\" x=\"{MARGIN}\" y=\"{base}\">")?;
    part.write_name(out)?;
    write!(out, "</text>\n<path class=\"level\" d=\"")?;
    write_levels(sheet, counters, part, most, band, base, out)?;
    write_base(sheet, band, base, out)?;
    let end = behind(sheet, band);
    writeln!(
        out,
        "<text class=\"far\" x=\"{end}\" y=\"{base}\">highest {most}</text></g>"
    )?;
    Ok(sheet.page.below_strip(top))
}

/// Where it begins what stands behind a strip.
fn behind(sheet: &Sheet<'_>, band: &Band) -> u32 {
    sheet
        .page
        .edge(band, band.to.saturating_add(1))
        .saturating_add(CHARACTER)
}

/// Writes the line on which a strip stands.
fn write_base<W: Write>(sheet: &Sheet<'_>, band: &Band, base: u32, out: &mut W) -> io::Result<()> {
    let (x, end) = (
        sheet.page.edge(band, band.from),
        sheet.page.edge(band, band.to.saturating_add(1)),
    );
    writeln!(
        out,
        "<line class=\"base\" x1=\"{x}\" x2=\"{end}\" y1=\"{base}\" y2=\"{base}\"/>"
    )
}

/// Writes how high each column of a strip is.
fn write_levels<W: Write>(
    sheet: &Sheet<'_>,
    counters: &[Counters],
    part: Part,
    most: u32,
    band: &Band,
    base: u32,
    out: &mut W,
) -> io::Result<()> {
    write!(out, "M{} {base}", sheet.page.edge(band, band.from))?;
    for column in band.from..=band.to {
        if let Some(behind) = counters_behind(sheet.chart, counters, column) {
            let height = height_of(part.count(behind), most);
            write!(out, "V{}h{COLUMN}", base.saturating_sub(height))?;
        }
    }
    writeln!(out, "V{base}z\"/>")
}

/// How high a number is drawn, of which the greatest is this.
fn height_of(count: u32, most: u32) -> u32 {
    if most == 0 {
        return 0;
    }
    (u64::from(count.min(most)) * HIGHEST / u64::from(most)) as u32
}

/// The numbers behind the last event of a column.
fn counters_behind<'a>(
    chart: &Chart<'_>,
    counters: &'a [Counters],
    column: u32,
) -> Option<&'a Counters> {
    let first = chart.columns.head(chart.view.from);
    counters.get(chart.columns.last(column).saturating_sub(first) as usize)
}

/// Writes which hart each column with a fetch has chosen.
fn write_chosen<W: Write>(
    sheet: &Sheet<'_>,
    counters: &[Counters],
    band: &Band,
    top: u32,
    out: &mut W,
) -> io::Result<u32> {
    let base = top.saturating_add(STRIP - 3);
    writeln!(
        out,
        "<g><text class=\"far\" x=\"{MARGIN}\" y=\"{base}\">chosen</text>"
    )?;
    for column in band.from..=band.to {
        if let Some(hart) = chosen_in(sheet.chart, counters, column) {
            let x = sheet.page.middle(band, column);
            write!(out, "<text x=\"{x}\" y=\"{base}\" ")?;
            writeln!(out, "text-anchor=\"middle\">{hart:x}</text>")?;
        }
    }
    out.write_all(b"</g>\n")?;
    Ok(sheet.page.below_strip(top))
}

/// The hart that was fetched in a column, the last where there are several.
fn chosen_in(chart: &Chart<'_>, counters: &[Counters], column: u32) -> Option<u8> {
    let first = chart.columns.head(chart.view.from);
    let mut chosen = None;
    for place in chart.columns.head(column)..=chart.columns.last(column) {
        if let Some(behind) = counters.get(place.saturating_sub(first) as usize) {
            if behind.chosen.is_some() {
                chosen = behind.chosen;
            }
        }
    }
    chosen
}
