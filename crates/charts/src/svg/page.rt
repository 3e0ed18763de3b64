//! Where the parts of a picture stand, in the picture's units.

ghost use Rattle.std.specs.Prelude.{◌<◌};

use super::counters::strips_of;
use super::form::PictureForm;
use super::heading::{heading_width, over_bands};
use super::legend::legend_width;
use crate::chart::Chart;
use crate::label::Widths;
use chart_rows::{Band, Row, View, first_left};

/// The width of a column, the height of a row, and the width of a character.
pub(crate) const COLUMN: u32 = 12;

pub(crate) const ROW: u32 = 17;

pub(crate) const CHARACTER: u32 = 8;

/// The room around the page, and over and between its bands.
pub(crate) const MARGIN: u32 = 12;

const RULER: u32 = 22;

const GAP: u32 = 18;

/// The height of a counter's strip.
pub(crate) const STRIP: u32 = 20;

/// Where the parts of a picture stand.
#[derive(Clone, Copy, Drop)]
pub(crate) struct Page {
    /// Where the columns begin.
    left: u32,
    /// Where the first band begins.
    first: u32,
    pub width: u32,
    pub height: u32,
}

impl Page {
    /// The page of a chart in bands of so many columns.
    pub fn of(chart: &Chart<'_>, form: &PictureForm<'_>, columns: u32, widths: &Widths) -> Page
        requires { 0 < columns }
    {
        let left = width_of(widths.name()).saturating_add(MARGIN);
        let remark = width_of(widths.remark().saturating_add(14));
        let width = left
            .saturating_add(columns.saturating_mul(COLUMN))
            .saturating_add(remark);
        let first = over_bands(chart, form);
        Page {
            left,
            first,
            width: width
                .max(heading_width(chart, form))
                .max(legend_width(form)),
            height: first.saturating_add(bands_height(chart, form, columns)),
        }
    }

    /// Where the first band begins.
    pub fn first_top(&self) -> u32 {
        self.first
    }

    pub fn below_ruler(&self, top: u32) -> u32 {
        top.saturating_add(RULER)
    }

    pub fn below_row(&self, top: u32) -> u32 {
        top.saturating_add(ROW)
    }

    /// Below so many rows from this height on.
    pub fn below_rows(&self, top: u32, count: u32) -> u32 {
        top.saturating_add(count.saturating_mul(ROW))
    }

    pub fn below_strip(&self, top: u32) -> u32 {
        top.saturating_add(STRIP)
    }

    pub fn below_band(&self, top: u32) -> u32 {
        top.saturating_add(GAP)
    }

    /// The left edge of a column, and its middle.
    pub fn edge(&self, band: &Band, column: u32) -> u32 {
        let before = column.saturating_sub(band.from);
        self.left.saturating_add(before.saturating_mul(COLUMN))
    }

    pub fn middle(&self, band: &Band, column: u32) -> u32 {
        self.edge(band, column).saturating_add(COLUMN / 2)
    }
}

/// The width of so many characters.
pub(crate) fn width_of(characters: usize) -> u32 {
    u32::try_from(characters)
        .unwrap_or(u32::MAX)
        .saturating_mul(CHARACTER)
}

/// The height of all bands, of so many columns each.
fn bands_height(chart: &Chart<'_>, form: &PictureForm<'_>, columns: u32) -> u32
    requires { 0 < columns }
{
    let below = strips_of(chart, form).saturating_mul(STRIP);
    let mut height = 0_u32;
    let mut first = 0;
    for number in 0..chart.view.bands(columns) {
        let band = chart.view.band(number, columns);
        first = first_left(chart.placed, first, band.from);
        let rows = count_shown(chart.placed, first, &chart.view, &band).saturating_mul(ROW);
        height = height
            .saturating_add(RULER)
            .saturating_add(rows)
            .saturating_add(below)
            .saturating_add(GAP);
    }
    height
}

/// How many rows a band has. None before `first` stands in it.
pub(crate) fn count_shown(rows: &[Row], first: usize, view: &View, band: &Band) -> u32 {
    count_before(rows, first, rows.len(), view, band)
}

/// How many rows a band has before the one with this number. None before `first` stands in it.
pub(crate) fn count_before(
    rows: &[Row],
    first: usize,
    number: usize,
    view: &View,
    band: &Band,
) -> u32 {
    let shown = view.within(band);
    let mut count = 0_u32;
    for index in first..number.min(rows.len()) {
        let row = &rows[index];
        if row.fetched > band.to {
            return count;
        }
        if shown.shows(row) {
            count = count.saturating_add(1);
        }
    }
    count
}
