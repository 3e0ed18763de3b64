//! Columns of a chart that stand side by side.

ghost use Rattle.std.specs.Prelude.{◌≡◌, ◌<◌};
ghost use Rattle.chart_rows.specs.Views.{last_place};
ghost use Rattle.chart_rows.specs.Bands.{band_of, bands_of, has_place, last_column, within};

use crate::row::Row;
use crate::view::View;

/// Columns of a chart that stand side by side: from the event at one place to that at another.
#[derive(Clone, Copy, Drop)]
pub struct Band {
    pub from: u32,
    pub to: u32,
}

impl Band {
    /// Whether the event at this place has its column here.
    pub fn has(&self, place: Option<u32>) -> bool
        ensures { result ≡ has_place self.now place }
    {
        match place {
            Some(place) => self.from <= place && place <= self.to,
            None => false,
        }
    }

    /// The last of its columns in which something of a row may stand.
    pub fn last_column(&self, row: &Row) -> u32
        ensures { result ≡ last_column self.now (last_place row.now) }
    {
        match row.last_place() {
            Some(last) => last.min(self.to),
            None => self.to,
        }
    }
}

impl View {
    /// What it shows of a band.
    pub fn within(&self, band: &Band) -> View
        ensures { result ≡ within self.now band.now }
    {
        View {
            from: band.from,
            to: band.to,
            hart: self.hart,
        }
    }

    /// How many events it shows.
    pub fn span(&self) -> u32 {
        if self.from > self.to {
            return 0;
        }
        (self.to - self.from).saturating_add(1)
    }

    /// How many bands it has, of so many columns each.
    pub fn bands(&self, columns: u32) -> u32
        requires { 0 < columns }
        ensures { 1 < columns → result ≡ bands_of self.now columns }
    {
        if self.from > self.to {
            return 0;
        }
        ((self.to - self.from) / columns).saturating_add(1)
    }

    /// The band with this number, of so many columns each.
    pub fn band(&self, number: u32, columns: u32) -> Band
        requires { 0 < columns }
        ensures { number < bands_of self.now columns → result ≡ band_of self.now columns number }
    {
        let from = self.from.saturating_add(number.saturating_mul(columns));
        let to = from.saturating_add(columns - 1).min(self.to);
        Band { from, to }
    }
}
