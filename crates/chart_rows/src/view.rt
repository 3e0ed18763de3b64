ghost use Rattle.std.specs.Prelude.{◌≡◌, ◌<◌};
ghost use Rattle.chart_rows.specs.Views.{last_place, shows, draws_hart, view_of};
ghost use Rattle.chart_rows.specs.Bands.{band_of, bands_of, has_place, last_column, within};
ghost use Rattle.chart_rows.specs.Order.{AreOverBefore};

use crate::row::Row;

/// What is drawn of a chart: the events from one place to another, and the instructions of one hart,
/// or of all.
#[derive(Clone, Copy, PartialEq, Eq, Drop)]
pub struct View {
    /// The place of the first event that is drawn; the first of the history is at 0.
    pub from: u32,
    /// The place of the last event that is drawn; where it is before the first, none is.
    pub to: u32,
    /// The one hart whose instructions are drawn.
    pub hart: Option<u8>,
}

impl View {
    /// What is drawn of a history of so many events, of what is asked for.
    pub fn new(from: u32, to: u32, hart: Option<u8>, events: usize) -> View
        ensures { result ≡ view_of from to hart events }
    {
        if events == 0 {
            return View {
                from: 1,
                to: 0,
                hart,
            };
        }
        let last = u32::try_from(events - 1).unwrap_or(u32::MAX);
        View {
            from,
            to: to.min(last),
            hart,
        }
    }

    /// Whether the instruction of a row is drawn: it is of a hart that is drawn, and something of it
    /// stands in these columns.
    pub fn shows(&self, row: &Row) -> bool
        ensures { result ≡ shows self.now row.now }
    {
        self.has_hart(row.hart)
            && self.from <= self.to
            && row.fetched <= self.to
            && !row.ends_before(self.from)
    }

    fn has_hart(&self, hart: u8) -> bool
        ensures { result ≡ draws_hart self.now.hart hart }
    {
        match self.hart {
            Some(one) => one == hart,
            None => true,
        }
    }
}

/// The first of the rows, from this one on, that doesn't end before an event: no older one stands in
/// the columns from this event on.
pub fn first_left(rows: &[Row], first: usize, place: u32) -> usize
    ensures { AreOverBefore rows.now first result place }
{
    for index in first..rows.len() {
        if !rows[index].ends_before(place) {
            return index;
        }
    }
    rows.len()
}
