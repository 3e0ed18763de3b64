//! What stands in a row under an event.

ghost use Rattle.std.specs.Prelude.{◌≡◌, ◌≢◌, ℕ, IfSome, IfNone};
ghost use Rattle.events.specs.declared.kind.EventKind.{EventKind as Kind};
ghost use Rattle.chart_rows.specs.Cells.{place_of, cell_at, cell_letter, is_at, is_live, is_over, kind_at, IsCellOf};
ghost use Rattle.chart_rows.specs.Views.{last_place, is_before, place_of_squash};

use crate::row::Row;
use events::EventKind;
use numbers::Seq;

/// What stands in the row of an instruction under an event.
#[derive(Clone, Copy, PartialEq, Eq, Drop)]
pub enum Cell {
    /// It isn't fetched yet, or it has retired or was squashed.
    Blank,
    /// It is fetched, and neither retired nor squashed, and the event is of another one.
    Live,
    /// The event is its own.
    Event(EventKind),
    /// The event squashed it, and is of the instruction with this number.
    Squash(Seq),
}

impl Cell {
    /// The character that it is drawn as.
    pub fn letter(self) -> u8
        ensures { result ≡ cell_letter self }
    {
        match self {
            Cell::Blank => b' ',
            Cell::Live => b'.',
            Cell::Event(kind) => kind.letter(),
            Cell::Squash(_) => b'x',
        }
    }
}

impl Row {
    /// What stands in the row under the event at this place.
    #[tactic(auto, unfolding(crate::specs::Cells::cell_at))]
    pub fn cell(&self, place: u32) -> Cell
        ensures is { IsCellOf self.now place result }
        ensures same { result ≡ cell_at self.now place }
    {
        if let Some(kind) = self.kind_at(place) {
            return Cell::Event(kind);
        }
        if let Some(squash) = self.squashed {
            if squash.place == place {
                return Cell::Squash(squash.by);
            }
        }
        if self.is_live_at(place) {
            return Cell::Live;
        }
        Cell::Blank
    }

    /// The kind of the instruction's event at this place, if it has one there.
    fn kind_at(&self, place: u32) -> Option<EventKind>
        ensures some { IfSome result (λ kind. place_of kind self.now ≡ Some place) }
        ensures none { IfNone result ((kind : Kind) → place_of kind self.now ≢ Some place) }
        ensures same { result ≡ kind_at self.now place }
    {
        if self.fetched == place {
            return Some(EventKind::Fetch);
        }
        if is_at(self.decoded, place) {
            return Some(EventKind::Decode);
        }
        if is_at(self.renamed, place) {
            return Some(EventKind::Rename);
        }
        if is_at(self.issued, place) {
            return Some(EventKind::Issue);
        }
        if is_at(self.completed, place) {
            return Some(EventKind::Complete);
        }
        if is_at(self.dropped, place) {
            return Some(EventKind::Drop);
        }
        if is_at(self.retired, place) {
            return Some(EventKind::Retire);
        }
        if is_at(self.refetched, place) {
            return Some(EventKind::Refetch);
        }
        None
    }

    /// Whether it is fetched, and neither retired nor squashed, behind the event at this place.
    fn is_live_at(&self, place: u32) -> bool
        ensures { result ≡ is_live self.now place }
    {
        self.fetched < place && !is_at_or_before(self.retired, place) && !self.is_squashed_by(place)
    }

    /// Whether it was squashed by the event at this place, or by one before.
    pub fn is_squashed_by(&self, place: u32) -> bool
        ensures { result ≡ is_over (place_of_squash self.now.squashed) place }
    {
        match self.squashed {
            Some(squash) => squash.place <= place,
            None => false,
        }
    }

    /// Whether it was squashed by the event at this place.
    pub fn is_squashed_at(&self, place: u32) -> bool {
        match self.squashed {
            Some(squash) => squash.place == place,
            None => false,
        }
    }

    /// Where it retired or was squashed; none where it is live at the end of the history.
    pub fn end_of_life(&self) -> Option<u32> {
        if self.retired.is_some() {
            return self.retired;
        }
        match self.squashed {
            Some(squash) => Some(squash.place),
            None => None,
        }
    }

    /// Whether nothing stands in the row from the event at this place on.
    pub fn ends_before(&self, place: u32) -> bool
        ensures { result ≡ is_before (last_place self.now) place }
    {
        match self.last_place() {
            Some(last) => last < place,
            None => false,
        }
    }

    /// The place of the last that stands in the row: its retirement, or its drop or its squash. None
    /// where it is live at the end of the history.
    pub fn last_place(&self) -> Option<u32>
        ensures { result ≡ last_place self.now }
    {
        if self.retired.is_some() {
            return self.retired;
        }
        if self.dropped.is_some() {
            return self.dropped;
        }
        match self.squashed {
            Some(squash) => Some(squash.place),
            None => None,
        }
    }
}

fn is_at(event: Option<u32>, place: u32) -> bool
    ensures { result ≡ is_at event place }
{
    match event {
        Some(at) => at == place,
        None => false,
    }
}

fn is_at_or_before(event: Option<u32>, place: u32) -> bool
    ensures { result ≡ is_over event place }
{
    match event {
        Some(at) => at <= place,
        None => false,
    }
}
