//! The column of each event, where as many stand in one as can.

ghost use Rattle.std.specs.Prelude.{◌≡◌, ◌-◌, ◌||◌, ◌<◌, ◌≤◌, ℕ, IfOk, List, drop, length, nat_lt, replicate, slice_index_or, take};
ghost use Rattle.numbers.specs.Sizes.{most_events};
ghost use Rattle.events.specs.Event.{actor_of};
ghost use Rattle.events.specs.declared.event.Event.{Event as AnyEvent};
ghost use Rattle.chart_rows.specs.declared.row.Row.{Row as AnyRow};
ghost use Rattle.chart_columns.specs.Rounds.{AreColumns, has_actor, next_round};
ghost use Rattle.chart_columns.specs.Limits.{AreLimits};

use crate::limits::enter_rows;
use chart_rows::Row;
use events::Event;
use std::alloc::{AllocError, Global};

/// The columns of the events of a history with these rows, by rounds: a round is the longest run of events, from where
/// the one before it ends, in which no actor comes twice and no row has two marks. Errors: want of memory.
pub(crate) fn round_columns(
    rows: &[Row],
    events: &[Event],
    alloc: Global,
) -> Result<Vec<u32>, AllocError>
    requires few { length events.now ≤ most_events }
    ensures { IfOk result (λ columns. AreColumns rows.now events.now columns.items) }
{
    let mut table = Vec::new(alloc);
    table.resize(events.len(), 0)?;
    fill(table.as_mut_slice(), rows, events);
    Ok(table)
}

/// Makes of a table of noughts, one for each event, that of their columns.
fn fill(table: &mut [u32], rows: &[Row], events: &[Event])
    requires noughts { table.old ≡ replicate (length events.now) 0 }
    requires few { length events.now ≤ most_events }
    ensures { AreColumns rows.now events.now table.new }
{
    enter_rows(table, rows);
    number_rounds(table, events);
}

/// The round of an event.
#[derive(Clone, Copy, Drop)]
struct Round {
    /// The place of its first event.
    start: u32,
    /// How many rounds came before it.
    column: u32,
}

/// Makes of the limit of each event its column.
fn number_rounds(table: &mut [u32], events: &[Event])
    requires count { length table.old ≡ length events.now }
    requires few { length events.now ≤ most_events }
    ensures { (rows : List AnyRow) → AreLimits rows table.old → AreColumns rows events.now table.new }
{
    let mut round = Round {
        start: 0,
        column: 0,
    };
    for place in 0..events.len() {
        round = round.with(events, place, table[place]);
        table[place] = round.column;
    }
}

impl Round {
    /// The round of the event at a place, behind this one, where the round of that can't begin before a limit.
    fn with(self, events: &[Event], place: usize, limit: u32) -> Round
        requires inside { place < length events.now }
        requires few { length events.now ≤ most_events }
        requires start { self.start ≤ place }
        requires column { self.column ≤ place }
        ensures { (d : AnyEvent) → result ≡ next_round (has_actor (actor_of (slice_index_or events.now place d))
            (take (place - self.start) (drop self.start events.now)) || nat_lt self.start limit) place self }
    {
        if self.has_actor(events, place) || limit > self.start {
            return Round {
                start: place as u32,
                column: self.column + 1,
            };
        }
        self
    }

    /// Whether it has an event already of the actor of the one at this place.
    fn has_actor(self, events: &[Event], place: usize) -> bool
        requires inside { place < length events.now }
        requires start { self.start ≤ place }
        ensures { (d : AnyEvent) → result ≡ has_actor (actor_of (slice_index_or events.now place d))
            (take (place - self.start) (drop self.start events.now)) }
    {
        has_actor(&events[self.start as usize..place], events[place].actor())
    }
}

/// Whether one of some events is an actor's.
fn has_actor(events: &[Event], actor: u8) -> bool
    ensures { result ≡ has_actor actor events.now }
{
    events.iter().any(|event| event.actor() == actor)
}
