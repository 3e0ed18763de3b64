//! The numbers of one history.

ghost use Rattle.std.specs.Prelude.{◌≡◌, ◌≤◌, length, reverse, IfOk};
ghost use Rattle.numbers.specs.Sizes.{most_events};
ghost use Rattle.chart_rows.specs.Rows.{AreRows, AreHistory};
ghost use Rattle.history_counts.specs.Numbers.{counts_of};

use crate::instructions::{Reason, count_mispredicted, count_replayed, count_squashed};
use crate::kinds::count_events;
use chart_rows::{Row, rows_of};
use events::{Event, EventKind, History};
use std::alloc::{AllocError, Global};

/// How many events and instructions of a history are of which kind.
#[derive(Clone, Copy, PartialEq, Eq, Drop)]
pub struct Counts {
    pub fetched: usize,
    pub decoded: usize,
    pub renamed: usize,
    pub issued: usize,
    pub completed: usize,
    /// What units handed back that was squashed before.
    pub dropped: usize,
    pub retired: usize,
    /// Instructions that completed and went on elsewhere than was predicted.
    pub mispredicted: usize,
    /// Loads that retired with another number than that of their first look.
    pub replayed: usize,
    /// Instructions that were fetched again, since their word wasn't the one at their pc any more.
    pub refetched: usize,
    /// Instructions that were squashed since an older one was mispredicted.
    pub squashed_mispredicted: usize,
    /// Since an older load was replayed.
    pub squashed_replayed: usize,
    /// Since they or an older one were fetched again.
    pub squashed_refetched: usize,
    /// Since an older one ended their hart.
    pub squashed_ended: usize,
    /// Since an older one stopped their hart.
    pub squashed_stopped: usize,
}

/// The numbers of a legal history. Errors: want of memory.
pub fn counts_of(history: &History, alloc: Global) -> Result<Counts, AllocError>
    requires { AreHistory history.now.items }
    ensures { IfOk result (λ counts. counts ≡ counts_of (reverse history.now.items)) }
{
    let events = listed(history, alloc)?;
    let rows = rows_of(events.as_slice(), alloc)?;
    Ok(counts_with(events.as_slice(), rows.as_slice()))
}

/// The events of a history, one after another.
fn listed(history: &History, alloc: Global) -> Result<Vec<Event>, AllocError>
    ensures events { IfOk result (λ events. events.items ≡ history.now.items) }
    ensures few { IfOk result (λ events. length events.items ≤ most_events) }
{
    let mut events = Vec::new(alloc);
    for event in history.iter() {
        events.push(event)?;
    }
    Ok(events)
}

/// The numbers of a history, of which these are the rows.
#[tactic(auto, unfolding(crate::specs::Numbers::counts_of))]
fn counts_with(events: &[Event], rows: &[Row]) -> Counts
    requires { AreRows (reverse events.now) rows.now }
    ensures { result ≡ counts_of (reverse events.now) }
{
    Counts {
        fetched: count_events(events, EventKind::Fetch),
        decoded: count_events(events, EventKind::Decode),
        renamed: count_events(events, EventKind::Rename),
        issued: count_events(events, EventKind::Issue),
        completed: count_events(events, EventKind::Complete),
        dropped: count_events(events, EventKind::Drop),
        retired: count_events(events, EventKind::Retire),
        mispredicted: count_mispredicted(events, rows),
        replayed: count_replayed(events, rows),
        refetched: count_events(events, EventKind::Refetch),
        squashed_mispredicted: count_squashed(events, rows, Reason::Mispredicted),
        squashed_replayed: count_squashed(events, rows, Reason::Replayed),
        squashed_refetched: count_squashed(events, rows, Reason::Refetched),
        squashed_ended: count_squashed(events, rows, Reason::HartEnded),
        squashed_stopped: count_squashed(events, rows, Reason::HartStopped),
    }
}
