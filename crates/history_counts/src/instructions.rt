//! The instructions of a history, by what became of them.

ghost use Rattle.std.specs.Prelude.{◌≡◌, reverse, IfOk};
ghost use Rattle.events.specs.declared.event.Event.{Event as AnyEvent};
ghost use Rattle.smt_model.specs.Basics.{how_many};
ghost use Rattle.chart_rows.specs.Rows.{AreRows};
ghost use Rattle.history_counts.specs.Numbers.{mispredictions, replays, squashed_for, squashes_for};
ghost use Rattle.history_counts.specs.Numbers.{is_next_for, is_misprediction, is_refetch};
ghost use Rattle.history_counts.specs.OfRows.{is_replayed_row, is_mispredicted_row};
ghost use Rattle.history_counts.specs.OfRows.{is_squashed_row, goes_elsewhere};

use chart_rows::Row;
use events::{Event, Next};

/// Why instructions were squashed.
#[derive(Clone, Copy, PartialEq, Eq, Drop)]
pub enum Reason {
    /// They were fetched on a wrong path.
    Mispredicted,
    /// An older load of their hart retired with another number.
    Replayed,
    /// They or an older one of their hart were fetched again.
    Refetched,
    HartEnded,
    HartStopped,
}

/// How many instructions completed and went on elsewhere than was predicted. The rows are those of
/// these events.
pub(crate) fn count_mispredicted(events: &[Event], rows: &[Row]) -> usize
    requires { AreRows (reverse events.now) rows.now }
    ensures { result ≡ mispredictions (reverse events.now) }
{
    count_mispredicted_rows(events, rows)
}

/// How many loads were replayed. The rows are those of these events.
pub(crate) fn count_replayed(events: &[Event], rows: &[Row]) -> usize
    requires { AreRows (reverse events.now) rows.now }
    ensures { result ≡ replays (reverse events.now) }
{
    count_replayed_rows(rows)
}

/// How many instructions were squashed for a reason. The rows are those of these events.
pub(crate) fn count_squashed(events: &[Event], rows: &[Row], reason: Reason) -> usize
    requires { AreRows (reverse events.now) rows.now }
    ensures { result ≡ squashed_for reason (reverse events.now) }
{
    count_squashed_rows(events, rows, reason)
}

fn count_mispredicted_rows(events: &[Event], rows: &[Row]) -> usize
    ensures { result ≡ how_many (is_mispredicted_row events.now) rows.now }
{
    rows.iter()
        .filter(|row| is_mispredicted_row(events, row))
        .count()
}

fn count_replayed_rows(rows: &[Row]) -> usize
    ensures { result ≡ how_many is_replayed_row rows.now }
{
    rows.iter().filter(|row| row.replayed).count()
}

fn count_squashed_rows(events: &[Event], rows: &[Row], reason: Reason) -> usize
    ensures { result ≡ how_many (is_squashed_row reason events.now) rows.now }
{
    rows.iter()
        .filter(|row| is_squashed_row(events, row, reason))
        .count()
}

/// Whether the event at which the row's instruction completed goes on elsewhere than was predicted.
fn is_mispredicted_row(events: &[Event], row: &Row) -> bool
    ensures { result ≡ is_mispredicted_row events.now row.now }
{
    let Some(place) = row.completed else {
        return false;
    };
    let Some(event) = events.get(place as usize) else {
        return false;
    };
    goes_elsewhere(event, row.predicted)
}

fn goes_elsewhere(event: &Event, predicted: u32) -> bool
    ensures { result ≡ goes_elsewhere predicted event.now }
{
    match event {
        Event::Complete { outcome, .. } => outcome.next.redirect_pc(predicted).is_some(),
        _ => false,
    }
}

/// Whether the event that squashed the row's instruction did so for this reason.
fn is_squashed_row(events: &[Event], row: &Row, reason: Reason) -> bool
    ensures { result ≡ is_squashed_row reason events.now row.now }
{
    let Some(squash) = row.squashed else {
        return false;
    };
    let Some(event) = events.get(squash.place as usize) else {
        return false;
    };
    squashes_for(event, reason)
}

fn squashes_for(event: &Event, reason: Reason) -> bool
    ensures { result ≡ squashes_for reason event.now }
{
    match event {
        Event::Complete { .. } => is_misprediction(reason),
        Event::Retire { effect, .. } => is_next_for(effect.next, reason),
        Event::Refetch { .. } => is_refetch(reason),
        _ => false,
    }
}

fn is_misprediction(reason: Reason) -> bool
    ensures { result ≡ is_misprediction reason }
{
    match reason {
        Reason::Mispredicted => true,
        Reason::Replayed | Reason::Refetched | Reason::HartEnded | Reason::HartStopped => false,
    }
}

fn is_refetch(reason: Reason) -> bool
    ensures { result ≡ is_refetch reason }
{
    match reason {
        Reason::Refetched => true,
        Reason::Mispredicted | Reason::Replayed | Reason::HartEnded | Reason::HartStopped => false,
    }
}

fn is_next_for(next: Next, reason: Reason) -> bool
    ensures { result ≡ is_next_for reason next }
{
    match reason {
        Reason::Mispredicted | Reason::Refetched => false,
        Reason::Replayed => matches!(next, Next::Pc(_)),
        Reason::HartEnded => matches!(next, Next::Ended(_)),
        Reason::HartStopped => matches!(next, Next::Stopped(_)),
    }
}
