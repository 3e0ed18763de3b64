//! Whether each hart sees a location in one order, and whether AMOs and store-conditionals are whole.

ghost use Rattle.std.specs.Prelude.{◌≡◌, ◌&&◌, not, nat_lt};
ghost use Rattle.std.specs.List.{list_all};
ghost use Rattle.litmus_cycles.specs.Executions.{all_pairs};
ghost use Rattle.litmus_cycles.specs.OneOrder.{rank_behind, goes_on, keeps_order, writes_behind, is_coherent_execution};
ghost use Rattle.litmus_cycles.specs.OneOrder.{parts, is_whole_execution, are_own_in_order};
ghost use Rattle.litmus_cycles.specs.Executions.{load_of, reads_older, is_others_write, is_broken_by_other};

use crate::event::MemoryEvent;
use crate::relating::source_rank;

/// Where in coherence order its hart stands behind an event: at what it writes, else at what it reads.
fn rank_behind(events: &[MemoryEvent], event: &MemoryEvent) -> usize
    ensures { result ≡ rank_behind events.now event.now }
{
    let source = source_rank(events, event);
    if event.writes.is_some() {
        event.rank
    } else {
        source
    }
}

/// Whether the other reads nothing older than where its hart stands behind the one, and writes behind that.
fn goes_on(events: &[MemoryEvent], a: &MemoryEvent, b: &MemoryEvent) -> bool
    ensures { result ≡ goes_on events.now a.now b.now }
{
    let behind = rank_behind(events, a);
    let source = source_rank(events, b);
    (b.reads.is_none() || behind <= source) && (b.writes.is_none() || behind < b.rank)
}

/// Whether the other, which stands behind the one where both are of one hart, goes on from there at its location.
pub(crate) fn keeps_order(events: &[MemoryEvent], a: &MemoryEvent, b: &MemoryEvent) -> bool
    ensures { result ≡ keeps_order events.now a.now b.now }
{
    let goes_on = goes_on(events, a, b);
    let is_access = a.reads.is_some() || a.writes.is_some();
    !(a.hart == b.hart && a.location == b.location && is_access) || goes_on
}

/// Whether an AMO writes behind what it reads.
pub(crate) fn writes_behind(events: &[MemoryEvent], event: &MemoryEvent) -> bool
    ensures { result ≡ writes_behind events.now event.now }
{
    let source = source_rank(events, event);
    !(event.reads.is_some() && event.writes.is_some()) || source < event.rank
}

/// Whether of two writes of one hart to one location the first one stands before the other.
pub(crate) fn are_own_in_order(a: &MemoryEvent, b: &MemoryEvent) -> bool
    ensures { result ≡ are_own_in_order a.now b.now }
{
    !(a.hart == b.hart && a.location == b.location && a.writes.is_some() && b.writes.is_some())
        || a.rank < b.rank
}

fn is_own_in_order(event: &MemoryEvent, later: &[MemoryEvent]) -> bool
    ensures { result ≡ list_all (are_own_in_order event.now) later.now }
{
    later.iter().all(|other| are_own_in_order(event, other))
}

/// Whether the writes of each hart to each location are in program order.
pub(crate) fn are_writes_in_order(events: &[MemoryEvent]) -> bool
    ensures { result ≡ all_pairs are_own_in_order events.now }
{
    match events {
        [] => true,
        [event, later @ ..] => is_own_in_order(event, later) && are_writes_in_order(later),
    }
}

fn all_write_behind(events: &[MemoryEvent]) -> bool
    ensures { result ≡ list_all (writes_behind events.now) events.now }
{
    events.iter().all(|event| writes_behind(events, event))
}

fn is_kept_by(events: &[MemoryEvent], event: &MemoryEvent, later: &[MemoryEvent]) -> bool
    ensures { result ≡ list_all (keeps_order events.now event.now) later.now }
{
    later.iter().all(|other| keeps_order(events, event, other))
}

fn all_keep_order(events: &[MemoryEvent], left: &[MemoryEvent]) -> bool
    ensures { result ≡ all_pairs (keeps_order events.now) left.now }
{
    match left {
        [] => true,
        [event, later @ ..] => is_kept_by(events, event, later) && all_keep_order(events, later),
    }
}

/// Whether each hart sees each location in one order.
pub(crate) fn is_coherent(events: &[MemoryEvent]) -> bool
    ensures { result ≡ is_coherent_execution events.now }
{
    all_keep_order(events, events) && all_write_behind(events)
}

/// The event whose read goes with an access: itself where it reads, the load-reserved of a store-conditional.
pub(crate) fn load_of(events: &[MemoryEvent], event: &MemoryEvent) -> Option<MemoryEvent>
    ensures { result ≡ load_of events.now event.now }
{
    if event.reads.is_some() {
        return Some(*event);
    }
    let index = event.reserved_by?;
    events.get(index).copied()
}

/// Whether what goes with an access has read something before this place in coherence order.
pub(crate) fn reads_older(events: &[MemoryEvent], event: &MemoryEvent, rank: usize) -> bool
    ensures { result ≡ reads_older events.now event.now rank }
{
    match load_of(events, event) {
        Some(load) => source_rank(events, &load) < rank,
        None => false,
    }
}

/// Whether a write is another hart's, and to the location of an event.
pub(crate) fn is_others_write(event: &MemoryEvent, write: &MemoryEvent) -> bool
    ensures { result ≡ is_others_write event.now write.now }
{
    write.writes.is_some() && write.location == event.location && write.hart != event.hart
}

/// Whether the source of an event is such a write.
pub(crate) fn is_broken_by_other(events: &[MemoryEvent], event: &MemoryEvent) -> bool
    ensures { result ≡ is_broken_by_other events.now event.now }
{
    let Some(index) = event.source else {
        return false
    };
    match events.get(index) {
        Some(write) => is_others_write(event, write),
        None => false,
    }
}

/// Whether a write of another hart stands between what goes with an access has read and what this one writes.
pub(crate) fn parts(events: &[MemoryEvent], write: &MemoryEvent, store: &MemoryEvent) -> bool
    ensures { result ≡ parts events.now write.now store.now }
{
    let is_older = reads_older(events, store, write.rank);
    store.writes.is_some() && is_others_write(store, write) && write.rank < store.rank && is_older
}

pub(crate) fn is_whole_access(events: &[MemoryEvent], store: &MemoryEvent) -> bool
    ensures { result ≡ list_all (λ write. not (parts events.now write store.now)) events.now }
{
    events.iter().all(|write| !parts(events, write, store))
}

/// Whether nothing of another hart stands between what an AMO, or a load-reserved, has read, and what the AMO, or its
/// store-conditional, writes.
pub(crate) fn is_whole(events: &[MemoryEvent]) -> bool
    ensures { result ≡ is_whole_execution events.now }
{
    events.iter().all(|store| is_whole_access(events, store))
}
