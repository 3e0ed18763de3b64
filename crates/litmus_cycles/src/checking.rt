//! The tests of what is shown: whether it is a candidate, and whether a cycle or an order is one of it.

ghost use Rattle.std.specs.Prelude.{◌≡◌, ◌==◌, ◌&&◌, not, nat_lt, length};
ghost use Rattle.std.specs.List.{list_all};
ghost use Rattle.litmus_runs.specs.Numbers.{initial_number};
ghost use Rattle.litmus_cycles.specs.Executions.{leads, is_closed, is_cycle, is_edge, written_at};
ghost use Rattle.litmus_cycles.specs.Executions.{has_number, given_by, is_sourced, is_related, is_ranked};
ghost use Rattle.litmus_cycles.specs.Executions.{is_before, are_apart};
ghost use Rattle.litmus_cycles.specs.Executions.{all_pairs, accesses_as, does_as, is_made, is_candidate};
ghost use Rattle.litmus_cycles.specs.Executions.{goes_with, is_between, is_broken, is_forward, is_order};
ghost use Rattle.litmus_cycles.specs.Executions.{is_failing, stays, stays_at_one_location};

use crate::coherence::{is_broken_by_other, reads_older};
use crate::event::{Edge, MemoryEvent};
use crate::explanation::Broken;
use crate::relating::{is_edge, is_related, source_rank};
use litmus_runs::initial_number;
use litmus_tests::{LitmusStep, LitmusTest};
use rv_instr::Kind;

/// Whether each edge begins where the one before it ends, from one event to another.
fn leads(from: usize, edges: &[Edge], to: usize) -> bool
    ensures { result ≡ leads from edges.now to }
{
    match edges {
        [] => from == to,
        [edge, rest @ ..] => edge.from == from && leads(edge.to, rest, to),
    }
}

fn is_closed(edges: &[Edge]) -> bool
    ensures { result ≡ is_closed edges.now }
{
    match edges {
        [] => false,
        [edge, rest @ ..] => leads(edge.to, rest, edge.from),
    }
}

fn are_edges(events: &[MemoryEvent], edges: &[Edge]) -> bool
    ensures { result ≡ list_all (is_edge events.now) edges.now }
{
    edges.iter().all(|edge| is_edge(events, edge))
}

fn stays(events: &[MemoryEvent], edge: &Edge) -> bool
    ensures { result ≡ stays events.now edge.now }
{
    let Some(a) = events.get(edge.from) else {
        return false
    };
    let Some(b) = events.get(edge.to) else {
        return false
    };
    a.location == b.location
}

/// Whether all these edges are between accesses to one location.
pub(crate) fn stays_at_one_location(events: &[MemoryEvent], edges: &[Edge]) -> bool
    ensures { result ≡ stays_at_one_location events.now edges.now }
{
    edges.iter().all(|edge| stays(events, edge))
}

/// Whether these edges lead from an event back to it.
pub(crate) fn is_cycle(events: &[MemoryEvent], edges: &[Edge]) -> bool
    ensures { result ≡ is_cycle events.now edges.now }
{
    are_edges(events, edges) && is_closed(edges)
}

pub(crate) fn written_at(event: &MemoryEvent, location: usize) -> Option<u32>
    ensures { result ≡ written_at event.now location }
{
    if event.location == location {
        event.writes
    } else {
        None
    }
}

fn given_by(test: &LitmusTest, events: &[MemoryEvent], event: &MemoryEvent) -> Option<u32>
    ensures { result ≡ given_by event.now.source test.now events.now event.now }
{
    match event.source {
        None => initial_number(test, event.location),
        Some(index) => written_at(events.get(index)?, event.location),
    }
}

pub(crate) fn has_number(number: u32, given: Option<u32>) -> bool
    ensures { result ≡ has_number number given }
{
    match given {
        Some(found) => found == number,
        None => false,
    }
}

fn is_sourced(test: &LitmusTest, events: &[MemoryEvent], event: &MemoryEvent) -> bool
    ensures { result ≡ is_sourced test.now events.now event.now }
{
    match event.reads {
        Some(number) => has_number(number, given_by(test, events, event)),
        None => true,
    }
}

fn are_sourced(test: &LitmusTest, events: &[MemoryEvent]) -> bool
    ensures { result ≡ list_all (is_sourced test.now events.now) events.now }
{
    events.iter().all(|event| is_sourced(test, events, event))
}

fn is_ranked(event: &MemoryEvent) -> bool
    ensures { result ≡ is_ranked event.now }
{
    event.writes.is_none() || 0 < event.rank
}

fn are_ranked(events: &[MemoryEvent]) -> bool
    ensures { result ≡ list_all is_ranked events.now }
{
    events.iter().all(|event| is_ranked(event))
}

fn is_before(a: &MemoryEvent, b: &MemoryEvent) -> bool
    ensures { result ≡ is_before a.now b.now }
{
    a.hart < b.hart || (a.hart == b.hart && a.place < b.place)
}

fn is_before_all(event: &MemoryEvent, later: &[MemoryEvent]) -> bool
    ensures { result ≡ list_all (is_before event.now) later.now }
{
    later.iter().all(|other| is_before(event, other))
}

fn are_in_order(events: &[MemoryEvent]) -> bool
    ensures { result ≡ all_pairs is_before events.now }
{
    match events {
        [] => true,
        [event, later @ ..] => is_before_all(event, later) && are_in_order(later),
    }
}

fn are_apart(a: &MemoryEvent, b: &MemoryEvent) -> bool
    ensures { result ≡ are_apart a.now b.now }
{
    !(a.writes.is_some() && b.writes.is_some() && a.location == b.location && a.rank == b.rank)
}

fn is_apart(event: &MemoryEvent, later: &[MemoryEvent]) -> bool
    ensures { result ≡ list_all (are_apart event.now) later.now }
{
    later.iter().all(|other| are_apart(event, other))
}

fn are_all_apart(events: &[MemoryEvent]) -> bool
    ensures { result ≡ all_pairs are_apart events.now }
{
    match events {
        [] => true,
        [event, later @ ..] => is_apart(event, later) && are_all_apart(later),
    }
}

/// Whether an instruction of this kind reads and writes as the event does.
fn accesses_as(kind: Kind, event: &MemoryEvent) -> bool
    ensures { result ≡ accesses_as kind event.now }
{
    match kind {
        Kind::Computing => false,
        Kind::Loading | Kind::Reserving => event.reads.is_some() && event.writes.is_none(),
        Kind::Storing => event.reads.is_none() && event.writes.is_some(),
        Kind::Conditional => event.reads.is_none(),
        Kind::Atomic => event.reads.is_some() && event.writes.is_some(),
    }
}

fn does_as(step: LitmusStep, event: &MemoryEvent) -> bool
    ensures { result ≡ does_as step event.now }
{
    match step {
        LitmusStep::Straight(instr) => accesses_as(instr.kind(), event),
        LitmusStep::Constant { .. } | LitmusStep::Branch { .. } | LitmusStep::Fence(_) => false,
    }
}

fn is_made(test: &LitmusTest, event: &MemoryEvent) -> bool
    ensures { result ≡ is_made test.now event.now }
{
    let Some(thread) = test.threads.get(usize::from(event.hart)) else {
        return false
    };
    let Some(step) = thread.steps.get(event.step) else {
        return false
    };
    does_as(*step, event)
}

fn are_made(test: &LitmusTest, events: &[MemoryEvent]) -> bool
    ensures { result ≡ list_all (is_made test.now) events.now }
{
    events.iter().all(|event| is_made(test, event))
}

/// Whether another hart's write, behind what its load-reserved has read, broke a store-conditional that fails.
pub(crate) fn is_failing(events: &[MemoryEvent], event: &MemoryEvent) -> bool
    ensures { result ≡ is_failing events.now event.now }
{
    let is_older = reads_older(events, event, source_rank(events, event));
    let is_others = is_broken_by_other(events, event);
    event.reads.is_some() || event.writes.is_some() || (is_others && is_older)
}

fn are_failing(events: &[MemoryEvent]) -> bool
    ensures { result ≡ list_all (is_failing events.now) events.now }
{
    events.iter().all(|event| is_failing(events, event))
}

/// Whether these events are a candidate.
pub(crate) fn is_candidate(test: &LitmusTest, events: &[MemoryEvent]) -> bool
    ensures { result ≡ is_candidate test.now events.now }
{
    are_in_order(events)
        && are_made(test, events)
        && are_sourced(test, events)
        && are_ranked(events)
        && are_all_apart(events)
        && are_failing(events)
}

fn goes_with(store: &MemoryEvent, broken: Broken) -> bool
    ensures { result ≡ goes_with store.now broken }
{
    if store.reads.is_some() {
        return broken.load == broken.store;
    }
    match store.reserved_by {
        Some(index) => index == broken.load,
        None => false,
    }
}

fn is_between(
    events: &[MemoryEvent],
    broken: Broken,
    load: &MemoryEvent,
    write: &MemoryEvent,
    store: &MemoryEvent,
) -> bool
    ensures { result ≡ is_between events.now broken load.now write.now store.now }
{
    let rank = source_rank(events, load);
    store.writes.is_some()
        && goes_with(store, broken)
        && write.writes.is_some()
        && write.location == store.location
        && write.hart != store.hart
        && rank < write.rank
        && write.rank < store.rank
}

/// Whether another hart's write stands between what an AMO, or a load-reserved, has read and what the AMO, or its
/// store-conditional, writes.
pub(crate) fn is_broken(events: &[MemoryEvent], broken: Broken) -> bool
    ensures { result ≡ is_broken events.now broken }
{
    let Some(load) = events.get(broken.load) else {
        return false
    };
    let Some(write) = events.get(broken.between) else {
        return false
    };
    let Some(store) = events.get(broken.store) else {
        return false
    };
    is_between(events, broken, load, write, store)
}

fn is_later(events: &[MemoryEvent], index: usize, other: usize) -> bool
    ensures { result ≡ (not (is_related events.now other index) && not (other == index)) }
{
    !is_related(events, other, index) && other != index
}

fn leads_none_back(events: &[MemoryEvent], index: usize, later: &[usize]) -> bool
    ensures { result
        ≡ list_all (λ other. not (is_related events.now other index) && not (other == index)) later.now }
{
    later.iter().all(|other| is_later(events, index, *other))
}

fn is_forward(events: &[MemoryEvent], order: &[usize]) -> bool
    ensures { result ≡ is_forward events.now order.now }
{
    match order {
        [] => true,
        [index, later @ ..] => leads_none_back(events, *index, later) && is_forward(events, later),
    }
}

fn are_indices(order: &[usize], count: usize) -> bool
    ensures { result ≡ list_all (λ index. nat_lt index count) order.now }
{
    order.iter().all(|index| *index < count)
}

/// Whether this is an order of all events in which every edge goes forward.
pub(crate) fn is_order(events: &[MemoryEvent], order: &[usize]) -> bool
    ensures { result ≡ is_order events.now order.now }
{
    order.len() == events.len() && are_indices(order, events.len()) && is_forward(events, order)
}
