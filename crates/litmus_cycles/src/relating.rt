//! The relations of an execution: po, rf, co, fr, and what breaks a reservation.

ghost use Rattle.std.specs.Prelude.{◌≡◌};
ghost use Rattle.litmus_cycles.specs.Executions.{has_source, source_rank, is_ordered, reads_from, is_coherent};
ghost use Rattle.litmus_cycles.specs.Executions.{reads_before, breaks, relates, is_edge, is_related};

use crate::event::{Edge, MemoryEvent, Relation};

/// Whether this event is its source.
pub(crate) fn has_source(event: &MemoryEvent, index: usize) -> bool
    ensures { result ≡ has_source event.now index }
{
    match event.source {
        Some(source) => source == index,
        None => false,
    }
}

/// Where in coherence order what it reads stands.
pub(crate) fn source_rank(events: &[MemoryEvent], event: &MemoryEvent) -> usize
    ensures { result ≡ source_rank events.now event.now }
{
    let Some(index) = event.source else { return 0 };
    match events.get(index) {
        Some(source) => source.rank,
        None => 0,
    }
}

fn is_ordered(a: &MemoryEvent, b: &MemoryEvent) -> bool
    ensures { result ≡ is_ordered a.now b.now }
{
    a.hart == b.hart && a.place < b.place
}

fn reads_from(from: usize, b: &MemoryEvent) -> bool
    ensures { result ≡ reads_from from b.now }
{
    b.reads.is_some() && has_source(b, from)
}

fn is_coherent(a: &MemoryEvent, b: &MemoryEvent) -> bool
    ensures { result ≡ is_coherent a.now b.now }
{
    a.writes.is_some() && b.writes.is_some() && a.location == b.location && a.rank < b.rank
}

fn reads_before(events: &[MemoryEvent], edge: &Edge, a: &MemoryEvent, b: &MemoryEvent) -> bool
    ensures { result ≡ reads_before events.now edge.now a.now b.now }
{
    let rank = source_rank(events, a);
    a.reads.is_some()
        && b.writes.is_some()
        && a.location == b.location
        && rank < b.rank
        && edge.from != edge.to
}

fn breaks(from: usize, b: &MemoryEvent) -> bool
    ensures { result ≡ breaks from b.now }
{
    b.reads.is_none() && b.writes.is_none() && has_source(b, from)
}

fn relates(events: &[MemoryEvent], edge: &Edge, a: &MemoryEvent, b: &MemoryEvent) -> bool
    ensures { result ≡ relates edge.now.relation events.now edge.now a.now b.now }
{
    match edge.relation {
        Relation::ProgramOrder => is_ordered(a, b),
        Relation::ReadsFrom => reads_from(edge.from, b),
        Relation::Coherence => is_coherent(a, b),
        Relation::FromRead => reads_before(events, edge, a, b),
        Relation::Breaks => breaks(edge.from, b),
    }
}

/// Whether both events are there, and related so.
pub fn is_edge(events: &[MemoryEvent], edge: &Edge) -> bool
    ensures { result ≡ is_edge events.now edge.now }
{
    let Some(a) = events.get(edge.from) else {
        return false
    };
    let Some(b) = events.get(edge.to) else {
        return false
    };
    relates(events, edge, a, b)
}

fn is_edge_of(events: &[MemoryEvent], from: usize, relation: Relation, to: usize) -> bool
    ensures { result ≡ is_edge events.now (record { from = from; relation = relation; to = to }) }
{
    is_edge(events, &Edge { from, relation, to })
}

/// Whether the one is related to the other in some way.
pub(crate) fn is_related(events: &[MemoryEvent], from: usize, to: usize) -> bool
    ensures { result ≡ is_related events.now from to }
{
    is_edge_of(events, from, Relation::ProgramOrder, to)
        || is_edge_of(events, from, Relation::ReadsFrom, to)
        || is_edge_of(events, from, Relation::Coherence, to)
        || is_edge_of(events, from, Relation::FromRead, to)
        || is_edge_of(events, from, Relation::Breaks, to)
}

/// Whether the one is related to the other otherwise than by program order.
pub(crate) fn is_related_across(events: &[MemoryEvent], from: usize, to: usize) -> bool {
    is_edge_of(events, from, Relation::ReadsFrom, to)
        || is_edge_of(events, from, Relation::Coherence, to)
        || is_edge_of(events, from, Relation::FromRead, to)
        || is_edge_of(events, from, Relation::Breaks, to)
}

/// How the one is related to the other, if it is: otherwise than by program order, where it is so in several ways.
pub(crate) fn relation_of(events: &[MemoryEvent], from: usize, to: usize) -> Option<Relation> {
    if is_edge_of(events, from, Relation::ReadsFrom, to) {
        return Some(Relation::ReadsFrom);
    }
    if is_edge_of(events, from, Relation::Coherence, to) {
        return Some(Relation::Coherence);
    }
    if is_edge_of(events, from, Relation::FromRead, to) {
        return Some(Relation::FromRead);
    }
    if is_edge_of(events, from, Relation::Breaks, to) {
        return Some(Relation::Breaks);
    }
    is_edge_of(events, from, Relation::ProgramOrder, to).then_some(Relation::ProgramOrder)
}
