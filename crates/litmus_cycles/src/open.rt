//! What is to be decided of a candidate whose harts have chosen their ways, and how many ways there are to do it.

ghost use Rattle.std.specs.Prelude.{◌≡◌, ◌++◌, ◌==◌, ◌&&◌, ◌^◌, ◌-◌, OnOk, IfOk, count_by, min};
ghost use Rattle.litmus_cycles.specs.Choices.{places, sources, open_at, all_open, writes_at, has_source};
ghost use Rattle.litmus_cycles.specs.Executions.{is_write, is_others_write};
ghost use Rattle.litmus_cycles.specs.Counts.{orders, all_orders, sources_of, all_sources, combinations};

use crate::coherence::is_others_write;
use crate::event::MemoryEvent;
use std::alloc::{AllocError, Global};

/// Something to be decided.
#[derive(Clone, Copy, Drop)]
pub(crate) enum Open {
    /// Which write of a location stands at this place of its coherence order, from 1 on.
    Place { location: usize, rank: usize },
    /// Which write an event reads, by its index; or which one broke a store-conditional that fails.
    Source(usize),
}

/// All that is to be decided of these events, location by location.
pub(crate) fn open_choices(
    events: &[MemoryEvent],
    locations: usize,
    alloc: Global,
) -> Result<Vec<Open>, AllocError>
    ensures { IfOk result (λ found. found.items ≡ all_open events.now 0 locations) }
{
    let mut found = Vec::new(alloc);
    add_all(events, 0, locations, &mut found)?;
    Ok(found)
}

/// Adds what is to be decided of so many locations from this one on.
fn add_all(
    events: &[MemoryEvent],
    location: usize,
    left: usize,
    found: &mut Vec<Open>,
) -> Result<(), AllocError>
    ensures { OnOk result (found.new.items ≡ found.old.items ++ all_open events.now location left) }
{
    if left == 0 {
        return Ok(());
    }
    add_open(events, location, found)?;
    add_all(events, location.saturating_add(1), left - 1, found)
}

/// Adds what is to be decided of a location: the order of its writes from the last one to the first, then what is read
/// of it.
pub(crate) fn add_open(
    events: &[MemoryEvent],
    location: usize,
    found: &mut Vec<Open>,
) -> Result<(), AllocError>
    ensures { OnOk result (found.new.items ≡ found.old.items ++ open_at events.now location) }
{
    add_places(location, count_writes(events, location), found)?;
    add_sources(events, location, 0, found)
}

/// Adds so many places of a location, the last one first.
fn add_places(location: usize, count: usize, found: &mut Vec<Open>) -> Result<(), AllocError>
    ensures { OnOk result (found.new.items ≡ found.old.items ++ places location count) }
{
    if count == 0 {
        return Ok(());
    }
    found.push(Open::Place {
        location,
        rank: count,
    })?;
    add_places(location, count - 1, found)
}

/// Adds those of these events that read a location, or fail to write there; the first of them has this index.
fn add_sources(
    events: &[MemoryEvent],
    location: usize,
    index: usize,
    found: &mut Vec<Open>,
) -> Result<(), AllocError>
    ensures { OnOk result (found.new.items ≡ found.old.items ++ sources location index events.now) }
{
    let [event, rest @ ..] = events else {
        return Ok(());
    };
    if event.location == location && has_source(event) {
        found.push(Open::Source(index))?;
    }
    add_sources(rest, location, index.saturating_add(1), found)
}

/// Whether it reads, or is a store-conditional that fails.
fn has_source(event: &MemoryEvent) -> bool
    ensures { result ≡ has_source event.now }
{
    event.reads.is_some() || event.writes.is_none()
}

fn is_write_at(event: &MemoryEvent, location: usize) -> bool
    ensures { result ≡ (event.now.location == location && is_write event.now) }
{
    event.location == location && event.writes.is_some()
}

/// How many of these events write a location.
pub(crate) fn count_writes(events: &[MemoryEvent], location: usize) -> usize
    ensures { result ≡ writes_at location events.now }
{
    let [event, rest @ ..] = events else {
        return 0;
    };
    let count = count_writes(rest, location);
    if is_write_at(event, location) {
        count.saturating_add(1)
    } else {
        count
    }
}

/// How many ways there are to decide it: each read reads any write of its location but its own, or the start; each
/// store-conditional that fails was broken by any write of another hart; the writes of each location stand in any
/// order. The greatest number where there are more.
pub(crate) fn count_candidates(events: &[MemoryEvent], locations: usize) -> u64
    ensures { result ≡ min (combinations events.now locations) (2 ^ 64 - 1) }
{
    count_all_orders(events, locations).saturating_mul(count_all_sources(events, events))
}

/// In how many orders the writes of so many locations may stand.
fn count_all_orders(events: &[MemoryEvent], locations: usize) -> u64
    ensures { result ≡ min (all_orders events.now locations) (2 ^ 64 - 1) }
{
    if locations == 0 {
        return 1;
    }
    let count = count_writes(events, locations - 1);
    count_all_orders(events, locations - 1).saturating_mul(count_orders(count))
}

/// In how many orders so many writes may stand.
fn count_orders(count: usize) -> u64
    ensures { result ≡ min (orders count) (2 ^ 64 - 1) }
{
    if count == 0 {
        return 1;
    }
    count_orders(count - 1).saturating_mul(count as u64)
}

/// How many sources these of all events may have.
fn count_all_sources(all: &[MemoryEvent], events: &[MemoryEvent]) -> u64
    ensures { result ≡ min (all_sources all.now events.now) (2 ^ 64 - 1) }
{
    let [event, rest @ ..] = events else {
        return 1;
    };
    count_sources(all, event).saturating_mul(count_all_sources(all, rest))
}

fn count_sources(events: &[MemoryEvent], event: &MemoryEvent) -> u64
    ensures { result ≡ sources_of events.now event.now }
{
    if event.reads.is_none() && event.writes.is_none() {
        return count_others_writes(event, events) as u64;
    }
    let writes = count_writes(events, event.location);
    match (event.reads, event.writes) {
        (Some(_), Some(_)) => writes as u64,
        (Some(_), None) => writes.saturating_add(1) as u64,
        (None, _) => 1,
    }
}

/// How many of these are writes of another hart to the location of an event.
fn count_others_writes(event: &MemoryEvent, events: &[MemoryEvent]) -> usize
    ensures { result ≡ count_by (λ write. is_others_write event.now write) events.now }
{
    events
        .iter()
        .filter(|write| is_others_write(event, write))
        .count()
}
