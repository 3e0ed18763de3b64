//! What may be chosen of what is open, and what comes of it: a write stands at a place of coherence order, or an event
//! has its source.

ghost use Rattle.std.specs.Prelude.{◌≡◌, ◌==◌, IfOk};
ghost use Rattle.litmus_cycles.specs.Choices.{may_place, may_start, may_have, may_give, may_choose};
ghost use Rattle.litmus_cycles.specs.Choices.{with_rank, with_source, with_choice};

use crate::checking::{has_number, written_at};
use crate::coherence::is_others_write;
use crate::event::MemoryEvent;
use crate::open::Open;
use litmus_runs::initial_number;
use litmus_tests::LitmusTest;
use std::alloc::{AllocError, Global};

/// Whether what is open can be decided by this choice: the event with that index, or, one past the last, what is there
/// at the start.
pub(crate) fn may_choose(
    test: &LitmusTest,
    what: Open,
    choice: usize,
    events: &[MemoryEvent],
) -> bool
    ensures { result ≡ may_choose test.now what choice events.now }
{
    match what {
        Open::Place { location, .. } => may_place(events, location, choice),
        Open::Source(index) => may_give(test, events, index, choice),
    }
}

/// Whether it is a write of the location that has no place yet.
fn may_place(events: &[MemoryEvent], location: usize, choice: usize) -> bool
    ensures { result ≡ may_place events.now location choice }
{
    match events.get(choice) {
        Some(event) => event.location == location && event.writes.is_some() && event.rank == 0,
        None => false,
    }
}

/// Whether an event may have that source: a write of its number to its location, or the start; of a store-conditional
/// that fails, a write of another hart.
fn may_give(test: &LitmusTest, events: &[MemoryEvent], index: usize, choice: usize) -> bool
    ensures { result ≡ may_give test.now events.now index choice }
{
    let Some(event) = events.get(index) else {
        return false;
    };
    match events.get(choice) {
        Some(write) => may_have(event, write, choice == index),
        None => may_start(test, event),
    }
}

/// Whether an event may read what is there at the start.
fn may_start(test: &LitmusTest, event: &MemoryEvent) -> bool
    ensures { result ≡ may_start test.now event.now }
{
    match event.reads {
        Some(number) => has_number(number, initial_number(test, event.location)),
        None => false,
    }
}

/// Whether an event may read this write, or was broken by it.
fn may_have(event: &MemoryEvent, write: &MemoryEvent, is_itself: bool) -> bool
    ensures { result ≡ may_have event.now write.now is_itself }
{
    match event.reads {
        Some(number) => !is_itself && has_number(number, written_at(write, event.location)),
        None => is_others_write(event, write),
    }
}

/// The events where what is open is decided so.
pub(crate) fn with_choice(
    what: Open,
    choice: usize,
    events: &[MemoryEvent],
    alloc: Global,
) -> Result<Vec<MemoryEvent>, AllocError>
    ensures { IfOk result (λ next. next.items ≡ with_choice what choice events.now) }
{
    match what {
        Open::Place { rank, .. } => with_rank(events, choice, rank, alloc),
        Open::Source(index) => with_source(events, index, choice, alloc),
    }
}

fn with_rank(
    events: &[MemoryEvent],
    index: usize,
    rank: usize,
    alloc: Global,
) -> Result<Vec<MemoryEvent>, AllocError>
    ensures { IfOk result (λ next. next.items ≡ with_rank events.now index rank) }
{
    let mut next = events.to_vec(alloc)?;
    if let Some(event) = next.get_mut(index) {
        event.rank = rank;
    }
    Ok(next)
}

fn with_source(
    events: &[MemoryEvent],
    index: usize,
    choice: usize,
    alloc: Global,
) -> Result<Vec<MemoryEvent>, AllocError>
    ensures { IfOk result (λ next. next.items ≡ with_source events.now index choice) }
{
    let source = if choice < events.len() {
        Some(choice)
    } else {
        None
    };
    let mut next = events.to_vec(alloc)?;
    if let Some(event) = next.get_mut(index) {
        event.source = source;
    }
    Ok(next)
}
