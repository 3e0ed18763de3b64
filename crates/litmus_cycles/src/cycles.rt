//! The cycle of an execution that matters, an order of its events where it has none, and what breaks an AMO or a
//! store-conditional.

use crate::coherence::parts;
use crate::event::{Edge, MemoryEvent};
use crate::explanation::Broken;
use crate::related::{Cost, Ways};
use crate::relating::relation_of;
use std::alloc::{AllocError, Global};

/// The edges of the cycle with the fewest edges of program order, the shortest of these; of several the one that
/// begins with the first event. None where there is no cycle.
pub(crate) fn least_cycle(
    events: &[MemoryEvent],
    ways: &Ways,
    alloc: Global,
) -> Result<Vec<Edge>, AllocError> {
    let mut edges = Vec::new(alloc);
    let Some(start) = least_start(ways) else {
        return Ok(edges);
    };
    let mut from = start;
    for _ in 0..events.len() {
        let to = ways.next(from, start).unwrap_or(start);
        if let Some(relation) = relation_of(events, from, to) {
            edges.push(Edge { from, relation, to })?;
        }
        if to == start {
            break;
        }
        from = to;
    }
    Ok(edges)
}

/// The first event of those through which the least cycle goes.
fn least_start(ways: &Ways) -> Option<usize> {
    let mut least: Option<(Cost, usize)> = None;
    for start in 0..ways.count() {
        if let Some(cost) = ways.cycle_cost(start) {
            let is_less = match least {
                Some((other, _)) => cost.is_less(other),
                None => true,
            };
            if is_less {
                least = Some((cost, start));
            }
        }
    }
    Some(least?.1)
}

/// The events in an order in which each edge goes forward; fewer than all where there is a cycle.
pub(crate) fn order_of(ways: &Ways, alloc: Global) -> Result<Vec<usize>, AllocError> {
    let mut order = Vec::new(alloc);
    for _ in 0..ways.count() {
        let Some(next) = next_of(ways, order.as_slice()) else {
            return Ok(order);
        };
        order.push(next)?;
    }
    Ok(order)
}

/// The first event that isn't in the order yet, and to which none leads that isn't either.
fn next_of(ways: &Ways, order: &[usize]) -> Option<usize> {
    (0..ways.count()).find(|index| !order.contains(index) && is_next(ways, order, *index))
}

fn is_next(ways: &Ways, order: &[usize], index: usize) -> bool {
    (0..ways.count()).all(|other| !ways.has(other, index) || order.contains(&other))
}

/// An AMO or a store-conditional that writes though another hart's write stands between what its load has read and
/// its own write.
pub(crate) fn broken(events: &[MemoryEvent]) -> Option<Broken> {
    for (store, event) in events.iter().enumerate() {
        let between = events.iter().position(|write| parts(events, write, event));
        if let Some(between) = between {
            let load = if event.reads.is_some() {
                store
            } else {
                event.reserved_by?
            };
            return Some(Broken {
                load,
                between,
                store,
            });
        }
    }
    None
}
