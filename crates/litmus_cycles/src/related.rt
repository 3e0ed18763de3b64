//! Which events are related, and how one comes from one to another with the fewest edges of program order.

use crate::event::{Edge, MemoryEvent, Relation};
use crate::relating::{is_related, is_related_across};
use std::alloc::{AllocError, Global};

/// What a way costs: one with fewer edges of program order is less, and of two with as many the shorter one.
#[derive(Clone, Copy, PartialEq, Eq, Drop)]
pub(crate) struct Cost {
    pub program_order: usize,
    pub edges: usize,
}

impl Cost {
    /// What a cycle of these edges costs.
    pub fn of(edges: &[Edge]) -> Cost {
        let program_order = edges
            .iter()
            .filter(|edge| edge.relation == Relation::ProgramOrder)
            .count();
        Cost {
            program_order,
            edges: edges.len(),
        }
    }

    pub fn is_less(self, other: Cost) -> bool {
        self.program_order < other.program_order
            || (self.program_order == other.program_order && self.edges < other.edges)
    }

    fn and(self, other: Cost) -> Cost {
        Cost {
            program_order: self.program_order.saturating_add(other.program_order),
            edges: self.edges.saturating_add(other.edges),
        }
    }
}

/// The least way from one event to another: its cost, and the event that comes next on it.
#[derive(Clone, Copy, Drop)]
struct Way {
    cost: Cost,
    next: usize,
}

/// For each two events the least way from the one to the other.
#[derive(Drop)]
pub(crate) struct Ways {
    count: usize,
    rows: Vec<Option<Way>>,
}

impl Ways {
    /// The ways by all edges of an execution.
    pub fn of(events: &[MemoryEvent], alloc: Global) -> Result<Ways, AllocError> {
        Ways::among(events, false, alloc)
    }

    /// The ways by those edges alone that stay at one location.
    pub fn at_one_location(events: &[MemoryEvent], alloc: Global) -> Result<Ways, AllocError> {
        Ways::among(events, true, alloc)
    }

    fn among(events: &[MemoryEvent], stays: bool, alloc: Global) -> Result<Ways, AllocError> {
        let mut rows = Vec::new(alloc);
        for (from, a) in events.iter().enumerate() {
            for (to, b) in events.iter().enumerate() {
                let is_wanted = !stays || a.location == b.location;
                rows.push(edge_between(events, from, to, is_wanted))?;
            }
        }
        let mut ways = Ways {
            count: events.len(),
            rows,
        };
        ways.complete();
        Ok(ways)
    }

    /// How many events there are.
    pub fn count(&self) -> usize {
        self.count
    }

    /// What the least cycle through an event costs, if there is one.
    pub fn cycle_cost(&self, event: usize) -> Option<Cost> {
        Some(self.way(event, event)?.cost)
    }

    /// The event that comes next on the least way.
    pub fn next(&self, from: usize, to: usize) -> Option<usize> {
        Some(self.way(from, to)?.next)
    }

    /// Whether there is a way.
    pub fn has(&self, from: usize, to: usize) -> bool {
        self.way(from, to).is_some()
    }

    fn way(&self, from: usize, to: usize) -> Option<Way> {
        let place = from.saturating_mul(self.count).saturating_add(to);
        self.rows.get(place).copied().unwrap_or(None)
    }

    /// Lets each way lead over each event in turn where that is less (Floyd 1962).
    fn complete(&mut self) {
        let count = self.count;
        for over in 0..count {
            for from in 0..count {
                if let Some(first) = self.way(from, over) {
                    self.lead_over(first, over, from, count);
                }
            }
        }
    }

    fn lead_over(&mut self, first: Way, over: usize, from: usize, count: usize) {
        for to in 0..count {
            if let Some(second) = self.way(over, to) {
                self.lead(from, to, first.cost.and(second.cost), first.next);
            }
        }
    }

    fn lead(&mut self, from: usize, to: usize, cost: Cost, next: usize) {
        let place = from.saturating_mul(self.count).saturating_add(to);
        if let Some(row) = self.rows.get_mut(place) {
            let is_better = match row {
                Some(way) => cost.is_less(way.cost),
                None => true,
            };
            if is_better {
                *row = Some(Way { cost, next });
            }
        }
    }
}

/// The edge from one to the other, where one is wanted and is there.
fn edge_between(events: &[MemoryEvent], from: usize, to: usize, is_wanted: bool) -> Option<Way> {
    if !is_wanted || !is_related(events, from, to) {
        return None;
    }
    let program_order = if is_related_across(events, from, to) {
        0
    } else {
        1
    };
    Some(Way {
        cost: Cost {
            program_order,
            edges: 1,
        },
        next: to,
    })
}
