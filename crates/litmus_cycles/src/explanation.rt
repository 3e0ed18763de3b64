//! What is told of a state that can't come.

use crate::event::{Edge, MemoryEvent};

/// An AMO or a store-conditional that can't have written: between what its load has read and its write, another
/// hart's write to the location lies in coherence order. All by their indices among the events; an AMO is its own
/// load.
#[derive(Clone, Copy, PartialEq, Eq, Drop)]
pub struct Broken {
    pub load: usize,
    pub between: usize,
    pub store: usize,
}

/// The execution that is shown.
#[derive(Drop)]
pub enum Shown {
    /// No candidate has such numbers.
    Nothing,
    /// A candidate that fits, with a cycle: each edge ends where the next begins, and the last where the first
    /// begins.
    Cycle {
        events: Vec<MemoryEvent>,
        edges: Vec<Edge>,
    },
    /// A candidate that isn't coherent: a cycle of accesses to one location.
    Incoherent {
        events: Vec<MemoryEvent>,
        edges: Vec<Edge>,
    },
    /// A coherent candidate whose AMOs and store-conditionals aren't whole.
    Atomicity {
        events: Vec<MemoryEvent>,
        broken: Broken,
    },
    /// A candidate that can come, so the state isn't forbidden: its events, by their indices, in an order in
    /// which each read reads the latest write.
    Execution {
        events: Vec<MemoryEvent>,
        order: Vec<usize>,
    },
}

/// Why no execution of a litmus test ends in a state of which its condition holds.
#[derive(Drop)]
pub struct Explanation {
    /// How many candidates there are, by ways of the harts whose registers don't rule the condition out: each
    /// choice of what each read reads and in which order each location is written. The greatest number where there
    /// are more.
    pub candidates: u64,
    /// How many of them fit: they have the numbers, are coherent and whole, and end in such a state.
    pub fitting: u64,
    /// Whether all were looked at.
    pub is_whole: bool,
    pub shown: Shown,
}
