ghost use Rattle.std.specs.Prelude.{◌≡◌, ◌^◌, ◌<◌, [], ◌∷◌, length, IfOk};
ghost use Rattle.searches.specs.Sweeps.{found_by, IsNoted};
ghost use Rattle.searches.specs.Tied.{IsTied};

use crate::origin::Origin;
use crate::search::Search;
use indexmap::IndexSet;
use std::alloc::{AllocError, Global};
use std::hash::Hash;

/// What a search has so far. The list of the states is its own queue: those before some place were
/// swept, which means that their steps were looked at.
#[derive(Drop)]
pub(crate) struct Sweep<S: Copy + Eq + Hash, W: Copy> {
    pub(crate) harts: u8,
    pub(crate) states: IndexSet<S>,
    pub(crate) origins: Vec<Origin<W>>,
    pub(crate) edges: Vec<Option<u32>>,
    pub(crate) ends: Vec<u32>,
}

impl<S: Copy + Eq + Hash, W: Copy> Sweep<S, W> {
    /// A sweep that has the start alone. Errors: want of memory.
    pub(crate) fn begin(start: S, harts: u8, alloc: Global) -> Result<Self, AllocError>
        ensures { IfOk result (λ s. found_by s ≡ record {
          harts = harts;
          states = start ∷ [];
          origins = [];
          edges = [];
          ends = [];
        }) }
    {
        let mut states = IndexSet::new(alloc);
        states.insert(start)?;
        Ok(Sweep {
            harts,
            states,
            origins: Vec::new(alloc),
            edges: Vec::new(alloc),
            ends: Vec::new(alloc),
        })
    }

    /// Notes a state that was found, unless it was found before. Answers its place. Errors: want of memory.
    pub(crate) fn note(&mut self, state: S, origin: Origin<W>) -> Result<u32, AllocError>
        requires { length self.old.states.keys < 2 ^ 32 }
        ensures noted { IfOk result (IsNoted S.eq (found_by self.old) state origin (found_by self.new)) }
    {
        let (place, is_new) = self.states.insert_full(state)?;
        if !is_new {
            return Ok(place as u32);
        }
        self.origins.push(origin)?;
        Ok(place as u32)
    }

    /// What was found.
    pub(crate) fn into_search(self) -> Search<S, W>
        requires { IsTied self.harts self.states.keys self.origins.items self.edges.items self.ends.items }
        ensures { result ≡ found_by self }
    {
        let Sweep {
            harts,
            states,
            origins,
            edges,
            ends,
        } = self;
        Search {
            harts,
            states,
            origins,
            edges,
            ends,
        }
    }
}
