ghost use Rattle.std.specs.Prelude.{◌≡◌, ◌<◌, length, slice_get, IfOk};
ghost use Rattle.searches.specs.Found.{edge_at, moves_at};

use crate::moves::Move;
use crate::origin::Origin;
use indexmap::IndexSet;
use std::alloc::{AllocError, Global};
use std::hash::Hash;
use std::marker::Model;

/// What a search found: the states, in the order in which they were found, the harts' steps from
/// those of them that were swept, and which of them are ends. A state's place is its index in this
/// order, and the start's is 0.
#[derive(Drop)]
pub struct Search<S: Copy + Eq + Hash, W: Copy> {
    pub(crate) harts: u8,
    pub(crate) states: IndexSet<S>,
    pub(crate) origins: Vec<Origin<W>>,
    pub(crate) edges: Vec<Option<u32>>,
    pub(crate) ends: Vec<u32>,
}

impl<S: Copy + Eq + Hash, W: Copy> Model for Search<S, W> {
    ghost use Rattle.searches.specs.Found.{Found};
    ghost use Rattle.searches.specs.Tied.{IsTied};

    ghost Value = { Found S W };

    ghost view = { λ s. record {
      harts = s.harts;
      states = s.states.keys;
      origins = s.origins.items;
      edges = s.edges.items;
      ends = s.ends.items;
    } };

    ghost invariant = { λ s. IsTied s.harts s.states.keys s.origins.items s.edges.items s.ends.items };
}

impl<S: Copy + Eq + Hash, W: Copy> Search<S, W> {
    /// How many states were found.
    pub fn states(&self) -> usize
        ensures { result ≡ length self.now.states }
    {
        self.states.len()
    }

    /// The state at a place.
    pub fn state(&self, place: usize) -> Option<S>
        ensures { result ≡ slice_get self.now.states place }
    {
        self.states.get_index(place).copied()
    }

    /// The places of the ends that were found: states in which no hart has a step.
    pub fn ends(&self) -> &[u32]
        ensures { result.now ≡ self.now.ends }
    {
        self.ends.as_slice()
    }

    /// The place of the state after a hart's step from the state at a place, where it has one that was
    /// looked at.
    pub(crate) fn edge(&self, place: usize, hart: u8) -> Option<u32>
        requires inside { place < length self.now.states }
        requires present { hart < self.now.harts }
        ensures { result ≡ edge_at self.now place hart }
    {
        match self.edges.get(place * self.harts as usize + hart as usize) {
            Some(edge) => *edge,
            None => None,
        }
    }

    /// The moves by which the state at a place was found, the first move first. Errors: want of
    /// memory.
    pub fn moves_to(&self, place: u32, alloc: Global) -> Result<Vec<Move<W>>, AllocError>
        requires { place < length self.now.states }
        ensures { IfOk result (λ moves. moves.items ≡ moves_at self.now.origins place) }
    {
        let mut moves = Vec::new(alloc);
        let mut at = place as usize;
        while at > 0 {
            let origin = self.origins[at - 1];
            moves.push(Move {
                hart: origin.hart,
                way: origin.way,
            })?;
            at = origin.parent as usize;
        }
        moves.as_mut_slice().reverse();
        Ok(moves)
    }
}
