//! The places in memory that are watched for nothing: where 0 stands in all states of a search.

ghost use Rattle.std.specs.Prelude.{◌≡◌, ◌<◌, ℕ, Contains, IfOk, Some, length, map, slice_get};
ghost use Rattle.condensed_machine.specs.Decoded.{Knows};
ghost use Rattle.condensed_machine.specs.declared.state.State.{State};
ghost use Rattle.outcomes.specs.{Collected.is_unwritten, Collected.is_zero, Refusals.CanLoad, Refusals.AreWords};

use condensed_machine::{CondensedMachine, State, Way};
use searches::Search;
use std::alloc::{AllocError, Global};
use watched_outcomes::{Watch, WatchedBytes};

/// Of each place in memory that is watched, whether 0 is there in all states of a search. Errors: want of memory.
pub(crate) fn list_unwritten(
    machine: &CondensedMachine,
    search: &Search<State, Way>,
    watch: &Watch,
    alloc: Global,
) -> Result<Vec<bool>, AllocError>
    requires known { (s : State) → Contains search.now.states s → Knows machine.now s }
    requires words { AreWords machine.now.program.image watch.now }
    ensures { IfOk result (λ unwritten. unwritten.items
        ≡ map (is_unwritten machine.now search.now.states) watch.now.words.items) }
{
    let mut unwritten = Vec::with_capacity(alloc, watch.words.len())?;
    for index in 0..watch.words.len() {
        unwritten.push(is_unwritten(machine, search, watch.words[index]))?;
    }
    Ok(unwritten)
}

/// Whether 0 is at a place in all states of a search. It looks at no more of them than up to one where it isn't.
fn is_unwritten(
    machine: &CondensedMachine,
    search: &Search<State, Way>,
    bytes: WatchedBytes,
) -> bool
    requires known { (s : State) → Contains search.now.states s → Knows machine.now s }
    requires word { CanLoad machine.now.program.image bytes }
    ensures { result ≡ is_unwritten machine.now search.now.states bytes }
{
    for place in 0..search.states() {
        if !is_zero_at(machine, search, bytes, place) {
            return false;
        }
    }
    true
}

/// Whether 0 is there in the state at this place of a search.
fn is_zero_at(
    machine: &CondensedMachine,
    search: &Search<State, Way>,
    bytes: WatchedBytes,
    place: usize,
) -> bool
    requires known { (s : State) → Contains search.now.states s → Knows machine.now s }
    requires word { CanLoad machine.now.program.image bytes }
    requires place { place < length search.now.states }
    ensures { (s : State) → slice_get search.now.states place ≡ Some s
        → result ≡ is_zero machine.now bytes s }
{
    match search.state(place) {
        Some(state) => machine.number(state, bytes.address, bytes.width.bytes()) == 0,
        None => false,
    }
}
