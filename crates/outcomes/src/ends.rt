//! What is told of a search: the outcomes of its ends; and, where it was whole, whether each state can go on to one, and
//! what is watched for nothing.

ghost use Rattle.std.specs.Prelude.{◌≡◌, ◌<◌, ℕ, Contains, IfOk, IfSome, length, map};
ghost use Rattle.condensed_machine.specs.Decoded.{Knows};
ghost use Rattle.condensed_machine.specs.declared.state.State.{State};
ghost use Rattle.searches.specs.{Ending.IsLeastStuck};
ghost use Rattle.searches.specs.declared.extent.Extent.TheVariants.{Whole};
ghost use Rattle.outcomes.specs.{Collected.is_unwritten, Ended.AreEnds};
ghost use Rattle.outcomes.specs.Refusals.{AreWords};
ghost use Rattle.watched_outcomes.specs.Watching.{AreThere};

use crate::collecting::list_outcomes;
use crate::listed::Listed;
use crate::unwritten::list_unwritten;
use condensed_machine::{CondensedMachine, State, Way};
use searches::{Extent, Search};
use std::alloc::{AllocError, Global};
use watched_outcomes::Watch;

/// The outcomes of a search's ends, and what only a whole search tells.
#[derive(Drop)]
pub(crate) struct Ends {
    pub(crate) listed: Vec<Listed>,
    /// The place of a state that has no way to an end.
    pub(crate) stuck: Option<u32>,
    /// Of each place in memory that is watched, whether 0 is there in all states.
    pub(crate) unwritten: Vec<bool>,
}

/// What is told of a search. Errors: want of memory.
pub(crate) fn ends_of(
    machine: &CondensedMachine,
    search: &Search<State, Way>,
    extent: Extent,
    watch: &Watch,
    alloc: Global,
) -> Result<Ends, AllocError>
    requires known { (s : State) → Contains search.now.states s → Knows machine.now s }
    requires registers { AreThere machine.now.program.harts watch.now }
    requires words { AreWords machine.now.program.image watch.now }
    ensures { IfOk result (AreEnds machine.now watch.now search.now extent) }
{
    let listed = list_outcomes(machine, search, watch, alloc)?;
    let stuck = stuck_of(search, extent, alloc)?;
    let unwritten = unwritten_of(machine, search, extent, watch, alloc)?;
    Ok(Ends {
        listed,
        stuck,
        unwritten,
    })
}

/// The place of a state that has no way to an end. A part of the states tells none. Errors: want of memory.
fn stuck_of(
    search: &Search<State, Way>,
    extent: Extent,
    alloc: Global,
) -> Result<Option<u32>, AllocError>
    ensures whole { IfOk result (λ stuck. extent ≡ Whole → IsLeastStuck search.now stuck) }
    ensures inside { IfOk result (λ stuck. IfSome stuck (λ place. place < length search.now.states)) }
{
    match extent {
        Extent::Whole => search.stuck(alloc),
        Extent::Beyond | Extent::First => Ok(None),
    }
}

/// What is watched for nothing. A part of the states doesn't tell it. Errors: want of memory.
fn unwritten_of(
    machine: &CondensedMachine,
    search: &Search<State, Way>,
    extent: Extent,
    watch: &Watch,
    alloc: Global,
) -> Result<Vec<bool>, AllocError>
    requires known { (s : State) → Contains search.now.states s → Knows machine.now s }
    requires words { AreWords machine.now.program.image watch.now }
    ensures { IfOk result (λ unwritten. extent ≡ Whole
        → unwritten.items ≡ map (is_unwritten machine.now search.now.states) watch.now.words.items) }
{
    match extent {
        Extent::Whole => list_unwritten(machine, search, watch, alloc),
        Extent::Beyond | Extent::First => Ok(Vec::new(alloc)),
    }
}
