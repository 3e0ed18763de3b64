//! The outcomes of the ends that a search has found.

ghost use Rattle.std.specs.Prelude.{◌≡◌, ◌<◌, ℕ, Contains, None, IfOk, map};
ghost use Rattle.smt_model.specs.Basics.{below};
ghost use Rattle.condensed_machine.specs.Decoded.{Knows, state_of};
ghost use Rattle.condensed_machine.specs.declared.state.State.{State};
ghost use Rattle.outcomes.specs.Refusals.{AreWords};
ghost use Rattle.outcomes.specs.{Collected.AreOutcomes, Lists.AreOnce};
ghost use Rattle.watched_outcomes.specs.Endings.{ending_of, watched_in, word_in};
ghost use Rattle.watched_outcomes.specs.Watching.{AreThere};

use crate::listed::{Listed, put};
use arrayvec::ArrayVec;
use condensed_machine::{CondensedMachine, State, Way};
use numbers::sizes::HART_ROOM;
use searches::Search;
use smt_model::Status;
use std::alloc::{AllocError, Global};
use watched_outcomes::{Outcome, Watch, WatchedBytes};

/// The outcomes of a search's ends, sorted, each with the place of the first end that has it. Errors: want of
/// memory.
pub(crate) fn list_outcomes(
    machine: &CondensedMachine,
    search: &Search<State, Way>,
    watch: &Watch,
    alloc: Global,
) -> Result<Vec<Listed>, AllocError>
    requires known { (s : State) → Contains search.now.states s → Knows machine.now s }
    requires registers { AreThere machine.now.program.harts watch.now }
    requires words { AreWords machine.now.program.image watch.now }
    ensures outcomes { IfOk result (λ listed. AreOutcomes machine.now watch.now search.now.states
        search.now.ends listed.items) }
    ensures once { IfOk result (λ listed. AreOnce listed.items) }
{
    let mut listed = Vec::new(alloc);
    for index in 0..search.ends().len() {
        let place = search.ends()[index];
        if let Some(state) = search.state(place as usize) {
            let outcome = outcome_of(machine, state, watch, alloc)?;
            put(&mut listed, outcome, place)?;
        }
    }
    Ok(listed)
}

/// What a state is as an end. Errors: want of memory.
pub(crate) fn outcome_of(
    machine: &CondensedMachine,
    state: State,
    watch: &Watch,
    alloc: Global,
) -> Result<Outcome, AllocError>
    requires known { Knows machine.now state }
    requires registers { AreThere machine.now.program.harts watch.now }
    requires words { AreWords machine.now.program.image watch.now }
    ensures { IfOk result (λ outcome. outcome
        ≡ ending_of machine.now.program.harts watch.now (state_of machine.now state)) }
{
    Ok(Outcome {
        statuses: statuses_of(machine, state),
        registers: registers_of(machine, state, watch, alloc)?,
        words: words_of(machine, state, watch, alloc)?,
        output: Vec::from_slice(alloc, machine.output(state))?,
    })
}

/// How each hart stands in a state.
fn statuses_of(machine: &CondensedMachine, state: State) -> ArrayVec<Status, HART_ROOM>
    requires { Knows machine.now state }
    ensures { result.items ≡ map (state_of machine.now state).statuses (below machine.now.program.harts) }
{
    let mut statuses = ArrayVec::new();
    for hart in 0..machine.harts() {
        statuses.push(machine.status(state, hart));
    }
    statuses
}

/// What the watched registers hold in a state. Errors: want of memory.
fn registers_of(
    machine: &CondensedMachine,
    state: State,
    watch: &Watch,
    alloc: Global,
) -> Result<Vec<u32>, AllocError>
    requires known { Knows machine.now state }
    requires registers { AreThere machine.now.program.harts watch.now }
    ensures { IfOk result (λ numbers. numbers.items
        ≡ map (watched_in (state_of machine.now state)) watch.now.registers.items) }
{
    let mut numbers = Vec::with_capacity(alloc, watch.registers.len())?;
    for watched in watch.registers.as_slice() {
        numbers.push(machine.register(state, watched.hart, watched.register))?;
    }
    Ok(numbers)
}

/// What the watched words hold in a state. Errors: want of memory.
fn words_of(
    machine: &CondensedMachine,
    state: State,
    watch: &Watch,
    alloc: Global,
) -> Result<Vec<u32>, AllocError>
    requires known { Knows machine.now state }
    requires words { AreWords machine.now.program.image watch.now }
    ensures { IfOk result (λ numbers. numbers.items
        ≡ map (word_in (state_of machine.now state)) watch.now.words.items) }
{
    let mut numbers = Vec::with_capacity(alloc, watch.words.len())?;
    for index in 0..watch.words.len() {
        let WatchedBytes { address, width } = watch.words[index];
        numbers.push(machine.number(state, address, width.bytes()))?;
    }
    Ok(numbers)
}
