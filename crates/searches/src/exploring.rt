ghost use Rattle.std.specs.Prelude.{◌≡◌, ◌≢◌, ◌+◌, ◌^◌, ◌<◌, ◌≤◌, ◌++◌, ◌∷◌, [], Some, None, length, slice_get};
ghost use Rattle.std.specs.Prelude.{IfOk, IfErr, OnOk, Contains};
ghost use Rattle.searches.specs.Found.{IsExplored, IsToldFor};
ghost use Rattle.searches.specs.Sweeps.{found_by, with_edge, Keeps, IsSwept, AreTraced, IsEndedIf};
ghost use Rattle.searches.specs.Sweeps.{IsSweptAs};
ghost use Rattle.searches.specs.Unmade.{MayBeUnmade};

use crate::diving::dive;
use crate::explored::Explored;
use crate::extent::Extent;
use crate::goal::Goal;
use crate::machine::Machine;
use crate::onlooker::Onlooker;
use crate::origin::Origin;
use crate::sweep::Sweep;
use crate::unmade::Unmade;
use std::alloc::Global;

/// How many states are swept between two looks at the search.
const STATES_BETWEEN_LOOKS: u32 = 4096;

/// Visits each state to which steps lead from the start, those first to which fewer steps lead, and
/// keeps each hart's step from each of them. The onlooker is told now and then how far it is.
///
/// Where there are more than `budget` states it goes no further in breadth, and dives for ends from
/// some of the states found last; what it finds there is beyond the budget. It ends early with the
/// first end that meets the goal. Then what it has found is real, and isn't all. Errors: want of memory;
/// or what the machine lacks for the first step that it refuses.
pub fn explore<M: Machine, O: Onlooker, G: Goal<M>>(
    machine: &mut M,
    start: M::State,
    budget: u32,
    onlooker: &O,
    goal: &G,
    alloc: Global,
) -> Result<Explored<M::State, M::Way>, Unmade<M::Lack>>
    requires fits { G.Fits goal.now machine.old }
    requires known { M.Knows machine.old start }
    ensures grows { M.Grows machine.old machine.new }
    ensures explored { IfOk result (λ explored. IsExplored (M.Steps machine.new) (M.harts machine.new) start budget
        explored.search explored.extent) }
    ensures known { IfOk result (λ explored. (s : M.State) → Contains explored.search.states s
        → M.Knows machine.new s) }
    ensures told { IfOk result (λ explored. IsToldFor (G.Meets goal.now machine.new) explored.search
        explored.extent) }
    ensures lacks { IfErr result (MayBeUnmade (M.MayLack machine.new)) }
{
    let mut sweep = Sweep::begin(start, machine.harts(), alloc)?;
    let extent = sweep_and_dive(&mut sweep, machine, budget, onlooker, goal)?;
    Ok(Explored {
        search: sweep.into_search(),
        extent,
    })
}

/// Sweeps the states; and dives, where there are too many.
fn sweep_and_dive<M: Machine, O: Onlooker, G: Goal<M>>(
    sweep: &mut Sweep<M::State, M::Way>,
    machine: &mut M,
    budget: u32,
    onlooker: &O,
    goal: &G,
) -> Result<Extent, Unmade<M::Lack>>
    requires fits { G.Fits goal.now machine.old }
    requires harts { sweep.old.harts ≡ M.harts machine.old }
    requires swept { IsSwept (M.Knows machine.old) (M.Steps machine.old) 0 0 (found_by sweep.old) }
    requires one { length sweep.old.states.keys ≤ 1 }
    ensures grows { M.Grows machine.old machine.new }
    ensures same { OnOk result (sweep.new.harts ≡ sweep.old.harts) }
    ensures swept { IfOk result (IsSweptAs (M.Knows machine.new) (M.Steps machine.new)
        (G.Meets goal.now machine.new) budget (found_by sweep.new)) }
    ensures kept { OnOk result (Keeps sweep.old.states.keys sweep.new.states.keys) }
    ensures few { OnOk result (length sweep.new.states.keys ≤ 2 ^ 32) }
    ensures lacks { IfErr result (MayBeUnmade (M.MayLack machine.new)) }
{
    match sweep_all(sweep, machine, budget, onlooker, goal)? {
        Extent::Whole => Ok(Extent::Whole),
        Extent::First => Ok(Extent::First),
        Extent::Beyond => {
            let extent = dive(sweep, machine, budget, goal)?;
            Ok(extent)
        }
    }
}

/// Sweeps the states in turn, until all are swept, there are too many, or an end meets the goal.
fn sweep_all<M: Machine, O: Onlooker, G: Goal<M>>(
    sweep: &mut Sweep<M::State, M::Way>,
    machine: &mut M,
    budget: u32,
    onlooker: &O,
    goal: &G,
) -> Result<Extent, Unmade<M::Lack>>
    requires fits { G.Fits goal.now machine.old }
    requires harts { sweep.old.harts ≡ M.harts machine.old }
    requires swept { IsSwept (M.Knows machine.old) (M.Steps machine.old) 0 0 (found_by sweep.old) }
    requires one { length sweep.old.states.keys ≤ 1 }
    ensures grows { M.Grows machine.old machine.new }
    ensures same { OnOk result (sweep.new.harts ≡ sweep.old.harts) }
    ensures swept { IfOk result (IsSweptAs (M.Knows machine.new) (M.Steps machine.new)
        (G.Meets goal.now machine.new) budget (found_by sweep.new)) }
    ensures kept { OnOk result (Keeps sweep.old.states.keys sweep.new.states.keys) }
    ensures few { OnOk result (length sweep.new.states.keys ≤ budget + 1) }
    ensures lacks { IfErr result (MayBeUnmade (M.MayLack machine.new)) }
{
    let mut place: u32 = 0;
    while (place as usize) < sweep.states.len() {
        if sweep.states.len() > budget as usize {
            return Ok(Extent::Beyond);
        }
        match expand(sweep, machine, place, budget, goal)? {
            Some(extent) => return Ok(extent),
            None => {}
        }
        place += 1;
        show_progress(onlooker, sweep.states.len(), place);
    }
    Ok(Extent::Whole)
}

/// Shows the onlooker how far the search is, once in so many states.
fn show_progress<O: Onlooker>(onlooker: &O, states: usize, swept: u32) {
    if swept % STATES_BETWEEN_LOOKS == 0 {
        onlooker.see(states.min(u32::MAX as usize) as u32, swept);
    }
}

/// Looks at the steps of all harts from the state at a place, the first that isn't swept. Answers why
/// the search ends here, if it does: there are too many states, or this is an end that meets the goal.
fn expand<M: Machine, G: Goal<M>>(
    sweep: &mut Sweep<M::State, M::Way>,
    machine: &mut M,
    place: u32,
    budget: u32,
    goal: &G,
) -> Result<Option<Extent>, Unmade<M::Lack>>
    requires fits { G.Fits goal.now machine.old }
    requires inside { place < length sweep.old.states.keys }
    requires few { length sweep.old.states.keys ≤ budget }
    requires harts { sweep.old.harts ≡ M.harts machine.old }
    requires swept { IsSwept (M.Knows machine.old) (M.Steps machine.old) place 0
        (found_by sweep.old) }
    ensures grows { M.Grows machine.old machine.new }
    ensures same { OnOk result (sweep.new.harts ≡ sweep.old.harts) }
    ensures swept { IfOk result (λ ended. ended ≡ None
        → IsSwept (M.Knows machine.new) (M.Steps machine.new) (place + 1) 0 (found_by sweep.new)) }
    ensures traced { OnOk result
        (AreTraced (M.Knows machine.new) (M.Steps machine.new) (found_by sweep.new)) }
    ensures ended { IfOk result
        (IsEndedIf (G.Meets goal.now machine.new) budget (found_by sweep.new)) }
    ensures kept { OnOk result (Keeps sweep.old.states.keys sweep.new.states.keys) }
    ensures few { OnOk result (length sweep.new.states.keys ≤ budget + 1) }
    ensures lacks { IfErr result (MayBeUnmade (M.MayLack machine.new)) }
{
    let state = sweep.states.as_slice()[place as usize];
    let mut is_end = true;
    for hart in 0..sweep.harts {
        if sweep.states.len() > budget as usize {
            return Ok(Some(Extent::Beyond));
        }
        if follow(sweep, machine, state, place, hart)?.is_some() {
            is_end = false;
        }
    }
    if !is_end {
        return Ok(None);
    }
    sweep.ends.push(place)?;
    if goal.is_met(machine, state)? {
        return Ok(Some(Extent::First));
    }
    Ok(None)
}

/// Keeps the edge of a hart's step from the state at a place, and answers it.
fn follow<M: Machine>(
    sweep: &mut Sweep<M::State, M::Way>,
    machine: &mut M,
    state: M::State,
    place: u32,
    hart: u8,
) -> Result<Option<u32>, Unmade<M::Lack>>
    requires here { slice_get sweep.old.states.keys place ≡ Some state }
    requires few { length sweep.old.states.keys < 2 ^ 32 }
    requires present { hart < sweep.old.harts }
    requires harts { sweep.old.harts ≡ M.harts machine.old }
    requires swept { IsSwept (M.Knows machine.old) (M.Steps machine.old) place hart
        (found_by sweep.old) }
    ensures grows { M.Grows machine.old machine.new }
    ensures same { OnOk result (sweep.new.harts ≡ sweep.old.harts) }
    ensures swept { OnOk result (IsSwept (M.Knows machine.new) (M.Steps machine.new) place (hart + 1)
        (found_by sweep.new)) }
    ensures kept { OnOk result (Keeps sweep.old.states.keys sweep.new.states.keys) }
    ensures one { OnOk result (length sweep.new.states.keys ≤ length sweep.old.states.keys + 1) }
    ensures edge { IfOk result
        (λ edge. sweep.new.edges.items ≡ sweep.old.edges.items ++ edge ∷ []) }
    ensures lacks { IfErr result (MayBeUnmade (M.MayLack machine.new)) }
{
    let edge = next_edge(sweep, machine, state, place, hart)?;
    sweep.edges.push(edge)?;
    Ok(edge)
}

/// The edge of a hart's step from the state at a place: the place of the state after the step,
/// which is noted, or none.
fn next_edge<M: Machine>(
    sweep: &mut Sweep<M::State, M::Way>,
    machine: &mut M,
    state: M::State,
    place: u32,
    hart: u8,
) -> Result<Option<u32>, Unmade<M::Lack>>
    requires here { slice_get sweep.old.states.keys place ≡ Some state }
    requires few { length sweep.old.states.keys < 2 ^ 32 }
    requires present { hart < sweep.old.harts }
    requires harts { sweep.old.harts ≡ M.harts machine.old }
    requires swept { IsSwept (M.Knows machine.old) (M.Steps machine.old) place hart
        (found_by sweep.old) }
    ensures grows { M.Grows machine.old machine.new }
    ensures same { OnOk result (sweep.new.harts ≡ sweep.old.harts) }
    ensures edges { OnOk result (sweep.new.edges.items ≡ sweep.old.edges.items) }
    ensures swept { IfOk result (λ edge. IsSwept (M.Knows machine.new) (M.Steps machine.new)
        place (hart + 1) (with_edge (found_by sweep.new) edge)) }
    ensures kept { OnOk result (Keeps sweep.old.states.keys sweep.new.states.keys) }
    ensures one { OnOk result (length sweep.new.states.keys ≤ length sweep.old.states.keys + 1) }
    ensures lacks { IfErr result (MayBeUnmade (M.MayLack machine.new)) }
{
    match machine.step(state, hart)? {
        None => Ok(None),
        Some(step) => {
            let origin = Origin {
                parent: place,
                hart,
                way: step.way,
            };
            let found = sweep.note(step.state, origin)?;
            Ok(Some(found))
        }
    }
}
