//! How a search goes on that has met its budget: by dives, each of which follows one order of the harts as
//! far as an end. Ends lie deepest, so breadth alone finds hardly any before the budget is met.

ghost use Rattle.std.specs.Prelude.{◌≡◌, ◌^◌, ◌<◌, ◌≤◌, true, length, IfOk, IfErr, OnOk};
ghost use Rattle.searches.specs.Found.{IsEndAt, IsToldFor};
ghost use Rattle.searches.specs.Sweeps.{found_by, Keeps, AreTraced, IsEndedFor};
ghost use Rattle.searches.specs.Dives.{HasGoneOn};
ghost use Rattle.searches.specs.Unmade.{MayBeUnmade};
ghost use Rattle.searches.specs.declared.extent.Extent.TheVariants.{First};

use crate::extent::Extent;
use crate::goal::Goal;
use crate::machine::Machine;
use crate::origin::Origin;
use crate::sweep::Sweep;
use crate::taking_turns::next_turn;
use crate::unmade::Unmade;
use std::alloc::AllocError;

/// How many dives there are.
const DIVES: u8 = 64;

/// The states from which they start lie this many times closer than if they were spread over all.
const SPREAD: usize = 2;

/// How many steps a dive makes at the most.
const STEPS_OF_DIVE: u32 = 16_384;

/// How many states may be found beyond the budget, where a quarter of it is fewer.
const STATES_BEYOND: u32 = 65_536;

/// Dives from states of the later half of those found, spread evenly, until there are as many states as
/// there may be or an end meets the goal. Errors: want of memory, or what the machine lacks for a step.
pub(crate) fn dive<M: Machine, G: Goal<M>>(
    sweep: &mut Sweep<M::State, M::Way>,
    machine: &mut M,
    budget: u32,
    goal: &G,
) -> Result<Extent, Unmade<M::Lack>>
    requires fits { G.Fits goal.now machine.old }
    requires harts { sweep.old.harts ≡ M.harts machine.old }
    requires traced { AreTraced (M.Knows machine.old) (M.Steps machine.old) (found_by sweep.old) }
    requires beyond { budget < length sweep.old.states.keys }
    requires few { length sweep.old.states.keys ≤ 2 ^ 32 }
    ensures grows { M.Grows machine.old machine.new }
    ensures same { OnOk result (sweep.new.harts ≡ sweep.old.harts) }
    ensures traced { OnOk result
        (AreTraced (M.Knows machine.new) (M.Steps machine.new) (found_by sweep.new)) }
    ensures kept { OnOk result (Keeps sweep.old.states.keys sweep.new.states.keys) }
    ensures few { OnOk result (length sweep.new.states.keys ≤ 2 ^ 32) }
    ensures ended { IfOk result
        (IsEndedFor (G.Meets goal.now machine.new) budget (found_by sweep.new)) }
    ensures lacks { IfErr result (MayBeUnmade (M.MayLack machine.new)) }
{
    let found = sweep.states.len();
    let stride = found / (SPREAD * DIVES as usize) + 1;
    let most = most_states(budget);
    for number in 0..DIVES {
        let start = found.saturating_sub(1 + number as usize * stride);
        if dive_from(sweep, machine, start as u32, number, most, goal)? {
            return Ok(Extent::First);
        }
    }
    Ok(Extent::Beyond)
}

/// How many states there may be with those that dives find.
fn most_states(budget: u32) -> usize
    ensures { result < 2 ^ 32 }
{
    budget.saturating_add((budget / 4).max(STATES_BEYOND)) as usize
}

/// Goes on from the state at a place as far as an end, by harts in turn, each of which makes as many steps
/// as the dive's number says, and one. Answers whether it is an end that meets the goal.
fn dive_from<M: Machine, G: Goal<M>>(
    sweep: &mut Sweep<M::State, M::Way>,
    machine: &mut M,
    start: u32,
    number: u8,
    most: usize,
    goal: &G,
) -> Result<bool, Unmade<M::Lack>>
    requires fits { G.Fits goal.now machine.old }
    requires harts { sweep.old.harts ≡ M.harts machine.old }
    requires traced { AreTraced (M.Knows machine.old) (M.Steps machine.old) (found_by sweep.old) }
    requires inside { start < length sweep.old.states.keys }
    requires most { most < 2 ^ 32 }
    requires few { length sweep.old.states.keys ≤ 2 ^ 32 }
    ensures grows { M.Grows machine.old machine.new }
    ensures same { OnOk result (sweep.new.harts ≡ sweep.old.harts) }
    ensures traced { OnOk result
        (AreTraced (M.Knows machine.new) (M.Steps machine.new) (found_by sweep.new)) }
    ensures kept { OnOk result (Keeps sweep.old.states.keys sweep.new.states.keys) }
    ensures few { OnOk result (length sweep.new.states.keys ≤ 2 ^ 32) }
    ensures met { IfOk result (λ is_met. is_met ≡ true
        → IsToldFor (G.Meets goal.now machine.new) (found_by sweep.new) First) }
    ensures lacks { IfErr result (MayBeUnmade (M.MayLack machine.new)) }
{
    let mut place = start;
    let mut hart = first_hart(number, sweep.harts);
    for step in 0..STEPS_OF_DIVE {
        if sweep.states.len() >= most {
            return Ok(false);
        }
        match go_on(sweep, machine, place, hart)? {
            None => {
                let is_met = list_end(sweep, machine, place, goal)?;
                return Ok(is_met);
            }
            Some(reached) => {
                place = reached.place;
                hart = hart_after(reached.hart, step, number, sweep.harts);
            }
        }
    }
    Ok(false)
}

/// The hart that begins the dive with this number: in turn another one.
fn first_hart(number: u8, harts: u8) -> u8
    ensures { result ≤ harts }
{
    if harts == 0 { 0 } else { number % harts }
}

/// Where a step of a dive leads, and whose it was.
#[derive(Clone, Copy, Drop)]
struct Reached {
    place: u32,
    hart: u8,
}

/// Makes the step of a hart from the state at a place, or of the first behind it that has one, and notes where
/// it leads. None where the state is an end.
fn go_on<M: Machine>(
    sweep: &mut Sweep<M::State, M::Way>,
    machine: &mut M,
    place: u32,
    hart: u8,
) -> Result<Option<Reached>, Unmade<M::Lack>>
    requires harts { sweep.old.harts ≡ M.harts machine.old }
    requires traced { AreTraced (M.Knows machine.old) (M.Steps machine.old) (found_by sweep.old) }
    requires inside { place < length sweep.old.states.keys }
    requires present { hart ≤ sweep.old.harts }
    requires few { length sweep.old.states.keys < 2 ^ 32 }
    ensures grows { M.Grows machine.old machine.new }
    ensures same { OnOk result (sweep.new.harts ≡ sweep.old.harts) }
    ensures traced { OnOk result
        (AreTraced (M.Knows machine.new) (M.Steps machine.new) (found_by sweep.new)) }
    ensures kept { OnOk result (Keeps sweep.old.states.keys sweep.new.states.keys) }
    ensures few { OnOk result (length sweep.new.states.keys ≤ 2 ^ 32) }
    ensures gone { IfOk result (HasGoneOn (M.Steps machine.new) (found_by sweep.new) place) }
    ensures lacks { IfErr result (MayBeUnmade (M.MayLack machine.new)) }
{
    let state = sweep.states.as_slice()[place as usize];
    match next_turn(machine, state, hart)? {
        None => Ok(None),
        Some(turn) => {
            let origin = Origin {
                parent: place,
                hart: turn.hart,
                way: turn.step.way,
            };
            let found = sweep.note(turn.step.state, origin)?;
            Ok(Some(Reached {
                place: found,
                hart: turn.hart,
            }))
        }
    }
}

/// Whose turn it is behind a step of a dive: once in so many steps as the dive's number says, and one, that of
/// the next hart.
fn hart_after(hart: u8, step: u32, number: u8, harts: u8) -> u8
    requires { hart < harts }
    ensures { result < harts }
{
    if step % (u32::from(number) + 1) < u32::from(number) {
        return hart;
    }
    if hart + 1 < harts { hart + 1 } else { 0 }
}

/// Lists the end at a place, unless it is listed. Answers whether it meets the goal.
fn list_end<M: Machine, G: Goal<M>>(
    sweep: &mut Sweep<M::State, M::Way>,
    machine: &M,
    place: u32,
    goal: &G,
) -> Result<bool, AllocError>
    requires fits { G.Fits goal.now machine.now }
    requires harts { sweep.old.harts ≡ M.harts machine.now }
    requires traced { AreTraced (M.Knows machine.now) (M.Steps machine.now) (found_by sweep.old) }
    requires end { IsEndAt (M.Steps machine.now) (found_by sweep.old) place }
    ensures same { OnOk result (sweep.new.harts ≡ sweep.old.harts) }
    ensures traced { OnOk result
        (AreTraced (M.Knows machine.now) (M.Steps machine.now) (found_by sweep.new)) }
    ensures states { OnOk result (sweep.new.states.keys ≡ sweep.old.states.keys) }
    ensures met { IfOk result (λ is_met. is_met ≡ true
        → IsToldFor (G.Meets goal.now machine.now) (found_by sweep.new) First) }
{
    let state = sweep.states.as_slice()[place as usize];
    if sweep.ends.as_slice().contains(&place) {
        return Ok(false);
    }
    sweep.ends.push(place)?;
    let is_met = goal.is_met(machine, state)?;
    Ok(is_met)
}
