//! Steps of two harts that count on one word, by hand from the ISA.

ghost use Rattle.std.specs.Prelude.{◌≡◌, ◌<◌, IfSome};
ghost use Rattle.condensed_machine.specs.Decoded.{Knows};
ghost use Rattle.condensed_machine.specs.declared.state.State.{State};

use crate::rows::holds;
use condensed_machine::{CondensedMachine, State, Way};
use live_registers::{Jump, Targets};
use reductions::Without;
use searches::{Machine, Step, Unmade};
use smt_model::Status;
use std::alloc::Global;
use test_support::{file_of, image_of};

/// `lui x5,0x80001`, `lw x7,0(x5)`, `addi x7,x7,1`, `sw x7,0(x5)`, `addi x10,x7,0`, `addi x17,x0,93`, `ecall`:
/// a hart adds one to a word, and ends with what it has written.
static COUNTER: [u32; 7] = [
    0x8000_12b7,
    0x0002_a383,
    0x0013_8393,
    0x0072_a023,
    0x0003_8513,
    0x05d0_0893,
    0x0000_0073,
];

/// `lui x5,0x80001`, `lr.w x7,(x5)`, `jal x0,-4`: a hart reserves a word again and again, and no SC uses that.
static RESERVING: [u32; 3] = [0x8000_12b7, 0x1002_a3af, 0xffdf_f06f];

/// `auipc x5,0`, `jalr x0,12(x5)`, `ebreak`, `addi x17,x0,93`, `ecall`: a hart jumps over the EBREAK, and ends.
static JUMPING: [u32; 5] = [
    0x0000_0297,
    0x00c2_8067,
    0x0010_0073,
    0x05d0_0893,
    0x0000_0073,
];

/// Where its JALR goes.
const OVER: Jump = Jump {
    from: 0x8000_0004,
    to: 0x8000_000c,
};

/// What was seen of a machine on its way.
#[derive(Clone, Copy, Drop)]
struct Seen {
    /// How many local steps hart 1 made at the start.
    begun: u16,
    /// How many local steps of its own followed the load of hart 0, and its store.
    loaded: u16,
    stored: u16,
    /// Whether hart 0 has another step then.
    goes: bool,
    /// How it stands, and how many bytes were put out.
    status: Status,
    output: usize,
    /// What x7 of hart 0 is, which nobody reads again.
    dead: u32,
}

/// The step of a hart from a state that is known.
fn step_of(machine: &mut CondensedMachine, state: State, hart: u8) -> Option<Step<State, Way>>
    requires hart { hart < machine.old.program.harts }
    requires known { Knows machine.old state }
    ensures program { machine.new.program ≡ machine.old.program }
    ensures knew { (s : State) → Knows machine.old s → Knows machine.new s }
    ensures knows { IfSome result (λ step. Knows machine.new step.state) }
{
    match machine.step(state, hart) {
        Ok(next) => next,
        Err(_) => None,
    }
}

/// Hart 0 loads and stores.
fn counted(alloc: Global) -> Option<Seen> {
    let file = file_of(&COUNTER, 0, alloc).ok()?;
    let image = image_of(file.as_slice(), 65536, alloc)?;
    let Ok(mut machine) = CondensedMachine::new(
        &image,
        2,
        [false; 32],
        Targets::anywhere(alloc),
        Without::none(),
        alloc,
    ) else {
        return None;
    };
    let Ok(begun) = machine.begin() else {
        return None;
    };
    let loaded = step_of(&mut machine, begun.state, 0)?;
    let stored = step_of(&mut machine, loaded.state, 0)?;
    let status = machine.status(stored.state, 0);
    let dead = machine.register(stored.state, 0, 7);
    let output = machine.output(stored.state).len();
    let goes = machine.step(stored.state, 0).ok()?.is_some();
    Some(Seen {
        begun: begun.ways[1],
        loaded: loaded.way.own,
        stored: stored.way.own,
        goes,
        status,
        output,
        dead,
    })
}

#[test]
fn a_step_is_followed_by_local_ones(rt: HostRuntime) {
    match counted(rt.alloc()) {
        None => holds(&rt, "memory", false),
        Some(seen) => {
            holds(&rt, "begun", seen.begun == 1);
            holds(&rt, "loaded", seen.loaded == 1);
            holds(&rt, "stored", seen.stored == 3);
            holds(&rt, "goes", !seen.goes);
            holds(&rt, "status", seen.status == Status::Ended(1));
            holds(&rt, "output", seen.output == 0);
            holds(&rt, "dead", seen.dead == 0);
        }
    }
}

/// Whether a step that is asked for again is the one that was made.
fn is_made_once(machine: &mut CondensedMachine, state: State) -> Option<bool>
    requires hart { 0 < machine.old.program.harts }
    requires known { Knows machine.old state }
    ensures program { machine.new.program ≡ machine.old.program }
    ensures knew { (s : State) → Knows machine.old s → Knows machine.new s }
{
    let first = step_of(machine, state, 0)?;
    let again = step_of(machine, state, 0)?;
    let Way { own, others } = first.way;
    Some(first.state == again.state && own == again.way.own && others == again.way.others)
}

/// Whether the step of the other hart, from the same numbers, is one of that hart, and both steps come to the same in
/// both orders.
fn is_its_own(machine: &mut CondensedMachine, state: State) -> Option<bool>
    requires harts { 1 < machine.old.program.harts }
    requires known { Knows machine.old state }
{
    let first = step_of(machine, state, 0)?;
    let other = step_of(machine, state, 1)?;
    let zero_then_one = step_of(machine, first.state, 1)?;
    let one_then_zero = step_of(machine, other.state, 0)?;
    Some(other.state != first.state && zero_then_one.state == one_then_zero.state)
}

/// What these two say of the counter's first state.
fn made_once(alloc: Global) -> Option<(bool, bool)> {
    let file = file_of(&COUNTER, 0, alloc).ok()?;
    let image = image_of(file.as_slice(), 65536, alloc)?;
    let Ok(mut machine) = CondensedMachine::new(
        &image,
        2,
        [false; 32],
        Targets::anywhere(alloc),
        Without::none(),
        alloc,
    ) else {
        return None;
    };
    let Ok(begun) = machine.begin() else {
        return None;
    };
    looked_at(&mut machine, begun.state)
}

/// Both of them, of one state.
fn looked_at(machine: &mut CondensedMachine, state: State) -> Option<(bool, bool)>
    requires harts { 1 < machine.old.program.harts }
    requires known { Knows machine.old state }
{
    let is_same = is_made_once(machine, state)?;
    let is_own = is_its_own(machine, state)?;
    Some((is_same, is_own))
}

#[test]
fn a_step_is_made_once_for_each_hart(rt: HostRuntime) {
    match made_once(rt.alloc()) {
        None => holds(&rt, "memory", false),
        Some((is_same, is_own)) => {
            holds(&rt, "same", is_same);
            holds(&rt, "own", is_own);
        }
    }
}

/// Whether the state behind a first LR is the one before it.
fn comes_back(alloc: Global) -> Option<bool> {
    let file = file_of(&RESERVING, 0, alloc).ok()?;
    let image = image_of(file.as_slice(), 65536, alloc)?;
    let Ok(mut machine) = CondensedMachine::new(
        &image,
        2,
        [false; 32],
        Targets::anywhere(alloc),
        Without::none(),
        alloc,
    ) else {
        return None;
    };
    let Ok(begun) = machine.begin() else {
        return None;
    };
    let reserved = step_of(&mut machine, begun.state, 0)?;
    Some(reserved.state == begun.state)
}

#[test]
fn a_reservation_that_no_store_conditional_uses_is_dropped(rt: HostRuntime) {
    holds(&rt, "back", comes_back(rt.alloc()) == Some(true));
}

/// How many local steps hart 0 makes at the start, and from where to where its next step jumps that is refused.
#[derive(Clone, Copy, PartialEq, Eq, Drop)]
struct Refused {
    begun: u16,
    from: u32,
    to: u32,
}

/// The machine goes by these targets. Where no step is refused, it jumps from 0 to 0.
fn refused_by(targets: Targets, alloc: Global) -> Option<Refused> {
    let file = file_of(&JUMPING, 0, alloc).ok()?;
    let image = image_of(file.as_slice(), 65536, alloc)?;
    let Ok(mut machine) = CondensedMachine::new(
        &image,
        2,
        [false; 32],
        targets,
        Without::none(),
        alloc,
    ) else {
        return None;
    };
    let Ok(begun) = machine.begin() else {
        return None;
    };
    let (from, to) = match machine.step(begun.state, 0) {
        Ok(_) => (0, 0),
        Err(Unmade::Lacks(jump)) => (jump.from, jump.to),
        Err(Unmade::Memory) => return None,
    };
    Some(Refused {
        begun: begun.ways[0],
        from,
        to,
    })
}

/// The table that has this jump alone, where there is memory for it.
fn listed(jump: Jump, alloc: Global) -> Option<Targets> {
    let mut targets = Targets::none(alloc);
    targets.add(jump).ok()?;
    Some(targets)
}

/// Whether what was seen is so many local steps, and a jump that is refused.
fn is_so(seen: Option<Refused>, begun: u16, from: u32, to: u32) -> bool {
    seen == Some(Refused { begun, from, to })
}

#[test]
fn a_jump_that_the_table_lacks_is_refused(rt: HostRuntime) {
    let none = refused_by(Targets::none(rt.alloc()), rt.alloc());
    holds(&rt, "none", is_so(none, 1, OVER.from, OVER.to));
    let anywhere = refused_by(Targets::anywhere(rt.alloc()), rt.alloc());
    holds(&rt, "anywhere", is_so(anywhere, 4, 0, 0));
    match listed(OVER, rt.alloc()) {
        None => holds(&rt, "memory", false),
        Some(targets) => {
            let over = refused_by(targets, rt.alloc());
            holds(&rt, "listed", is_so(over, 4, 0, 0));
        }
    }
}
