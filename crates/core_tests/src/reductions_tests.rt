//! Searches of which reductions are left out: they end as all orders do, and visit as many states as the rules of each
//! reduction say.

use crate::computed_jumps_tests::{CALLED, CALLS};
use crate::rows::holds;
use crate::searched::{image_with, watching_nothing};
use outcomes::{Extent, Outcomes, find_outcomes};
use reductions::{Reduction, Without, read_list};
use smt_model::Status;
use std::alloc::Global;

/// Each hart adds 1 to a word in a lock by LR and SC: `lui x5,0x80001`, `a: lr.w x6,(x5)`, `bne x6,x0,a`,
/// `sc.w x6,x11,(x5)`, `bne x6,x0,a`, `lw x7,4(x5)`, `addi x7,x7,1`, `sw x7,4(x5)`, `sw x0,0(x5)`, `addi x10,x7,0`,
/// `addi x17,x0,93`, `ecall`. Who is inside first finds 0, and the other one 1.
static LOCK: [u32; 12] = [
    0x8000_12b7,
    0x1002_a32f,
    0xfe03_1ee3,
    0x18b2_a32f,
    0xfe03_1ae3,
    0x0042_a383,
    0x0013_8393,
    0x0072_a223,
    0x0002_a023,
    0x0003_8513,
    0x05d0_0893,
    0x0000_0073,
];

const LOCKED: [(u32, u32); 2] = [(1, 2), (2, 1)];

/// Each hart stores by an SC without an LR, which fails: `lui x5,0x80001`, `sc.w x10,x11,(x5)`, `addi x17,x0,93`,
/// `ecall`.
static FAILING: [u32; 4] = [0x8000_12b7, 0x18b2_a52f, 0x05d0_0893, 0x0000_0073];

const FAILED: [(u32, u32); 1] = [(1, 1)];

/// What a search is without, by its name, and how many states it visits.
type Row = (&'static str, Without, u64);

const ALL: Without = Without {
    conditional: false,
    jumps: false,
};

const NO_CONDITIONAL: Without = Without {
    conditional: true,
    jumps: false,
};

const NO_JUMPS: Without = Without {
    conditional: false,
    jumps: true,
};

const NEITHER: Without = Without {
    conditional: true,
    jumps: true,
};

/// Of the lock, by tools/expected/condensed.py: it has no jump by a register.
const STATES_OF_LOCK: [Row; 4] = [
    ("all", ALL, 22),
    ("without RX", NO_CONDITIONAL, 36),
    ("without J", NO_JUMPS, 22),
    ("without both", NEITHER, 36),
];

/// Of the two calls, by hand: without J x7 is kept, what a hart's first call has found, as a jump may go to where it is
/// read. So there are three more states: where both have one call before them either may have found 0; and where one of
/// them is over, which found 2, the other one, with a call before it, may have found 0 or 1.
const STATES_OF_CALLS: [Row; 4] = [
    ("all", ALL, 14),
    ("without RX", NO_CONDITIONAL, 14),
    ("without J", NO_JUMPS, 17),
    ("without both", NEITHER, 17),
];

/// By hand: both harts are over in the one state; or in a state each hart has its SC before it or is over.
const STATES_OF_FAILING: [Row; 4] = [
    ("all", ALL, 1),
    ("without RX", NO_CONDITIONAL, 4),
    ("without J", NO_JUMPS, 1),
    ("without both", NEITHER, 4),
];

/// Whether an outcome is that of two harts that have ended with these numbers.
fn ends_with(found: &Outcomes, index: usize, ends: (u32, u32)) -> bool {
    match found.outcome(index) {
        None => false,
        Some(outcome) => {
            outcome.statuses.as_slice() == [Status::Ended(ends.0), Status::Ended(ends.1)].as_slice()
        }
    }
}

/// Whether the outcomes are these.
fn has_ends(found: &Outcomes, ends: &[(u32, u32)]) -> bool {
    for index in 0..ends.len() {
        if !ends_with(found, index, ends[index]) {
            return false;
        }
    }
    found.count() == ends.len()
}

/// Whether all states were looked at, these many, from each of which some order leads on to an end, and the outcomes are
/// these.
fn is_told(found: &Outcomes, states: u64, ends: &[(u32, u32)], alloc: Global) -> bool {
    found.extent() == Extent::Whole
        && found.states() == states
        && matches!(found.stuck(alloc), Ok(None))
        && has_ends(found, ends)
}

/// Whether a search of two harts without these reductions visits so many states, and finds these outcomes.
fn finds(words: &[u32], without: Without, states: u64, ends: &[(u32, u32)], alloc: Global) -> bool {
    let Some(image) = image_with(words, alloc) else {
        return false;
    };
    match find_outcomes(
        &image,
        2,
        &watching_nothing(),
        1000,
        without,
        &(),
        &(),
        alloc,
    ) {
        Ok(found) => is_told(&found, states, ends, alloc),
        Err(_) => false,
    }
}

#[test]
fn a_lock_by_reservations(rt: HostRuntime) {
    for (row, without, states) in STATES_OF_LOCK {
        holds(&rt, row, finds(&LOCK, without, states, &LOCKED, rt.alloc()));
    }
}

#[test]
fn a_function_that_is_called_twice(rt: HostRuntime) {
    for (row, without, states) in STATES_OF_CALLS {
        holds(
            &rt,
            row,
            finds(&CALLS, without, states, &CALLED, rt.alloc()),
        );
    }
}

#[test]
fn an_sc_that_fails(rt: HostRuntime) {
    for (row, without, states) in STATES_OF_FAILING {
        holds(
            &rt,
            row,
            finds(&FAILING, without, states, &FAILED, rt.alloc()),
        );
    }
}

/// Lists of reductions, and what they leave out.
const LISTS: [(&str, Option<Without>); 9] = [
    ("RX", Some(NO_CONDITIONAL)),
    ("J", Some(NO_JUMPS)),
    ("RX,J", Some(NEITHER)),
    ("J,RX", Some(NEITHER)),
    ("", None),
    ("J,J", None),
    ("rx", None),
    ("RX, J", None),
    ("RX,", None),
];

#[test]
fn lists_of_reductions(rt: HostRuntime) {
    for (text, without) in LISTS {
        holds(&rt, text, read_list(text) == without);
    }
}

#[test]
fn names_of_reductions(rt: HostRuntime) {
    holds(&rt, "RX", Reduction::Conditional.name() == "RX");
    holds(&rt, "J", Reduction::Jumps.name() == "J");
    let without = Without::none().and(Reduction::Jumps);
    holds(&rt, "has J", without.has(Reduction::Jumps));
    holds(&rt, "has RX", !without.has(Reduction::Conditional));
}
