//! All outcomes of small programs that jump by registers, worked by hand.

use crate::rows::holds;
use crate::searched::{found_of, watching_nothing};
use arrayvec::ArrayVec;
use outcomes::{Extent, Outcomes, find_outcomes};
use reductions::Without;
use smt_model::Status;
use std::alloc::Global;
use std::process::Abort;
use test_support::{image_of, writable_file_of};
use watched_outcomes::{Watch, WatchedBytes, WatchedRegister, Width};

/// The word that the harts share in these programs.
const SHARED: u32 = 0x8000_1000;

/// Each hart calls a function twice, which adds one to the shared word: `lui x5,0x80001`, `addi x6,x10,5`, `jal x1,f`,
/// `addi x8,x6,0`, `addi x7,x12,0`, `jal x1,f`, `add x10,x8,x12`, `addi x17,x0,93`, `ecall`, and `f: addi x13,x0,1`,
/// `amoadd.w x12,x13,(x5)`, `jalr x0,0(x1)`. Behind the first call x6 is read, behind the second one x8, and x7, what
/// the first one found there, never.
pub static CALLS: [u32; 12] = [
    0x8000_12b7,
    0x0055_0313,
    0x01c0_00ef,
    0x0003_0413,
    0x0006_0393,
    0x0100_00ef,
    0x00c4_0533,
    0x05d0_0893,
    0x0000_0073,
    0x0010_0693,
    0x00d2_a62f,
    0x0000_8067,
];

/// How two harts end that call so: with 5, the hart's number and what its second call has found. One of them finds 3,
/// and the other one 1 or 2.
pub const CALLED: [(u32, u32); 4] = [(6, 9), (7, 9), (8, 7), (8, 8)];

/// In a state each hart has both calls before it, or one, or is over, which are four states without a hart that is
/// over; three in which one hart is, which found 1 or, where the other one has called too, 1 or 2, and three with the
/// other one; and four ends. Were x7 kept, there would be three more.
const STATES_OF_CALLS: u32 = 14;

/// Each hart goes on where a word says, of two behind the code: `auipc x5,0`, `slli x6,x10,2`, `add x5,x5,x6`,
/// `lw x7,36(x5)`, `jalr x0,0(x7)`, `addi x10,x0,7`, `ebreak`, `addi x10,x0,9`, `ebreak`, and the addresses of the two
/// `addi`.
static TABLE: [u32; 11] = [
    0x0000_0297,
    0x0025_1313,
    0x0062_82b3,
    0x0242_a383,
    0x0003_8067,
    0x0070_0513,
    0x0010_0073,
    0x0090_0513,
    0x0010_0073,
    0x8000_0014,
    0x8000_001c,
];

/// `lui x5,0x80001`, `jalr x0,0(x5)`: to data.
static TO_DATA: [u32; 2] = [0x8000_12b7, 0x0002_8067];

/// `jalr x0,0(x20)`: to where a register says that nothing has written, so to 0.
static TO_NOWHERE: [u32; 1] = [0x000a_0067];

/// `jalr x0,2(x20)`: to no multiple of 4.
static TO_ODD_PLACE: [u32; 1] = [0x002a_0067];

/// Programs of one hart that stops, and the cause.
const STOPPED: [(&str, &'static [u32], u8); 3] = [
    ("data", &TO_DATA, 1),
    ("nowhere", &TO_NOWHERE, 1),
    ("odd place", &TO_ODD_PLACE, 0),
];

/// Hart 0 puts 1 and then 0 into the shared word: `lui x5,0x80001`, `bne x10,x0,44`, `addi x6,x0,1`, `addi x0,x0,0` six
/// times, `sw x6,0(x5)`, `sw x0,0(x5)`, `ebreak`. Hart 1 loads it, and stops where it is 0: `lw x7,0(x5)`,
/// `beq x7,x0,196`. Else it jumps by two JALR in turn to each of 39 words that do nothing: `auipc x8,0`,
/// `addi x8,x8,20`, `addi x9,x8,156`, `a: jalr x0,0(x8)`, `b: jalr x0,0(x8)`, the words `addi x0,x0,0`,
/// `xori x12,x12,1`, `bne x12,x0,b`, `addi x8,x8,4`, `bltu x8,x9,a`, `ebreak`. In the orders that are tried first no
/// load comes between the stores; so there is a pass for each jump, and behind them one in which harts may jump
/// anywhere.
static ANEW: [u32; 63] = [
    0x8000_12b7,
    0x0205_1663,
    0x0010_0313,
    0x0000_0013,
    0x0000_0013,
    0x0000_0013,
    0x0000_0013,
    0x0000_0013,
    0x0000_0013,
    0x0062_a023,
    0x0002_a023,
    0x0010_0073,
    0x0002_a383,
    0x0c03_8263,
    0x0000_0417,
    0x0144_0413,
    0x09c4_0493,
    0x0004_0067,
    0x0004_0067,
    0x0000_0013,
    0x0000_0013,
    0x0000_0013,
    0x0000_0013,
    0x0000_0013,
    0x0000_0013,
    0x0000_0013,
    0x0000_0013,
    0x0000_0013,
    0x0000_0013,
    0x0000_0013,
    0x0000_0013,
    0x0000_0013,
    0x0000_0013,
    0x0000_0013,
    0x0000_0013,
    0x0000_0013,
    0x0000_0013,
    0x0000_0013,
    0x0000_0013,
    0x0000_0013,
    0x0000_0013,
    0x0000_0013,
    0x0000_0013,
    0x0000_0013,
    0x0000_0013,
    0x0000_0013,
    0x0000_0013,
    0x0000_0013,
    0x0000_0013,
    0x0000_0013,
    0x0000_0013,
    0x0000_0013,
    0x0000_0013,
    0x0000_0013,
    0x0000_0013,
    0x0000_0013,
    0x0000_0013,
    0x0000_0013,
    0x0016_4613,
    0xf406_1ee3,
    0x0044_0413,
    0xf494_68e3,
    0x0010_0073,
];

/// Hart 0 copies the last word over the sixth one, which hart 1 comes to: `auipc x6,0`, `bne x10,x0,16`,
/// `lw x5,28(x6)`, `sw x5,20(x6)`, `ebreak`, for hart 1 `addi x10,x0,5`, `ebreak`, and the word `jalr x0,0(x20)`.
static WRITES_A_JUMP: [u32; 8] = [
    0x0000_0317,
    0x0005_1863,
    0x01c3_2283,
    0x0053_2a23,
    0x0010_0073,
    0x0050_0513,
    0x0010_0073,
    0x000a_0067,
];

/// Each hart calls a function that stores by an SC without an LR, which fails: `lui x5,0x80001`, `jal x1,f`, `ebreak`,
/// and `f: sc.w x10,x11,(x5)`, `jalr x0,0(x1)`.
static STORES_CONDITIONALLY: [u32; 5] = [
    0x8000_12b7,
    0x0080_00ef,
    0x0010_0073,
    0x18b2_a52f,
    0x0000_8067,
];

/// A register of each of two harts and the shared word are watched.
fn watching(register: u8) -> Watch {
    let mut registers = ArrayVec::new();
    registers.push(WatchedRegister { hart: 0, register });
    registers.push(WatchedRegister { hart: 1, register });
    let mut words = ArrayVec::new();
    words.push(WatchedBytes {
        address: SHARED,
        width: Width::Word,
    });
    Watch { registers, words }
}

/// The outcomes of a program of two harts, of which this register is watched.
fn of_two_harts(words: &[u32], register: u8, alloc: Global) -> Option<Outcomes> {
    found_of(words, 2, &watching(register), 10_000, alloc)
}

/// Whether all states were looked at, and from each of them some order leads on to an end.
fn always_can_end(found: &Outcomes, alloc: Global) -> bool {
    found.extent() == Extent::Whole && matches!(found.stuck(alloc), Ok(None))
}

/// Whether an outcome is that of two harts with these statuses, the watched registers, and the shared word.
fn is_of_two(
    found: &Outcomes,
    index: usize,
    statuses: [Status; 2],
    registers: [u32; 2],
    word: u32,
) -> bool {
    match found.outcome(index) {
        None => false,
        Some(outcome) => {
            outcome.statuses.as_slice() == statuses.as_slice()
                && outcome.registers.as_slice() == registers.as_slice()
                && outcome.words.as_slice() == [word].as_slice()
        }
    }
}

/// Whether an outcome has the statuses of a row of `CALLED`.
fn is_called(found: &Outcomes, index: usize, row: (u32, u32)) -> bool {
    match found.outcome(index) {
        None => false,
        Some(outcome) => {
            outcome.statuses.as_slice() == [Status::Ended(row.0), Status::Ended(row.1)].as_slice()
        }
    }
}

/// The outcomes of the two calls, for this budget.
fn called(budget: u32, alloc: Global) -> Option<Outcomes> {
    found_of(&CALLS, 2, &watching_nothing(), budget, alloc)
}

/// Whether each outcome is that of some row of `CALLED`.
fn are_called(found: &Outcomes) -> bool {
    for index in 0..found.count() {
        let is_first = is_called(found, index, CALLED[0]) || is_called(found, index, CALLED[1]);
        let is_last = is_called(found, index, CALLED[2]) || is_called(found, index, CALLED[3]);
        if !(is_first || is_last) {
            return false;
        }
    }
    true
}

/// Asserts what was found of `a_function_that_goes_back_to_two_callers`.
fn check_a_function_that_goes_back_to_two_callers(
    rt: &impl Abort,
    found: &Outcomes,
    alloc: Global,
) {
    holds(rt, "four", found.count() == 4);
    holds(rt, "first", is_called(found, 0, CALLED[0]));
    holds(rt, "second", is_called(found, 1, CALLED[1]));
    holds(rt, "third", is_called(found, 2, CALLED[2]));
    holds(rt, "fourth", is_called(found, 3, CALLED[3]));
    holds(rt, "states", found.states() == u64::from(STATES_OF_CALLS));
    holds(rt, "stuck", always_can_end(found, alloc));
}

#[test]
fn a_function_that_goes_back_to_two_callers(rt: HostRuntime) {
    match called(STATES_OF_CALLS, rt.alloc()) {
        Some(found) => check_a_function_that_goes_back_to_two_callers(&rt, &found, rt.alloc()),
        None => holds(&rt, "found", false),
    }
}

/// Asserts what was found of `one_state_more_than_the_budget`.
fn check_one_state_more_than_the_budget(rt: &impl Abort, found: &Outcomes) {
    holds(rt, "beyond", found.extent() == Extent::Beyond);
    holds(rt, "some", found.count() > 0);
    holds(rt, "rows", are_called(found));
}

#[test]
fn one_state_more_than_the_budget(rt: HostRuntime) {
    match called(STATES_OF_CALLS - 1, rt.alloc()) {
        Some(found) => check_one_state_more_than_the_budget(&rt, &found),
        None => holds(&rt, "found", false),
    }
}

/// Asserts what was found of `jumps_by_a_table_of_addresses`.
fn check_jumps_by_a_table_of_addresses(rt: &impl Abort, found: &Outcomes, alloc: Global) {
    let statuses = [Status::Stopped(3), Status::Stopped(3)];
    holds(rt, "one", found.count() == 1);
    holds(rt, "ends", is_of_two(found, 0, statuses, [7, 9], 0));
    holds(rt, "states", found.states() == 4);
    holds(rt, "stuck", always_can_end(found, alloc));
}

// In a state each hart has yet to load or is over.
#[test]
fn jumps_by_a_table_of_addresses(rt: HostRuntime) {
    match of_two_harts(&TABLE, 10, rt.alloc()) {
        Some(found) => check_jumps_by_a_table_of_addresses(&rt, &found, rt.alloc()),
        None => holds(&rt, "found", false),
    }
}

/// Whether a program of one hart has one outcome, in which the hart was stopped for this cause.
fn stops(words: &[u32], cause: u8, alloc: Global) -> bool {
    match found_of(words, 1, &watching_nothing(), 10, alloc) {
        Some(found) => found.count() == 1 && is_stopped(&found, cause),
        None => false,
    }
}

/// Whether the first outcome is that of one hart that was stopped for this cause.
fn is_stopped(found: &Outcomes, cause: u8) -> bool {
    match found.outcome(0) {
        None => false,
        Some(outcome) => outcome.statuses.as_slice() == [Status::Stopped(cause)].as_slice(),
    }
}

#[test]
fn jumps_to_where_no_code_is(rt: HostRuntime) {
    for (row, words, cause) in STOPPED {
        holds(&rt, row, stops(words, cause, rt.alloc()));
    }
}

/// Asserts what was found of `a_search_that_begins_anew_for_each_jump`.
fn check_a_search_that_begins_anew_for_each_jump(rt: &impl Abort, found: &Outcomes, alloc: Global) {
    let statuses = [Status::Stopped(3), Status::Stopped(3)];
    holds(rt, "two", found.count() == 2);
    holds(rt, "beside", is_of_two(found, 0, statuses, [0, 0], 0));
    holds(rt, "between", is_of_two(found, 1, statuses, [0, 1], 0));
    holds(rt, "stuck", always_can_end(found, alloc));
}

#[test]
fn a_search_that_begins_anew_for_each_jump(rt: HostRuntime) {
    match of_two_harts(&ANEW, 7, rt.alloc()) {
        Some(found) => check_a_search_that_begins_anew_for_each_jump(&rt, &found, rt.alloc()),
        None => holds(&rt, "found", false),
    }
}

/// Asserts what was found of `a_hart_writes_a_jump_of_another`.
fn check_a_hart_writes_a_jump_of_another(rt: &impl Abort, found: &Outcomes, alloc: Global) {
    let behind = [Status::Stopped(3), Status::Stopped(1)];
    let before = [Status::Stopped(3), Status::Stopped(3)];
    holds(rt, "two", found.count() == 2);
    holds(rt, "behind", is_of_two(found, 0, behind, [0, 1], 0));
    holds(rt, "before", is_of_two(found, 1, before, [0, 5], 0));
    holds(rt, "stuck", always_can_end(found, alloc));
}

// By hand: hart 1 executes the sixth word before hart 0 has written it, or behind that. Then it goes on at 0, where no
// word is.
#[test]
fn a_hart_writes_a_jump_of_another(rt: HostRuntime) {
    let Ok(file) = writable_file_of(&WRITES_A_JUMP, rt.alloc()) else {
        return holds(&rt, "file", false);
    };
    let Some(image) = image_of(file.as_slice(), 65536, rt.alloc()) else {
        return holds(&rt, "image", false);
    };
    match find_outcomes(
        &image,
        2,
        &watching(10),
        100,
        Without::none(),
        &(),
        &(),
        rt.alloc(),
    ) {
        Ok(found) => check_a_hart_writes_a_jump_of_another(&rt, &found, rt.alloc()),
        Err(_) => holds(&rt, "found", false),
    }
}

/// Asserts what was found of `a_function_that_stores_conditionally_alone`.
fn check_a_function_that_stores_conditionally_alone(rt: &impl Abort, found: &Outcomes) {
    let statuses = [Status::Stopped(3), Status::Stopped(3)];
    holds(rt, "one", found.count() == 1);
    holds(rt, "ends", is_of_two(found, 0, statuses, [1, 1], 0));
    holds(rt, "states", found.states() == 1);
}

// Nobody has reserved anything, so each SC fails without being seen, and both harts are over in the one state.
#[test]
fn a_function_that_stores_conditionally_alone(rt: HostRuntime) {
    match of_two_harts(&STORES_CONDITIONALLY, 10, rt.alloc()) {
        Some(found) => check_a_function_that_stores_conditionally_alone(&rt, &found),
        None => holds(&rt, "found", false),
    }
}
