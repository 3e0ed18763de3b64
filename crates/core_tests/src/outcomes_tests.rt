//! All outcomes of small programs, enumerated by hand.

use crate::rows::holds;
use crate::searched::found_of;
use arrayvec::ArrayVec;
use outcomes::{Extent, Outcomes, find_outcomes};
use reductions::Without;
use smt_model::Status;
use std::alloc::Global;
use std::process::Abort;
use test_support::{file_of, image_of};
use watched_outcomes::{Watch, WatchedBytes, WatchedRegister, Width};

/// `lui x5,0x80001`, `lw x7,0(x5)`, `addi x7,x7,1`, `sw x7,0(x5)`, `addi x10,x7,0`, `addi x17,x0,93`, `ecall`:
/// a hart adds one to a word, and ends with what it has written.
static COUNTER: [u32; 7] = [
    0x8000_12b7,
    0x0002_a383,
    0x0013_8393,
    0x0072_a023,
    0x0003_8513,
    0x05d0_0893,
    0x0000_0073,
];

/// `jal x0,0`: a hart that goes round for ever.
static ROUND: [u32; 1] = [0x0000_006f];

/// How two harts end that count: both have loaded before one stores, or one comes behind the other. Behind
/// each, the word that they count on.
const COUNTED: [(u32, u32, u32); 3] = [(1, 1, 1), (1, 2, 2), (2, 1, 2)];

/// A word that is watched.
fn watching(word: u32) -> Watch {
    let mut words = ArrayVec::new();
    words.push(WatchedBytes {
        address: word,
        width: Width::Word,
    });
    Watch {
        registers: ArrayVec::new(),
        words,
    }
}

fn counted(budget: u32, alloc: Global) -> Option<Outcomes> {
    found_of(&COUNTER, 2, &watching(0x8000_1000), budget, alloc)
}

/// Whether an outcome is that of a row.
fn is_row(found: &Outcomes, index: usize, row: (u32, u32, u32)) -> bool {
    match found.outcome(index) {
        None => false,
        Some(outcome) => {
            outcome.statuses.as_slice() == [Status::Ended(row.0), Status::Ended(row.1)].as_slice()
                && outcome.words.as_slice() == [row.2].as_slice()
                && outcome.output.is_empty()
        }
    }
}

/// Whether each outcome is that of some row.
fn are_rows(found: &Outcomes) -> bool {
    for index in 0..found.count() {
        let is_first = is_row(found, index, COUNTED[0]);
        let is_second = is_row(found, index, COUNTED[1]);
        let is_third = is_row(found, index, COUNTED[2]);
        if !(is_first || is_second || is_third) {
            return false;
        }
    }
    true
}

/// Whether all states were looked at, and from each of them some order leads on to an end.
fn always_can_end(found: &Outcomes, alloc: Global) -> bool {
    found.extent() == Extent::Whole && matches!(found.stuck(alloc), Ok(None))
}

/// Whether all states were looked at, and from some no order leads on to an end.
fn can_be_stuck(found: &Outcomes, alloc: Global) -> bool {
    found.extent() == Extent::Whole && matches!(found.stuck(alloc), Ok(Some(_)))
}

/// Whether all states were looked at, and each of them has 0 at the place that was watched with this index.
fn is_unwritten(found: &Outcomes, index: usize) -> bool {
    found.extent() == Extent::Whole && found.is_unwritten(index)
}

/// Whether all states were looked at, and one has another number there.
fn is_written_once(found: &Outcomes, index: usize) -> bool {
    found.extent() == Extent::Whole && !found.is_unwritten(index)
}

/// Asserts what was found of `two_harts_that_count`.
fn check_two_harts_that_count(rt: &impl Abort, found: &Outcomes, alloc: Global) {
    holds(rt, "whole", found.extent() == Extent::Whole);
    holds(rt, "count", found.count() == 3);
    holds(rt, "both", is_row(found, 0, COUNTED[0]));
    holds(rt, "first", is_row(found, 1, COUNTED[1]));
    holds(rt, "second", is_row(found, 2, COUNTED[2]));
    holds(rt, "states", found.states() > 0);
    holds(rt, "stuck", always_can_end(found, alloc));
    holds(rt, "written", is_written_once(found, 0));
}

#[test]
fn two_harts_that_count(rt: HostRuntime) {
    match counted(1000, rt.alloc()) {
        Some(found) => check_two_harts_that_count(&rt, &found, rt.alloc()),
        None => holds(&rt, "found", false),
    }
}

/// Asserts what was found of `a_word_that_nobody_writes`.
fn check_a_word_that_nobody_writes(rt: &impl Abort, found: &Outcomes) {
    holds(rt, "unwritten", is_unwritten(found, 0));
    holds(rt, "no other", is_written_once(found, 1));
}

/// The word behind the one that they count on.
#[test]
fn a_word_that_nobody_writes(rt: HostRuntime) {
    match found_of(&COUNTER, 2, &watching(0x8000_1004), 1000, rt.alloc()) {
        Some(found) => check_a_word_that_nobody_writes(&rt, &found),
        None => holds(&rt, "found", false),
    }
}

/// The order of the first outcome, where it is there.
fn witness_of(found: &Outcomes, alloc: Global) -> Option<usize> {
    if found.count() == 0 {
        return None;
    }
    let order = found.witness(0, alloc).ok()?;
    Some(order.len())
}

#[test]
fn an_order_for_both_ones(rt: HostRuntime) {
    match counted(1000, rt.alloc()) {
        Some(found) => holds(&rt, "steps", witness_of(&found, rt.alloc()) == Some(14)),
        None => holds(&rt, "found", false),
    }
}

/// Asserts what was found of `more_states_than_the_budget`.
fn check_more_states_than_the_budget(rt: &impl Abort, found: &Outcomes) {
    holds(rt, "beyond", found.extent() == Extent::Beyond);
    holds(rt, "some", found.count() > 0);
    holds(rt, "rows", are_rows(found));
}

#[test]
fn more_states_than_the_budget(rt: HostRuntime) {
    match counted(2, rt.alloc()) {
        Some(found) => check_more_states_than_the_budget(&rt, &found),
        None => holds(&rt, "found", false),
    }
}

/// Asserts what was found of `a_hart_that_goes_round`.
fn check_a_hart_that_goes_round(rt: &impl Abort, found: &Outcomes, alloc: Global) {
    holds(rt, "none", found.count() == 0);
    holds(rt, "stuck", can_be_stuck(found, alloc));
}

#[test]
fn a_hart_that_goes_round(rt: HostRuntime) {
    match found_of(&ROUND, 1, &watching(0x8000_1000), 10, rt.alloc()) {
        Some(found) => check_a_hart_that_goes_round(&rt, &found, rt.alloc()),
        None => holds(&rt, "found", false),
    }
}

/// `lui x5,0x80001`, `amoswap.w x10,x11,(x5)`, `ebreak`: a hart puts how many harts there are, 2, into a word
/// that is 0 at first, and has what was there in x10, where its own number was.
static SWAP: [u32; 3] = [0x8000_12b7, 0x08b2_a52f, 0x0010_0073];

/// By hand: the six instructions have 20 orders. In each of them one hart's AMO is the first, and gets 0; the
/// other one gets 2. The word is 2 at the end, and EBREAK stops a hart with cause 3. So there are two outcomes.
const SWAPPED: [[u32; 2]; 2] = [[0, 2], [2, 0]];

/// x10 of both harts, and the word.
fn watching_swap() -> Watch {
    let mut registers = ArrayVec::new();
    registers.push(WatchedRegister {
        hart: 0,
        register: 10,
    });
    registers.push(WatchedRegister {
        hart: 1,
        register: 10,
    });
    let mut words = ArrayVec::new();
    words.push(WatchedBytes {
        address: 0x8000_1000,
        width: Width::Word,
    });
    Watch { registers, words }
}

/// Whether an outcome has these numbers in x10 of the two harts, both stopped by EBREAK.
fn has_swapped(found: &Outcomes, index: usize, row: [u32; 2]) -> bool {
    match found.outcome(index) {
        None => false,
        Some(outcome) => {
            outcome.statuses.as_slice() == [Status::Stopped(3), Status::Stopped(3)].as_slice()
                && outcome.registers.as_slice() == row.as_slice()
                && outcome.words.as_slice() == [2].as_slice()
        }
    }
}

/// Asserts what was found of `three_instructions_of_each_of_two_harts`.
fn check_three_instructions_of_each_of_two_harts(rt: &impl Abort, found: &Outcomes, alloc: Global) {
    holds(rt, "two", found.count() == 2);
    holds(rt, "first", has_swapped(found, 0, SWAPPED[0]));
    holds(rt, "second", has_swapped(found, 1, SWAPPED[1]));
    holds(rt, "stuck", always_can_end(found, alloc));
}

#[test]
fn three_instructions_of_each_of_two_harts(rt: HostRuntime) {
    match found_of(&SWAP, 2, &watching_swap(), 100, rt.alloc()) {
        Some(found) => check_three_instructions_of_each_of_two_harts(&rt, &found, rt.alloc()),
        None => holds(&rt, "found", false),
    }
}

/// `lui x5,0x80001`, `slli x6,x10,2`, `add x5,x5,x6`, `sw x10,0(x5)`, `ebreak`: each hart puts its number into a
/// word of its own.
static OWN_WORDS: [u32; 5] = [
    0x8000_12b7,
    0x0025_1313,
    0x0062_82b3,
    0x00a2_a023,
    0x0010_0073,
];

/// x10 of hart 9, and the word of hart 9.
fn watching_the_last() -> Watch {
    let mut registers = ArrayVec::new();
    registers.push(WatchedRegister {
        hart: 9,
        register: 10,
    });
    let mut words = ArrayVec::new();
    words.push(WatchedBytes {
        address: 0x8000_1024,
        width: Width::Word,
    });
    Watch { registers, words }
}

/// Whether in an outcome all of ten harts were stopped by EBREAK, and what is watched of hart 9 is 9.
fn is_of_ten(found: &Outcomes) -> bool {
    match found.outcome(0) {
        None => false,
        Some(outcome) => {
            outcome.statuses.as_slice() == [Status::Stopped(3); 10].as_slice()
                && outcome.registers.as_slice() == [9].as_slice()
                && outcome.words.as_slice() == [9].as_slice()
        }
    }
}

/// Asserts what was found of `ten_harts_that_store`.
fn check_ten_harts_that_store(rt: &impl Abort, found: &Outcomes, alloc: Global) {
    holds(rt, "one", found.count() == 1);
    holds(rt, "ten", is_of_ten(found));
    holds(rt, "states", found.states() == 1024);
    holds(rt, "steps", witness_of(found, alloc) == Some(50));
}

// In a state each hart has yet to store or is over: that are 2^10.
#[test]
fn ten_harts_that_store(rt: HostRuntime) {
    match found_of(&OWN_WORDS, 10, &watching_the_last(), 1024, rt.alloc()) {
        Some(found) => check_ten_harts_that_store(&rt, &found, rt.alloc()),
        None => holds(&rt, "found", false),
    }
}

/// Hart 0 copies the last word over the sixth one, which hart 1 comes to: `auipc x6,0`, `bne x10,x0,16`,
/// `lw x5,28(x6)`, `sw x5,20(x6)`, `ebreak`, for hart 1 `addi x10,x0,5`, `ebreak`, and the word `addi x10,x0,9`.
static WRITTEN: [u32; 8] = [
    0x0000_0317,
    0x0005_1863,
    0x01c3_2283,
    0x0053_2a23,
    0x0010_0073,
    0x0050_0513,
    0x0010_0073,
    0x0090_0513,
];

/// x10 of hart 1, and the sixth word.
fn watching_written() -> Watch {
    let mut registers = ArrayVec::new();
    registers.push(WatchedRegister {
        hart: 1,
        register: 10,
    });
    let mut words = ArrayVec::new();
    words.push(WatchedBytes {
        address: 0x8000_0014,
        width: Width::Word,
    });
    Watch { registers, words }
}

/// The outcomes of that program, whose segment has these flags.
fn written(flags: u8, alloc: Global) -> Option<Outcomes> {
    let mut file = file_of(&WRITTEN, 0, alloc).ok()?;
    if let Some(byte) = file.get_mut(76) {
        *byte = flags;
    }
    let image = image_of(file.as_slice(), 65536, alloc)?;
    find_outcomes(
        &image,
        2,
        &watching_written(),
        100,
        Without::none(),
        &(),
        &(),
        alloc,
    )
    .ok()
}

/// Whether in an outcome the store was made, both harts were stopped by EBREAK, and x10 of hart 1 is this.
fn is_written(found: &Outcomes, index: usize, number: u32) -> bool {
    match found.outcome(index) {
        None => false,
        Some(outcome) => {
            outcome.statuses.as_slice() == [Status::Stopped(3), Status::Stopped(3)].as_slice()
                && outcome.registers.as_slice() == [number].as_slice()
                && outcome.words.as_slice() == [0x0090_0513].as_slice()
        }
    }
}

/// Asserts what was found of `a_hart_writes_an_instruction_of_another`.
fn check_a_hart_writes_an_instruction_of_another(rt: &impl Abort, found: &Outcomes, alloc: Global) {
    holds(rt, "two", found.count() == 2);
    holds(rt, "before", is_written(found, 0, 5));
    holds(rt, "behind", is_written(found, 1, 9));
    holds(rt, "stuck", always_can_end(found, alloc));
}

// By hand: hart 1 executes the sixth word before hart 0 has written it, or behind that.
#[test]
fn a_hart_writes_an_instruction_of_another(rt: HostRuntime) {
    match written(7, rt.alloc()) {
        Some(found) => check_a_hart_writes_an_instruction_of_another(&rt, &found, rt.alloc()),
        None => holds(&rt, "found", false),
    }
}

/// Asserts what was found of `code_that_may_not_be_written_has_one_outcome`.
fn check_code_that_may_not_be_written_has_one_outcome(rt: &impl Abort, found: &Outcomes) {
    holds(rt, "one", found.count() == 1);
    holds(rt, "stays", has_stayed(found));
}

// The store stops hart 0 with cause 7, so the sixth word stays.
#[test]
fn code_that_may_not_be_written_has_one_outcome(rt: HostRuntime) {
    match written(5, rt.alloc()) {
        Some(found) => check_code_that_may_not_be_written_has_one_outcome(&rt, &found),
        None => holds(&rt, "found", false),
    }
}

/// Whether in the first outcome the store has stopped hart 0, and the sixth word is as it was.
fn has_stayed(found: &Outcomes) -> bool {
    match found.outcome(0) {
        None => false,
        Some(outcome) => {
            outcome.statuses.as_slice() == [Status::Stopped(7), Status::Stopped(3)].as_slice()
                && outcome.registers.as_slice() == [5].as_slice()
                && outcome.words.as_slice() == [0x0050_0513].as_slice()
        }
    }
}
