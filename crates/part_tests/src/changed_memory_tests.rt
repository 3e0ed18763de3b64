//! Memory told as its changes, by hand from the manual's chapters "RV32I" and "A".

ghost use Rattle.std.specs.Prelude.{IfSome};
ghost use Rattle.shared_memory.specs.Contents.{IsStart};

use crate::rows::{holds, holds_at};
use changed_memory::{SharedState, keeps_shared};
use events::Effect;
use numbers::sizes::MOST_HARTS;
use rv_decode::decode_op;
use rv_execute::execute;
use shared_memory::{AccessKind, Memory, fault};
use std::alloc::{AllocError, Global};
use std::process::Abort;
use std::test::Fail;
use test_support::{EXIT_WITH_5, image_of};

// Each has its address in x6, and what it writes in x7.
const LBU: u32 = 0x0003_4283;

const LH: u32 = 0x0003_1283;

const LW: u32 = 0x0003_2283;

const SB: u32 = 0x0073_0023;

const SH: u32 = 0x0073_1023;

const SW: u32 = 0x0073_2023;

const LR: u32 = 0x1003_22af;

const SC: u32 = 0x1873_22af;

const AMOADD: u32 = 0x0073_22af;

const ADDI: u32 = 0x0013_0293;

const ECALL: u32 = 0x0000_0073;

const WORD: u32 = 0x8000_1000;

/// The word of an instruction, with the numbers of its first and its second source.
type Operands = (u32, u32, u32);

/// An instruction of a hart, and the number that it gives.
type Row = (u8, Operands, Option<u32>);

/// The memory of the program of three words at 80000000, with 8192 bytes of RAM.
fn start_of(alloc: Global) -> Option<Memory>
    ensures { IfSome result (λ memory. IsStart memory.image memory) }
{
    let image = image_of(&EXIT_WITH_5, 8192, alloc)?;
    Memory::new(&image, alloc).ok()
}

/// Makes an instruction of a hart, and answers its effect; none where it faults or memory is
/// wanting.
fn step(start: &Memory, shared: &mut SharedState, hart: u8, instruction: Operands) -> Option<Effect>
    requires { IsStart start.now.image start.now }
{
    let (word, a, b) = instruction;
    let op = decode_op(Some(word));
    let computed = execute(op, 0x8000_0000, a, b);
    let addr = computed.addr;
    if fault(start, op, addr).is_some() {
        return None;
    }
    if hart >= MOST_HARTS {
        return None;
    }
    let effect = shared.effect(start, hart, op, computed);
    shared.advance(start, hart, op, addr, effect).ok()?;
    Some(effect)
}

/// Makes the instructions of a table, and names the address of one that gives another number.
fn make(rt: &impl Abort, start: &Memory, shared: &mut SharedState, rows: &[Row])
    requires { IsStart start.now.image start.now }
{
    for (hart, instruction, number) in rows {
        match step(start, shared, *hart, *instruction) {
            Some(effect) => holds_at(rt, instruction.1, effect.value == *number),
            None => holds_at(rt, instruction.1, false),
        }
    }
}

/// A word and a byte are stored, the lowest byte first; the rest is as the image has it.
static STORES: [Row; 11] = [
    (0, (SW, WORD, 0x1122_3344), None),
    (1, (SB, WORD + 5, 0x1_0080), None),
    (2, (LBU, WORD, 0), Some(0x44)),
    (2, (LBU, WORD + 1, 0), Some(0x33)),
    (2, (LBU, WORD + 2, 0), Some(0x22)),
    (2, (LBU, WORD + 3, 0), Some(0x11)),
    (2, (LW, WORD, 0), Some(0x1122_3344)),
    (2, (LW, WORD + 4, 0), Some(0x0000_8000)),
    (2, (LH, WORD + 4, 0), Some(0xffff_8000)),
    (2, (LH, WORD + 2, 0), Some(0x0000_1122)),
    (2, (LW, 0x8000_0000, 0), Some(0x0050_0513)),
];

/// SC fails without a reservation and after a store to its word, and succeeds once after one to
/// another word; of the last hart as of the first.
static CONDITIONAL: [Row; 14] = [
    (0, (SC, WORD, 5), Some(1)),
    (0, (LR, WORD, 0), Some(0)),
    (1, (SH, WORD + 2, 7), None),
    (0, (SC, WORD, 5), Some(1)),
    (0, (LR, WORD, 0), Some(0x0007_0000)),
    (1, (SW, WORD + 4, 7), None),
    (1, (SC, WORD, 9), Some(1)),
    (0, (SC, WORD, 5), Some(0)),
    (0, (SC, WORD, 6), Some(1)),
    (0, (LW, WORD, 0), Some(5)),
    (15, (LR, WORD, 0), Some(5)),
    (15, (SC, WORD, 8), Some(0)),
    (15, (SC, WORD, 9), Some(1)),
    (0, (LW, WORD, 0), Some(8)),
];

/// An AMO gives the word that it changes.
static ADDED: [Row; 3] = [
    (0, (AMOADD, WORD, 0xffff_ffff), Some(0)),
    (1, (AMOADD, WORD, 3), Some(0xffff_ffff)),
    (0, (LW, WORD, 0), Some(2)),
];

#[test]
fn each_instruction_gives_its_number(rt: HostRuntime) -> Result<(), Fail> {
    let start = start_of(rt.alloc()).ok_or("refused")?;
    for rows in [STORES.as_slice(), CONDITIONAL.as_slice(), ADDED.as_slice()] {
        let mut shared = SharedState::start(rt.alloc());
        make(&rt, &start, &mut shared, rows);
    }
    Ok(())
}

static BOTH_RESERVED: [Row; 2] = [(0, (LR, WORD, 0), Some(0)), (1, (LR, WORD, 0), Some(0))];

/// The SC of the hart whose reservation was ended fails, and the other's succeeds.
static ONE_SUCCEEDS: [Row; 2] = [(1, (SC, WORD, 5), Some(1)), (0, (SC, WORD, 6), Some(0))];

#[test]
fn a_reservation_is_ended_for_one_hart(rt: HostRuntime) -> Result<(), Fail> {
    let start = start_of(rt.alloc()).ok_or("refused")?;
    let mut shared = SharedState::start(rt.alloc());
    assert!(rt; !shared.has_reservation(0));
    make(&rt, &start, &mut shared, &BOTH_RESERVED);
    shared.end_reservation(1);
    assert!(rt; shared.has_reservation(0) && !shared.has_reservation(1));
    make(&rt, &start, &mut shared, &ONE_SUCCEEDS);
    assert!(rt; !shared.has_reservation(0));
    Ok(())
}

/// The word at an address, where it can be read.
fn word(start: &Memory, shared: &SharedState, addr: u32) -> Option<u32>
    requires { IsStart start.now.image start.now }
{
    match start.fault(addr, 4, AccessKind::Load) {
        Some(_) => None,
        None => Some(shared.word(start, addr)),
    }
}

/// Two bytes are put out, before and after a hart ends.
static PUT_OUT: [Row; 4] = [
    (0, (ECALL, 1, 0x168), None),
    (0, (SW, WORD, 0x1122_3344), None),
    (0, (ECALL, 93, 7), None),
    (1, (ECALL, 1, 0x69), None),
];

#[test]
fn a_word_and_the_output_are_read(rt: HostRuntime) -> Result<(), Fail> {
    let start = start_of(rt.alloc()).ok_or("refused")?;
    let mut shared = SharedState::start(rt.alloc());
    make(&rt, &start, &mut shared, &PUT_OUT);
    let words = [
        word(&start, &shared, WORD),
        word(&start, &shared, 0x8000_2000),
    ];
    assert!(rt; words == [Some(0x1122_3344), None]);
    assert!(rt; shared.output() == b"hi".as_slice());
    Ok(())
}

/// Two ways to the same memory, and one back to the image's own bytes.
static ONE_WAY: [Row; 2] = [
    (0, (SW, WORD, 0x0100_0002), None),
    (0, (SB, WORD + 8, 3), None),
];

static OTHER_WAY: [Row; 4] = [
    (1, (SB, WORD + 8, 3), None),
    (1, (SB, WORD + 3, 1), None),
    (1, (SB, WORD, 9), None),
    (1, (SB, WORD, 2), None),
];

static BACK: [Row; 4] = [
    (0, (SB, WORD + 8, 3), None),
    (0, (SW, WORD, 0x0100_0002), None),
    (0, (SB, WORD + 8, 0), None),
    (1, (SW, WORD, 0), None),
];

static RESERVED: [Row; 1] = [(1, (LR, WORD, 0), Some(0))];

static NOTHING: [Row; 1] = [(0, (LW, WORD, 0), Some(0))];

/// Two tables, and whether they lead to the same state.
type Meeting = (&'static str, &'static [Row], &'static [Row], bool);

fn meetings() -> [Meeting; 5] {
    [
        ("two ways", &ONE_WAY, &OTHER_WAY, true),
        ("back to the start", &BACK, &NOTHING, true),
        ("memory", &ONE_WAY, &NOTHING, false),
        ("reservations", &RESERVED, &NOTHING, false),
        ("output", &PUT_OUT, &ONE_WAY, false),
    ]
}

/// The state that a table leads to.
fn state_after(rt: &impl Abort, start: &Memory, rows: &[Row], alloc: Global) -> SharedState
    requires { IsStart start.now.image start.now }
{
    let mut shared = SharedState::start(alloc);
    make(rt, start, &mut shared, rows);
    shared
}

/// Whether one state and a copy of it are the same as another, which then becomes that copy.
fn are_same(one: &SharedState, other: &mut SharedState, alloc: Global) -> Result<bool, AllocError> {
    let is_same = *one == *other;
    let copy = one.try_clone(alloc)?;
    let is_copied = copy == *other;
    other.copy_from(&copy)?;
    Ok(is_same && is_copied)
}

#[test]
fn states_of_the_same_memory_are_equal(rt: HostRuntime) -> Result<(), Fail> {
    let start = start_of(rt.alloc()).ok_or("refused")?;
    for (name, one, other, wanted) in &meetings() {
        let first = state_after(&rt, &start, one, rt.alloc());
        let mut second = state_after(&rt, &start, other, rt.alloc());
        let is_same = are_same(&first, &mut second, rt.alloc())?;
        holds(&rt, name, is_same == *wanted);
        holds(&rt, name, first == second);
    }
    Ok(())
}

/// Instructions with their two numbers, and whether they change nothing that harts share.
static KEEPING: [(&str, Operands, bool); 10] = [
    ("lw", (LW, WORD, 0), true),
    ("addi", (ADDI, 5, 0), true),
    ("exit", (ECALL, 93, 0), true),
    ("no call", (ECALL, 2, 0), true),
    ("no word", (0, 0, 0), true),
    ("put out", (ECALL, 1, 0x68), false),
    ("sw", (SW, WORD, 0), false),
    ("lr", (LR, WORD, 0), false),
    ("sc", (SC, WORD, 0), false),
    ("amo", (AMOADD, WORD, 0), false),
];

/// Whether an instruction changes nothing that harts share; none where it faults.
fn keeps(start: &Memory, instruction: Operands, alloc: Global) -> Option<bool>
    requires { IsStart start.now.image start.now }
{
    let mut shared = SharedState::start(alloc);
    let effect = step(start, &mut shared, 0, instruction)?;
    Some(keeps_shared(decode_op(Some(instruction.0)), effect))
}

#[test]
fn loads_and_ends_keep_what_harts_share(rt: HostRuntime) -> Result<(), Fail> {
    let start = start_of(rt.alloc()).ok_or("refused")?;
    for (name, instruction, wanted) in &KEEPING {
        let found = keeps(&start, *instruction, rt.alloc());
        holds(&rt, name, found == Some(*wanted));
    }
    Ok(())
}
