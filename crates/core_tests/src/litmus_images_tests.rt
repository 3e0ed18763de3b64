//! The images of two litmus tests: store buffering, of which each end is known, and the code of one with branches.

ghost use Rattle.std.specs.Prelude.{◌<◌, ◌≤◌, ◌≡◌, [], length, All, Contains, IfOk};
ghost use Rattle.litmus_tests.specs.WellFormed.{IsStart, IsStep, IsThread, IsWellFormed};
ghost use Rattle.litmus_tests.specs.WellFormed.{IsValue, IsCondition};
ghost use Rattle.litmus_tests.specs.declared.value.Value.{Value};
ghost use Rattle.core_tests.specs.LitmusImages.{both_registers};

use crate::rows::holds;
use elf_image::Image;
use litmus_images::{harts_of, holds_in, image_of, value_in, watch_of};
use litmus_tests::{
    Condition, LitmusStep, LitmusTest, Observed, Quantifier, RegisterStart, Term, Thread, Value,
    Width,
};
use outcomes::{Outcomes, find_outcomes};
use reductions::Without;
use rv_instr::{BranchOp, Instr, LoadOp, RegisterOp, StoreOp};
use std::alloc::{AllocError, Global};
use std::process::Abort;

/// x5 has the address of a hart's own location, x6 that of the other one's.
fn buffering_starts(own: usize, alloc: Global) -> Result<Vec<RegisterStart>, AllocError>
    requires { own < 2 }
    ensures sound { IfOk result (λ starts. All (IsStart 2) starts.items) }
    ensures few { IfOk result (λ starts. length starts.items ≤ 31) }
{
    let mut starts = Vec::new(alloc);
    starts.push(RegisterStart {
        register: 5,
        value: Value::Address(4 * own),
    })?;
    starts.push(RegisterStart {
        register: 6,
        value: Value::Address(4 - 4 * own),
    })?;
    Ok(starts)
}

/// `li x7,1`, `sw x7,0(x5)`, `lw x8,0(x6)`.
fn buffering_steps(alloc: Global) -> Result<Vec<LitmusStep>, AllocError>
    ensures sound { IfOk result (λ steps. All (IsStep (length steps.items)) steps.items) }
    ensures few { IfOk result (λ steps. length steps.items ≤ 500) }
{
    let mut steps = Vec::new(alloc);
    steps.push(LitmusStep::Constant {
        register: 7,
        value: 1,
    })?;
    steps.push(LitmusStep::Straight(Instr::Store {
        op: StoreOp::Sw,
        rs2: 7,
        rs1: 5,
        offset: 0,
    }))?;
    steps.push(LitmusStep::Straight(Instr::Load {
        op: LoadOp::Lw,
        rd: 8,
        rs1: 6,
        offset: 0,
    }))?;
    Ok(steps)
}

/// A hart of store buffering: it stores 1 into its own location, and loads the other one's.
fn buffering_thread(own: usize, alloc: Global) -> Result<Thread, AllocError>
    requires { own < 2 }
    ensures { IfOk result (IsThread 2) }
{
    let starts = buffering_starts(own, alloc)?;
    let steps = buffering_steps(alloc)?;
    Ok(Thread { starts, steps })
}

fn buffering_threads(alloc: Global) -> Result<Vec<Thread>, AllocError>
    ensures sound { IfOk result (λ threads. All (IsThread 2) threads.items) }
    ensures two { IfOk result (λ threads. length threads.items ≡ 2) }
{
    let mut threads = Vec::new(alloc);
    threads.push(buffering_thread(0, alloc)?)?;
    threads.push(buffering_thread(1, alloc)?)?;
    Ok(threads)
}

/// The words of two locations, 0 at the start.
fn two_zeros(alloc: Global) -> Result<Vec<Value>, AllocError>
    ensures sound { IfOk result (λ all. All (IsValue 2) all.items) }
    ensures two { IfOk result (λ all. length all.items ≡ 2) }
{
    let mut words = Vec::new(alloc);
    words.push(Value::Number(0))?;
    words.push(Value::Number(0))?;
    Ok(words)
}

/// x8 of both harts.
fn two_registers(alloc: Global) -> Result<Vec<Observed>, AllocError>
    ensures { IfOk result (λ all. all.items ≡ both_registers) }
{
    let mut observed = Vec::new(alloc);
    observed.push(Observed::Register {
        hart: 0,
        register: 8,
    })?;
    observed.push(Observed::Register {
        hart: 1,
        register: 8,
    })?;
    Ok(observed)
}

/// That x8 of a hart is 0.
fn is_zero(hart: u8, alloc: Global) -> Result<Box<Condition>, AllocError>
    requires { Contains both_registers (Observed.Register hart 8) }
    ensures { IfOk result (λ found. IsCondition 2 [] both_registers found.value) }
{
    let term = Term {
        observed: Observed::Register { hart, register: 8 },
        value: Value::Number(0),
        width: Width::Word,
    };
    Ok(Box::new(alloc, Condition::Holds(term))?)
}

/// Store buffering: whether both harts can load 0.
#[tactic(auto, using(crate::proofs::ShortThreads::two_short))]
fn buffering(alloc: Global) -> Result<LitmusTest, AllocError>
    ensures { IfOk result IsWellFormed }
{
    let words = two_zeros(alloc)?;
    let threads = buffering_threads(alloc)?;
    let observed = two_registers(alloc)?;
    let first = is_zero(0, alloc)?;
    let second = is_zero(1, alloc)?;
    Ok(LitmusTest {
        name: Vec::new(alloc),
        words,
        locations: Vec::new(alloc),
        threads,
        filter: Condition::Always,
        quantifier: Quantifier::Exists,
        condition: Condition::Both(first, second),
        observed,
    })
}

/// `li x7,0x12345fff`, `bne x7,x0` to the last step, `add x8,x7,x7`, `beq x0,x0` to the first one.
fn branching_steps(alloc: Global) -> Result<Vec<LitmusStep>, AllocError>
    ensures sound { IfOk result (λ steps. All (IsStep (length steps.items)) steps.items) }
    ensures few { IfOk result (λ steps. length steps.items ≤ 500) }
{
    let mut steps = Vec::new(alloc);
    steps.push(LitmusStep::Constant {
        register: 7,
        value: 0x1234_5fff,
    })?;
    steps.push(LitmusStep::Branch {
        op: BranchOp::Bne,
        left: 7,
        right: 0,
        target: 3,
    })?;
    steps.push(LitmusStep::Straight(Instr::Register {
        op: RegisterOp::Add,
        rd: 8,
        rs1: 7,
        rs2: 7,
    }))?;
    steps.push(LitmusStep::Branch {
        op: BranchOp::Beq,
        left: 0,
        right: 0,
        target: 0,
    })?;
    Ok(steps)
}

fn branching_threads(alloc: Global) -> Result<Vec<Thread>, AllocError>
    ensures sound { IfOk result (λ threads. All (IsThread 0) threads.items) }
    ensures one { IfOk result (λ threads. length threads.items ≡ 1) }
{
    let steps = branching_steps(alloc)?;
    let mut threads = Vec::new(alloc);
    threads.push(Thread {
        starts: Vec::new(alloc),
        steps,
    })?;
    Ok(threads)
}

/// One hart with branches, and no location.
#[tactic(auto, using(crate::proofs::ShortThreads::one_short))]
fn branching(alloc: Global) -> Result<LitmusTest, AllocError>
    ensures { IfOk result IsWellFormed }
{
    let threads = branching_threads(alloc)?;
    Ok(LitmusTest {
        name: Vec::new(alloc),
        words: Vec::new(alloc),
        locations: Vec::new(alloc),
        threads,
        filter: Condition::Always,
        quantifier: Quantifier::ForAll,
        condition: Condition::Always,
        observed: Vec::new(alloc),
    })
}

/// What both harts have loaded, where one stores before the other loads: never 0 by both.
const LOADED: [(u32, u32); 3] = [(0, 1), (1, 0), (1, 1)];

/// Whether an outcome has what a row says, and the test's condition doesn't hold of it.
fn is_row(test: &LitmusTest, found: &Outcomes, index: usize) -> bool
    requires { IsWellFormed test.now }
{
    let Some(outcome) = found.outcome(index) else {
        return false;
    };
    if test.observed.len() != 2 || index >= LOADED.len() {
        return false;
    }
    let loaded = (value_in(test, outcome, 0), value_in(test, outcome, 1));
    loaded.0 == LOADED[index].0 && loaded.1 == LOADED[index].1 && !holds_in(test, outcome)
}

fn found_of(test: &LitmusTest, alloc: Global) -> Option<Outcomes>
    requires { IsWellFormed test.now }
{
    let image = image_of(test, alloc).ok()?;
    let watch = watch_of(test);
    find_outcomes(
        &image,
        harts_of(test),
        &watch,
        100_000,
        Without::none(),
        &(),
        &(),
        alloc,
    )
    .ok()
}

/// Asserts what was found of `store_buffering`.
fn check_store_buffering(rt: &impl Abort, test: &LitmusTest, found: &Outcomes)
    requires { IsWellFormed test.now }
{
    holds(rt, "count", found.count() == 3);
    holds(rt, "first", is_row(test, found, 0));
    holds(rt, "second", is_row(test, found, 1));
    holds(rt, "third", is_row(test, found, 2));
}

#[test]
fn store_buffering(rt: HostRuntime) {
    let Ok(test) = buffering(rt.alloc()) else {
        return holds(&rt, "made", false);
    };
    match found_of(&test, rt.alloc()) {
        Some(found) => check_store_buffering(&rt, &test, &found),
        None => holds(&rt, "found", false),
    }
}

/// What llvm-mc makes of `bne x10,x0,8`, `jal x0,12`, `addi x10,x10,-1`, `jal x0,44`; `addi x11,x0,0`,
/// `lui x5,0x80000`, `addi x5,x5,0`, `lui x6,0x80000`, `addi x6,x6,4`, `lui x7,0`, `addi x7,x7,1`,
/// `sw x7,0(x5)`, `lw x8,0(x6)`, `ebreak`: the words up to the end of the first hart.
static BUFFERING: [u32; 14] = [
    0x0005_1463,
    0x00c0_006f,
    0xfff5_0513,
    0x02c0_006f,
    0x0000_0593,
    0x8000_02b7,
    0x0002_8293,
    0x8000_0337,
    0x0043_0313,
    0x0000_03b7,
    0x0013_8393,
    0x0072_a023,
    0x0003_2403,
    0x0010_0073,
];

/// What it makes of `jal x0,4`; `addi x11,x0,0`, `lui x7,0x12346`, `addi x7,x7,-1`, `bne x7,x0,8`, `add x8,x7,x7`,
/// `beq x0,x0,-16`, `ebreak`.
static BRANCHING: [u32; 8] = [
    0x0040_006f,
    0x0000_0593,
    0x1234_63b7,
    0xfff3_8393,
    0x0003_9463,
    0x0073_8433,
    0xfe00_08e3,
    0x0010_0073,
];

/// Whether the code of an image begins with these words.
fn begins_with(image: &Image, words: &[u32]) -> bool {
    let mut pc = image.entry();
    for word in words {
        if image.code_word(pc) != Some(*word) {
            return false;
        }
        pc = pc.wrapping_add(4);
    }
    true
}

/// Whether a test's code begins with these words.
fn has_words(test: &LitmusTest, words: &[u32], alloc: Global) -> bool
    requires { IsWellFormed test.now }
{
    match image_of(test, alloc) {
        Ok(image) => begins_with(&image, words),
        Err(_) => false,
    }
}

#[test]
fn words_of_store_buffering(rt: HostRuntime) {
    match buffering(rt.alloc()) {
        Ok(test) => holds(&rt, "words", has_words(&test, &BUFFERING, rt.alloc())),
        Err(_) => holds(&rt, "made", false),
    }
}

#[test]
fn words_of_branches(rt: HostRuntime) {
    match branching(rt.alloc()) {
        Ok(test) => holds(&rt, "words", has_words(&test, &BRANCHING, rt.alloc())),
        Err(_) => holds(&rt, "made", false),
    }
}
