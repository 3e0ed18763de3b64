//! The code of a litmus test: each hart goes to its own block by its number, which it finds in x10.

ghost use Rattle.std.specs.Prelude.{◌≡◌, ◌≤◌, ◌<◌, ◌+◌, ◌*◌, ◌++◌, length, All, IfOk, OnOk, flat_map};
ghost use Rattle.numbers.specs.Sizes.{most_harts};
ghost use Rattle.litmus_tests.specs.WellFormed.{IsWellFormed, IsStart, IsThread};
ghost use Rattle.litmus_images.specs.Code.{start_words, thread_words, block_place, turn_words};
ghost use Rattle.litmus_images.specs.{Code.dispatch_words, Code.code_of, Words.jump_reach, Words.jump_words};
ghost use Rattle.litmus_tests.specs.Limits.{most_locations, most_steps, most_thread_words};

use crate::constants::{distance, number_of, push_constant};
use crate::steps::push_steps;
use litmus_tests::{LitmusTest, RegisterStart, Thread};
use rv_instr::{BranchOp, ImmediateOp, Instr};
use std::alloc::{AllocError, Global};

/// Appends the words that put numbers into registers.
fn push_starts(code: &mut Vec<Instr>, starts: &[RegisterStart]) -> Result<(), AllocError>
    requires { All (IsStart most_locations) starts.now }
    ensures { OnOk result (code.new.items ≡ code.old.items ++ flat_map start_words starts.now) }
{
    for start in starts {
        push_constant(code, start.register, number_of(start.value))?;
    }
    Ok(())
}

/// Appends the block of a hart.
#[tactic(auto, unfolding(crate::specs::Code::thread_words))]
fn push_thread(code: &mut Vec<Instr>, thread: &Thread) -> Result<(), AllocError>
    requires { IsThread most_locations thread.now }
    ensures { OnOk result (code.new.items ≡ code.old.items ++ thread_words thread.now) }
{
    code.push(Instr::Immediate {
        op: ImmediateOp::Addi,
        rd: 11,
        rs1: 0,
        imm: 0,
    })?;
    push_starts(code, &thread.starts)?;
    push_steps(code, &thread.steps)?;
    code.push(Instr::Ebreak)?;
    Ok(())
}

/// How many words the block of a hart has.
fn thread_length(thread: &Thread) -> usize
    requires few { length thread.now.starts.items ≤ 31 }
    requires short { length thread.now.steps.items ≤ most_steps }
    ensures value { result ≡ length (thread_words thread.now) }
    ensures small { result ≤ most_thread_words }
{
    thread.length()
}

/// How many words stand before the block of a hart.
#[tactic(auto, unfolding(crate::specs::Code::block_place))]
fn block_place(threads: &[Thread], hart: usize) -> usize
    requires threads { All (IsThread most_locations) threads.now }
    requires few { (1 ≤ length threads.now) × (length threads.now ≤ most_harts) }
    requires hart { hart < length threads.now }
    ensures value { result ≡ block_place threads.now hart }
    ensures small { result ≤ (3 + most_thread_words) * most_harts }
{
    let mut place = 3 * (threads.len() - 1) + 1;
    for other in 0..hart {
        place += thread_length(&threads[other]);
    }
    place
}

/// Appends the words by which a hart goes to its block, unless it is a later one.
fn push_turn(code: &mut Vec<Instr>, threads: &[Thread], hart: usize) -> Result<(), AllocError>
    requires threads { All (IsThread most_locations) threads.now }
    requires few { (1 ≤ length threads.now) × (length threads.now ≤ most_harts) }
    requires hart { hart < length threads.now }
    ensures { OnOk result (code.new.items ≡ code.old.items ++ turn_words threads.now hart) }
{
    code.push(Instr::Branch {
        op: BranchOp::Bne,
        rs1: 10,
        rs2: 0,
        offset: 8,
    })?;
    push_jump(code, 3 * hart + 1, block_place(threads, hart))?;
    code.push(Instr::Immediate {
        op: ImmediateOp::Addi,
        rd: 10,
        rs1: 10,
        imm: -1,
    })?;
    Ok(())
}

/// Appends a jump from the word with one number to the word with another.
fn push_jump(code: &mut Vec<Instr>, here: usize, there: usize) -> Result<(), AllocError>
    requires here { here ≤ jump_reach }
    requires there { there ≤ jump_reach }
    ensures { OnOk result (code.new.items ≡ code.old.items ++ jump_words here there) }
{
    code.push(Instr::Jal {
        rd: 0,
        offset: distance(here, there),
    })?;
    Ok(())
}

/// Appends the words by which each hart goes to its block.
#[tactic(auto, unfolding(crate::specs::Code::dispatch_words))]
fn push_dispatch(code: &mut Vec<Instr>, threads: &[Thread]) -> Result<(), AllocError>
    requires threads { All (IsThread most_locations) threads.now }
    requires few { (1 ≤ length threads.now) × (length threads.now ≤ most_harts) }
    ensures { OnOk result (code.new.items ≡ code.old.items ++ dispatch_words threads.now) }
{
    let last = threads.len() - 1;
    for hart in 0..last {
        push_turn(code, threads, hart)?;
    }
    push_jump(code, 3 * last, block_place(threads, last))
}

/// The instructions of a test, in order.
#[tactic(auto, unfolding(crate::specs::Code::code_of))]
pub(crate) fn code_of(test: &LitmusTest, alloc: Global) -> Result<Vec<Instr>, AllocError>
    requires { IsWellFormed test.now }
    ensures { IfOk result (λ code. code.items ≡ code_of test.now) }
{
    let mut code = Vec::new(alloc);
    push_dispatch(&mut code, &test.threads)?;
    for thread in &test.threads {
        push_thread(&mut code, thread)?;
    }
    Ok(code)
}
