//! What a hart does next, on memory as it stands.

ghost use Rattle.std.specs.Prelude.{◌≡◌, ◌<◌, ℕ};
ghost use Rattle.shared_memory.specs.Contents.{byte_of};
ghost use Rattle.numbers.specs.Sizes.{most_harts};
ghost use Rattle.elf_image.specs.Image.{ProgramImage, word_now};
ghost use Rattle.rv_instr.specs.Decode.{op_of_word};
ghost use Rattle.rv_instr.specs.Kinds.{first_source, second_source};
ghost use Rattle.rv_instr.specs.Table.{OpInRange};
ghost use Rattle.decoded_code.specs.Code.{IsCodeOf};
ghost use Rattle.sc_machine.specs.Access.{HasNoFault};
ghost use Rattle.sc_machine.specs.Execution.{IsNext, IsAllowed};
ghost use Rattle.sc_machine.specs.Here.{word_here, op_here, computed_here};

use crate::effect::{effect_here, stop_at_fault};
use crate::hart::Hart;
use decoded_code::Code;
use events::Record;
use rv_execute::{Computed, execute};
use rv_instr::{Op, Reg};
use shared_memory::Memory;

/// An instruction that a hart has yet to execute: what it is, the address that it touches, and its
/// record.
#[derive(Clone, Copy, Drop)]
pub struct Execution {
    pub op: Op,
    pub addr: u32,
    pub record: Record,
}

/// What hart `hart`, with `state` of its own, does next. The code is what memory has now.
// It stands in the step of the plain machine, or what it answers would go there through memory.
#[inline(always)]
pub fn next_execution(memory: &Memory, code: &Code, hart: u8, state: &Hart) -> Execution
    requires hart { hart < most_harts }
    requires code { IsCodeOf memory.now.image (byte_of memory.now) code.now }
    ensures is { IsNext memory.now hart state.now result }
    ensures allowed { IsAllowed memory.now result }
{
    let (word, op) = fetch(code, state.pc);
    let computed = compute(memory, op, state);
    let _destination = op.destination();
    let _first = first_source(op);
    let _second = second_source(op);
    let addr = computed.addr;
    let effect = effect_here(memory, hart, op, computed);
    Execution {
        op,
        addr,
        record: Record {
            hart,
            pc: state.pc,
            word,
            effect,
        },
    }
}

/// What an instruction computes of a hart's registers, with the faults of its access. It doesn't ask
/// what memory holds, but for the image.
// It stands in its callers, as `next_execution` does.
#[inline(always)]
pub fn compute(memory: &Memory, op: Op, state: &Hart) -> Computed
    requires in_range { OpInRange op }
    ensures value { result ≡ computed_here memory.now state.now op }
    ensures no_fault { HasNoFault memory.now.image op result }
{
    let first = first_source(op);
    let second = second_source(op);
    stop_at_fault(
        memory,
        op,
        execute(op, state.pc, state.read(first), state.read(second)),
    )
}

/// The word at a pc and what it is.
#[tactic(auto, unfolding(rv_instr::specs::Decode::op_of_word))]
fn fetch(code: &Code, pc: u32) -> (Option<u32>, Op)
    ensures word { (image : ProgramImage) (bytes : ℕ → ℕ) → IsCodeOf image bytes code.now
        → result.0 ≡ word_now image bytes pc }
    ensures op { (image : ProgramImage) (bytes : ℕ → ℕ) → IsCodeOf image bytes code.now
        → result.1 ≡ op_of_word (word_now image bytes pc) }
    ensures in_range { (image : ProgramImage) (bytes : ℕ → ℕ) → IsCodeOf image bytes code.now
        → OpInRange result.1 }
{
    match code.at(pc) {
        Some(fetched) => (Some(fetched.word), fetched.op),
        None => (None, Op::NoWord),
    }
}

/// The first register that an instruction reads; 0 for none.
#[tactic(auto, unfolding(rv_instr::specs::Kinds::first_source))]
fn first_source(op: Op) -> Reg
    requires { OpInRange op }
    ensures value { result ≡ first_source op }
    ensures below { first_source op < 32 }
{
    op.rs1().unwrap_or(0)
}

/// The second register that an instruction reads; 0 for none.
#[tactic(auto, unfolding(rv_instr::specs::Kinds::second_source))]
fn second_source(op: Op) -> Reg
    requires { OpInRange op }
    ensures value { result ≡ second_source op }
    ensures below { second_source op < 32 }
{
    op.rs2().unwrap_or(0)
}
