//! What an instruction computes from its operands, by its form (RISC-V Unprivileged ISA, chapters
//! "RV32I", "M" and "A").

ghost use Rattle.std.specs.Prelude.{◌≡◌};
ghost use Rattle.smt_model.specs.Exec.{exec, extended, computed_of};

use crate::computed::{Computed, jump_to, next_pc};
use crate::operations::{
    immediate_value, is_taken, muldiv_value, register_value, shift_value, stored_part,
};
use events::Next;
use rv_instr::{Instr, Op};
use rv_word::add;

/// What is computed at `pc` by what was found there, from the numbers of its first and its second
/// source. A word that is no instruction stops with cause 2, and no word with cause 1.
#[tactic(auto, unfolding(smt_model::specs::Exec::exec))]
#[inline(always)]
pub fn execute(op: Op, pc: u32, a: u32, b: u32) -> Computed
    ensures { result ≡ exec op pc a b }
{
    match op {
        Op::Known(instr) => computed_of(instr, pc, a, b),
        Op::Illegal => Computed::just_next(Next::Stopped(2)),
        Op::NoWord => Computed::just_next(Next::Stopped(1)),
    }
}

/// What the instruction at `pc` computes from the numbers of its first and its second source.
#[tactic(auto, unfolding(smt_model::specs::Exec::computed_of))]
fn computed_of(instr: Instr, pc: u32, a: u32, b: u32) -> Computed
    ensures { result ≡ computed_of instr pc a b }
{
    match instr {
        Instr::Lui { imm, .. } => Computed::gives(pc, imm),
        Instr::Auipc { imm, .. } => Computed::gives(pc, add(pc, imm)),
        Instr::Jal { offset, .. } => Computed::jump(pc, add(pc, extended(offset))),
        Instr::Jalr { offset, .. } => {
            let target = add(a, extended(offset));
            Computed::jump(pc, target - target % 2)
        }
        Instr::Branch { op, offset, .. } if is_taken(op, a, b) => {
            Computed::just_next(jump_to(add(pc, extended(offset))))
        }
        Instr::Branch { .. } | Instr::Fence | Instr::InstructionFence => {
            Computed::just_next(Next::Pc(next_pc(pc)))
        }
        Instr::Load { offset, .. } => Computed::touches(pc, add(a, extended(offset)), 0),
        Instr::Store { op, offset, .. } => {
            Computed::touches(pc, add(a, extended(offset)), stored_part(op, b))
        }
        Instr::Immediate { op, imm, .. } => {
            Computed::gives(pc, immediate_value(op, a, extended(imm)))
        }
        Instr::Shift { op, amount, .. } => {
            Computed::gives(pc, shift_value(op, a, u32::from(amount)))
        }
        Instr::Register { op, .. } => Computed::gives(pc, register_value(op, a, b)),
        Instr::MulDiv { op, .. } => Computed::gives(pc, muldiv_value(op, a, b)),
        Instr::Ecall => Computed::call(pc, a, b),
        Instr::Ebreak => Computed::just_next(Next::Stopped(3)),
        Instr::LoadReserved { .. } => Computed::touches(pc, a, 0),
        Instr::StoreConditional { .. } | Instr::Amo { .. } => Computed::touches(pc, a, b),
    }
}

/// An immediate as the word that it is extended to.
fn extended(immediate: i32) -> u32
    ensures { result ≡ extended immediate }
{
    immediate.cast_unsigned()
}
