//! The registers of a hart, and what an instruction computes from them.

ghost use Rattle.std.specs.Prelude.{◌≡◌, ◌<◌, ℕ, slice_index};
ghost use Rattle.rv_instr.specs.Kinds.{first_source, second_source};
ghost use Rattle.litmus_runs.specs.Steps.{computed_by, register_written};

use numbers::Reg;
use rv_execute::{Computed, execute};
use rv_instr::Op;

/// What an instruction computes from the registers. No step of a litmus test depends on where it stands.
pub(crate) fn computed_by(op: Op, registers: &[u32; 32]) -> Computed
    ensures { result ≡ computed_by op registers.now }
{
    let a = read_register(registers, first_source(op));
    let b = read_register(registers, second_source(op));
    execute(op, 0, a, b)
}

#[tactic(auto, unfolding(rv_instr::specs::Kinds::first_source))]
fn first_source(op: Op) -> Reg
    ensures { result ≡ first_source op }
{
    op.rs1().unwrap_or(0)
}

#[tactic(auto, unfolding(rv_instr::specs::Kinds::second_source))]
fn second_source(op: Op) -> Reg
    ensures { result ≡ second_source op }
{
    op.rs2().unwrap_or(0)
}

pub(crate) fn read_register(registers: &[u32; 32], register: Reg) -> u32
    ensures { result ≡ slice_index registers.now register }
{
    let index = usize::from(register);
    if index < 32 {
        return registers[index];
    }
    0
}

/// Writes a number into a register, where there is one; x0 stays.
pub(crate) fn write_register(registers: &mut [u32; 32], register: Reg, number: Option<u32>)
    ensures { (r : ℕ) → r < 32 → slice_index registers.new r
        ≡ register_written register number r (slice_index registers.old r) }
{
    let Some(number) = number else {
        return;
    };
    let index = usize::from(register);
    if 0 < index && index < 32 {
        registers[index] = number;
    }
}
