ghost use Rattle.std.specs.Prelude.{◌≡◌, ℕ, Bool};
ghost use Rattle.rv_instr.specs.declared.op.Op.TheVariants.{Known};
ghost use Rattle.smt_model.specs.Exec.{extended, next_pc};
ghost use Rattle.live_registers.specs.Onward.{goes, goes_on_at};

use rv_instr::{Instr, Op};
use rv_word::add;

/// Where an instruction may go on.
#[derive(Clone, Copy, Drop)]
pub enum Onward {
    /// It never does.
    Nowhere,
    /// At this pc alone.
    At(u32),
    /// At one of these.
    AtEither(u32, u32),
    /// Where the table of targets says.
    AsListed,
}

/// Where what was found at a pc may go on.
#[tactic(auto, unfolding(outcome_laws::specs::Tables::may_follow, outcome_laws::specs::Tables::goes_anywhere))]
pub fn onward_of(op: Op, pc: u32) -> Onward
    ensures { (targets : ℕ → ℕ → Bool) (to : ℕ) → goes targets op pc to ≡ goes_on_at targets pc result to }
{
    match op {
        Op::Known(instr) => onward_of_instr(instr, pc),
        Op::Illegal | Op::NoWord => Onward::Nowhere,
    }
}

/// Where an instruction at a pc may go on.
#[tactic(auto, unfolding(outcome_laws::specs::Tables::may_follow, outcome_laws::specs::Tables::goes_anywhere))]
fn onward_of_instr(instr: Instr, pc: u32) -> Onward
    ensures { (targets : ℕ → ℕ → Bool) (to : ℕ)
        → goes targets (Known instr) pc to ≡ goes_on_at targets pc result to }
{
    match instr {
        Instr::Jal { offset, .. } => Onward::At(add(pc, extended(offset))),
        Instr::Jalr { .. } => Onward::AsListed,
        Instr::Branch { offset, .. } => Onward::AtEither(add(pc, extended(offset)), behind(pc)),
        Instr::Lui { .. }
        | Instr::Auipc { .. }
        | Instr::Load { .. }
        | Instr::Store { .. }
        | Instr::Immediate { .. }
        | Instr::Shift { .. }
        | Instr::Register { .. }
        | Instr::MulDiv { .. }
        | Instr::Fence
        | Instr::InstructionFence
        | Instr::Ecall
        | Instr::Ebreak
        | Instr::LoadReserved { .. }
        | Instr::StoreConditional { .. }
        | Instr::Amo { .. } => Onward::At(behind(pc)),
    }
}

/// The pc behind another.
fn behind(pc: u32) -> u32
    ensures { result ≡ next_pc pc }
{
    pc.wrapping_add(4)
}

/// An immediate as the word that it is extended to.
fn extended(immediate: i32) -> u32
    ensures { result ≡ extended immediate }
{
    immediate.cast_unsigned()
}
