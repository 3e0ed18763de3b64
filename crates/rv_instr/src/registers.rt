//! The registers that an instruction reads and writes, and the unit that executes it.

ghost use Rattle.std.specs.Prelude.{◌≡◌, ◌<◌, IfSome};

use crate::instr::{Instr, Reg};
use crate::op::{Op, UnitKind};

impl Instr {
    ghost use Rattle.rv_instr.specs.Registers.{rd_of, rs1_of, rs2_of, unit_of};
    ghost use Rattle.rv_instr.specs.Table.{IsInstructionInRange};

    /// The register that the instruction writes, x0 among them.
    #[tactic(auto, unfolding(crate::specs::Registers::rd_of))]
    pub fn rd(self) -> Option<Reg>
        ensures value { result ≡ rd_of self }
        ensures below { IsInstructionInRange self → IfSome result (λ register. register < 32) }
    {
        match self {
            Instr::Lui { rd, .. }
            | Instr::Auipc { rd, .. }
            | Instr::Jal { rd, .. }
            | Instr::Jalr { rd, .. }
            | Instr::Load { rd, .. }
            | Instr::Immediate { rd, .. }
            | Instr::Shift { rd, .. }
            | Instr::Register { rd, .. }
            | Instr::MulDiv { rd, .. }
            | Instr::LoadReserved { rd, .. }
            | Instr::StoreConditional { rd, .. }
            | Instr::Amo { rd, .. } => Some(rd),
            Instr::Branch { .. }
            | Instr::Store { .. }
            | Instr::Fence
            | Instr::InstructionFence
            | Instr::Ecall
            | Instr::Ebreak => None,
        }
    }

    /// The first register that the instruction reads. ECALL reads x17, the number of its call.
    #[tactic(auto, unfolding(crate::specs::Registers::rs1_of))]
    pub fn rs1(self) -> Option<Reg>
        ensures value { result ≡ rs1_of self }
        ensures below { IsInstructionInRange self → IfSome result (λ register. register < 32) }
    {
        match self {
            Instr::Jalr { rs1, .. }
            | Instr::Branch { rs1, .. }
            | Instr::Load { rs1, .. }
            | Instr::Store { rs1, .. }
            | Instr::Immediate { rs1, .. }
            | Instr::Shift { rs1, .. }
            | Instr::Register { rs1, .. }
            | Instr::MulDiv { rs1, .. }
            | Instr::LoadReserved { rs1, .. }
            | Instr::StoreConditional { rs1, .. }
            | Instr::Amo { rs1, .. } => Some(rs1),
            Instr::Ecall => Some(17),
            Instr::Lui { .. }
            | Instr::Auipc { .. }
            | Instr::Jal { .. }
            | Instr::Fence
            | Instr::InstructionFence
            | Instr::Ebreak => None,
        }
    }

    /// The second register that the instruction reads. ECALL reads x10, the argument of its call.
    #[tactic(auto, unfolding(crate::specs::Registers::rs2_of))]
    pub fn rs2(self) -> Option<Reg>
        ensures value { result ≡ rs2_of self }
        ensures below { IsInstructionInRange self → IfSome result (λ register. register < 32) }
    {
        match self {
            Instr::Branch { rs2, .. }
            | Instr::Store { rs2, .. }
            | Instr::Register { rs2, .. }
            | Instr::MulDiv { rs2, .. }
            | Instr::StoreConditional { rs2, .. }
            | Instr::Amo { rs2, .. } => Some(rs2),
            Instr::Ecall => Some(10),
            Instr::Lui { .. }
            | Instr::Auipc { .. }
            | Instr::Jal { .. }
            | Instr::Jalr { .. }
            | Instr::Load { .. }
            | Instr::Immediate { .. }
            | Instr::Shift { .. }
            | Instr::Fence
            | Instr::InstructionFence
            | Instr::Ebreak
            | Instr::LoadReserved { .. } => None,
        }
    }

    /// The kind of unit that executes the instruction.
    #[tactic(auto, unfolding(crate::specs::Registers::unit_of))]
    pub fn unit(self) -> UnitKind
        ensures { result ≡ unit_of self }
    {
        match self {
            Instr::MulDiv { .. } => UnitKind::Mul,
            Instr::Load { .. }
            | Instr::Store { .. }
            | Instr::LoadReserved { .. }
            | Instr::StoreConditional { .. }
            | Instr::Amo { .. } => UnitKind::Mem,
            Instr::Lui { .. }
            | Instr::Auipc { .. }
            | Instr::Jal { .. }
            | Instr::Jalr { .. }
            | Instr::Branch { .. }
            | Instr::Immediate { .. }
            | Instr::Shift { .. }
            | Instr::Register { .. }
            | Instr::Fence
            | Instr::InstructionFence
            | Instr::Ecall
            | Instr::Ebreak => UnitKind::Alu,
        }
    }
}

impl Op {
    ghost use Rattle.rv_instr.specs.Registers.{op_rd, op_rs1, op_rs2, op_unit};
    ghost use Rattle.rv_instr.specs.Table.{OpInRange};

    /// The instruction's `rd`; `None` where there is no instruction.
    #[tactic(auto, unfolding(crate::specs::Registers::op_rd))]
    pub fn rd(self) -> Option<Reg>
        ensures value { result ≡ op_rd self }
        ensures below { OpInRange self → IfSome result (λ register. register < 32) }
    {
        match self {
            Op::Known(instr) => instr.rd(),
            Op::Illegal | Op::NoWord => None,
        }
    }

    /// The instruction's `rs1`; `None` where there is no instruction.
    #[tactic(auto, unfolding(crate::specs::Registers::op_rs1))]
    pub fn rs1(self) -> Option<Reg>
        ensures value { result ≡ op_rs1 self }
        ensures below { OpInRange self → IfSome result (λ register. register < 32) }
    {
        match self {
            Op::Known(instr) => instr.rs1(),
            Op::Illegal | Op::NoWord => None,
        }
    }

    /// The instruction's `rs2`; `None` where there is no instruction.
    #[tactic(auto, unfolding(crate::specs::Registers::op_rs2))]
    pub fn rs2(self) -> Option<Reg>
        ensures value { result ≡ op_rs2 self }
        ensures below { OpInRange self → IfSome result (λ register. register < 32) }
    {
        match self {
            Op::Known(instr) => instr.rs2(),
            Op::Illegal | Op::NoWord => None,
        }
    }

    /// The instruction's unit; `Alu` where there is no instruction.
    #[tactic(auto, unfolding(crate::specs::Registers::op_unit))]
    pub fn unit(self) -> UnitKind
        ensures { result ≡ op_unit self }
    {
        match self {
            Op::Known(instr) => instr.unit(),
            Op::Illegal | Op::NoWord => UnitKind::Alu,
        }
    }
}
