//! What an instruction is for the pipeline: what it does with memory, and whether it writes a
//! register.

ghost use Rattle.std.specs.Prelude.{◌≡◌, ◌<◌};

use crate::instr::{Instr, Reg};
use crate::op::Op;

/// What an instruction does with memory (RISC-V Unprivileged ISA, chapters "RV32I" and "A").
#[derive(Clone, Copy, PartialEq, Eq, Drop)]
pub enum Kind {
    /// Nothing: all but the others, illegal words and missing words among them.
    Computing,
    /// LB, LH, LW, LBU, LHU.
    Loading,
    /// SB, SH, SW.
    Storing,
    /// LR.
    Reserving,
    /// SC.
    Conditional,
    /// An AMO.
    Atomic,
}

impl Kind {
    ghost use Rattle.rv_instr.specs.Kinds.{is_loading, is_storing, touches_memory};

    /// Whether it is a load, with a place among the loads of its hart: LR and AMO have none.
    pub fn is_loading(self) -> bool
        ensures { result ≡ is_loading self }
    {
        matches!(self, Kind::Loading)
    }

    /// Whether it is a store, with a place among the stores of its hart: SC and AMO have none.
    pub fn is_storing(self) -> bool
        ensures { result ≡ is_storing self }
    {
        matches!(self, Kind::Storing)
    }

    /// Whether it reads or writes memory.
    pub fn touches_memory(self) -> bool
        ensures { result ≡ touches_memory self }
    {
        !matches!(self, Kind::Computing)
    }
}

impl Instr {
    ghost use Rattle.rv_instr.specs.Kinds.{kind_of_instr};

    /// What the instruction does with memory.
    pub fn kind(self) -> Kind
        ensures { result ≡ kind_of_instr self }
    {
        match self {
            Instr::Load { .. } => Kind::Loading,
            Instr::Store { .. } => Kind::Storing,
            Instr::LoadReserved { .. } => Kind::Reserving,
            Instr::StoreConditional { .. } => Kind::Conditional,
            Instr::Amo { .. } => Kind::Atomic,
            Instr::Lui { .. }
            | Instr::Auipc { .. }
            | Instr::Jal { .. }
            | Instr::Jalr { .. }
            | Instr::Branch { .. }
            | Instr::Immediate { .. }
            | Instr::Shift { .. }
            | Instr::Register { .. }
            | Instr::MulDiv { .. }
            | Instr::Fence
            | Instr::InstructionFence
            | Instr::Ecall
            | Instr::Ebreak => Kind::Computing,
        }
    }
}

impl Op {
    ghost use Rattle.rv_instr.specs.Kinds.{kind_of, destination, writes_register};
    ghost use Rattle.rv_instr.specs.Table.{OpInRange};

    /// The instruction's kind; `Computing` where there is no instruction.
    #[tactic(auto, unfolding(crate::specs::Kinds::kind_of))]
    pub fn kind(self) -> Kind
        ensures { result ≡ kind_of self }
    {
        match self {
            Op::Known(instr) => instr.kind(),
            Op::Illegal | Op::NoWord => Kind::Computing,
        }
    }

    /// The register that the instruction writes, 1 to 31; 0 where it writes x0 or none.
    #[tactic(auto, unfolding(crate::specs::Kinds::destination))]
    pub fn destination(self) -> Reg
        ensures value { result ≡ destination self }
        ensures below { OpInRange self → result < 32 }
    {
        self.rd().unwrap_or(0)
    }

    /// Whether the instruction writes a register: x0 is none.
    pub fn writes_register(self) -> bool
        ensures { result ≡ writes_register self }
    {
        self.destination() != 0
    }
}
