pub use numbers::Reg;
use rv_word::AmoKind;

/// The condition of a conditional branch.
#[derive(Clone, Copy, PartialEq, Eq, Drop)]
pub enum BranchOp {
    Beq,
    Bne,
    Blt,
    Bge,
    Bltu,
    Bgeu,
}

/// What a load reads, and how it is extended to a word.
#[derive(Clone, Copy, PartialEq, Eq, Drop)]
pub enum LoadOp {
    Lb,
    Lh,
    Lw,
    Lbu,
    Lhu,
}

/// What a store writes.
#[derive(Clone, Copy, PartialEq, Eq, Drop)]
pub enum StoreOp {
    Sb,
    Sh,
    Sw,
}

/// An operation of a register and a 12-bit immediate.
#[derive(Clone, Copy, PartialEq, Eq, Drop)]
pub enum ImmediateOp {
    Addi,
    Slti,
    Sltiu,
    Xori,
    Ori,
    Andi,
}

/// A shift by a constant.
#[derive(Clone, Copy, PartialEq, Eq, Drop)]
pub enum ShiftOp {
    Slli,
    Srli,
    Srai,
}

/// An operation of two registers, of RV32I.
#[derive(Clone, Copy, PartialEq, Eq, Drop)]
pub enum RegisterOp {
    Add,
    Sub,
    Sll,
    Slt,
    Sltu,
    Xor,
    Srl,
    Sra,
    Or,
    And,
}

/// An operation of two registers, of the extension M.
#[derive(Clone, Copy, PartialEq, Eq, Drop)]
pub enum MulDivOp {
    Mul,
    Mulh,
    Mulhsu,
    Mulhu,
    Div,
    Divu,
    Rem,
    Remu,
}

/// The ordering bits of an atomic instruction. They are read, written and printed, and have no
/// other effect here.
#[derive(Clone, Copy, PartialEq, Eq, Drop)]
pub struct Ordering {
    pub aq: bool,
    pub rl: bool,
}

/// An instruction of RV32IMA (RISC-V Unprivileged ISA, chapters "RV32I", "M" and "A").
///
/// Registers are 0 to 31. `offset` and `imm` of the I, S, B and J forms are signed; `imm` of the U
/// form is the whole word, its low twelve bits 0; `amount` is 0 to 31.
#[derive(Clone, Copy, PartialEq, Eq, Drop)]
pub enum Instr {
    Lui {
        rd: Reg,
        imm: u32,
    },
    Auipc {
        rd: Reg,
        imm: u32,
    },
    Jal {
        rd: Reg,
        offset: i32,
    },
    Jalr {
        rd: Reg,
        rs1: Reg,
        offset: i32,
    },
    Branch {
        op: BranchOp,
        rs1: Reg,
        rs2: Reg,
        offset: i32,
    },
    Load {
        op: LoadOp,
        rd: Reg,
        rs1: Reg,
        offset: i32,
    },
    Store {
        op: StoreOp,
        rs2: Reg,
        rs1: Reg,
        offset: i32,
    },
    Immediate {
        op: ImmediateOp,
        rd: Reg,
        rs1: Reg,
        imm: i32,
    },
    Shift {
        op: ShiftOp,
        rd: Reg,
        rs1: Reg,
        amount: u8,
    },
    Register {
        op: RegisterOp,
        rd: Reg,
        rs1: Reg,
        rs2: Reg,
    },
    MulDiv {
        op: MulDivOp,
        rd: Reg,
        rs1: Reg,
        rs2: Reg,
    },
    Fence,
    /// FENCE.I: the fetches behind it see the writes before it.
    InstructionFence,
    Ecall,
    Ebreak,
    LoadReserved {
        rd: Reg,
        rs1: Reg,
        ordering: Ordering,
    },
    StoreConditional {
        rd: Reg,
        rs1: Reg,
        rs2: Reg,
        ordering: Ordering,
    },
    Amo {
        kind: AmoKind,
        rd: Reg,
        rs1: Reg,
        rs2: Reg,
        ordering: Ordering,
    },
}
