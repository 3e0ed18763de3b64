ghost use Rattle.std.specs.Prelude.{◌≡◌, ◌%◌, ◌*◌, ◌^◌};
ghost use Rattle.smt_model.specs.Kinds.{store_size};
ghost use Rattle.smt_model.specs.Exec.{is_taken, immediate_value, shift_value, register_value};
ghost use Rattle.smt_model.specs.Exec.{muldiv_value};

use rv_instr::{BranchOp, ImmediateOp, MulDivOp, RegisterOp, ShiftOp, StoreOp};

/// Whether a branch is taken.
pub fn is_taken(op: BranchOp, a: u32, b: u32) -> bool
    ensures { result ≡ is_taken op a b }
{
    match op {
        BranchOp::Beq => a == b,
        BranchOp::Bne => a != b,
        BranchOp::Blt => a.cast_signed() < b.cast_signed(),
        BranchOp::Bge => a.cast_signed() >= b.cast_signed(),
        BranchOp::Bltu => a < b,
        BranchOp::Bgeu => a >= b,
    }
}

/// ADDI, SLTI, SLTIU, XORI, ORI, ANDI, with the immediate as a word.
pub fn immediate_value(op: ImmediateOp, a: u32, b: u32) -> u32
    ensures { result ≡ immediate_value op a b }
{
    match op {
        ImmediateOp::Addi => rv_word::add(a, b),
        ImmediateOp::Slti => rv_word::slt(a, b),
        ImmediateOp::Sltiu => rv_word::sltu(a, b),
        ImmediateOp::Xori => a ^ b,
        ImmediateOp::Ori => a | b,
        ImmediateOp::Andi => a & b,
    }
}

/// SLLI, SRLI, SRAI.
pub fn shift_value(op: ShiftOp, a: u32, b: u32) -> u32
    ensures { result ≡ shift_value op a b }
{
    match op {
        ShiftOp::Slli => rv_word::sll(a, b),
        ShiftOp::Srli => rv_word::srl(a, b),
        ShiftOp::Srai => rv_word::sra(a, b),
    }
}

/// ADD, SUB, SLL, SLT, SLTU, XOR, SRL, SRA, OR, AND.
pub fn register_value(op: RegisterOp, a: u32, b: u32) -> u32
    ensures { result ≡ register_value op a b }
{
    match op {
        RegisterOp::Add => rv_word::add(a, b),
        RegisterOp::Sub => rv_word::sub(a, b),
        RegisterOp::Sll => rv_word::sll(a, b),
        RegisterOp::Slt => rv_word::slt(a, b),
        RegisterOp::Sltu => rv_word::sltu(a, b),
        RegisterOp::Xor => a ^ b,
        RegisterOp::Srl => rv_word::srl(a, b),
        RegisterOp::Sra => rv_word::sra(a, b),
        RegisterOp::Or => a | b,
        RegisterOp::And => a & b,
    }
}

/// MUL, MULH, MULHSU, MULHU, DIV, DIVU, REM, REMU.
pub fn muldiv_value(op: MulDivOp, a: u32, b: u32) -> u32
    ensures { result ≡ muldiv_value op a b }
{
    match op {
        MulDivOp::Mul => rv_word::mul(a, b),
        MulDivOp::Mulh => rv_word::mulh(a, b),
        MulDivOp::Mulhsu => rv_word::mulhsu(a, b),
        MulDivOp::Mulhu => rv_word::mulhu(a, b),
        MulDivOp::Div => rv_word::div(a, b),
        MulDivOp::Divu => rv_word::divu(a, b),
        MulDivOp::Rem => rv_word::rem(a, b),
        MulDivOp::Remu => rv_word::remu(a, b),
    }
}

/// The bytes of a word that a store writes.
pub fn stored_part(op: StoreOp, b: u32) -> u32
    ensures { result ≡ b % 2 ^ (8 * store_size op) }
{
    match op {
        StoreOp::Sb => b % 0x100,
        StoreOp::Sh => b % 0x1_0000,
        StoreOp::Sw => b,
    }
}
