//! The operands of an instruction: which a row has in a text, and what the row makes of them.

ghost use Rattle.std.specs.Prelude.{◌≡◌};
ghost use Rattle.rv_text.specs.Operands.{instr_with, atomic_with};
ghost use Rattle.rv_text.specs.Reading.{
  memory_operands,
  upper_form,
  jump_form,
  branch_form,
  load_form,
  store_form,
  immediate_form,
  shift_form,
  register_form,
  reserved_form,
  atomic_form,
  no_form,
  operands_at,
  atomic_at,
  instr_at,
};

use crate::fields::{amount, expect_end, register, signed, target, upper};
use crate::mnemonic::{AtomicOp, Mnemonic};
use crate::refused::TextRefused;
use rv_instr::{Instr, Ordering, Reg};

/// The operands of an instruction, each by its name in the instruction table. What its row has none of is 0.
#[derive(Clone, Copy, Drop)]
pub struct Operands {
    pub rd: Reg,
    pub rs1: Reg,
    pub rs2: Reg,
    /// An immediate of 12 bits, an offset, or the distance of a jump.
    pub offset: i32,
    /// The upper twenty bits of a word, as the whole word.
    pub upper: u32,
    /// The amount of a shift.
    pub amount: u8,
}

/// No operands.
pub const NO_OPERANDS: Operands = Operands {
    rd: 0,
    rs1: 0,
    rs2: 0,
    offset: 0,
    upper: 0,
    amount: 0,
};

/// The instruction of a row that has these operands.
#[tactic(auto, unfolding(crate::specs::Operands::instr_with))]
pub fn instr_with(mnemonic: Mnemonic, operands: Operands) -> Instr
    ensures { result ≡ instr_with mnemonic operands }
{
    let Operands {
        rd,
        rs1,
        rs2,
        offset,
        upper,
        amount,
    } = operands;
    match mnemonic {
        Mnemonic::Lui => Instr::Lui { rd, imm: upper },
        Mnemonic::Auipc => Instr::Auipc { rd, imm: upper },
        Mnemonic::Jal => Instr::Jal { rd, offset },
        Mnemonic::Jalr => Instr::Jalr { rd, rs1, offset },
        Mnemonic::Branch(op) => Instr::Branch {
            op,
            rs1,
            rs2,
            offset,
        },
        Mnemonic::Load(op) => Instr::Load {
            op,
            rd,
            rs1,
            offset,
        },
        Mnemonic::Store(op) => Instr::Store {
            op,
            rs2,
            rs1,
            offset,
        },
        Mnemonic::Immediate(op) => Instr::Immediate {
            op,
            rd,
            rs1,
            imm: offset,
        },
        Mnemonic::Shift(op) => Instr::Shift {
            op,
            rd,
            rs1,
            amount,
        },
        Mnemonic::Register(op) => Instr::Register { op, rd, rs1, rs2 },
        Mnemonic::MulDiv(op) => Instr::MulDiv { op, rd, rs1, rs2 },
        Mnemonic::Fence => Instr::Fence,
        Mnemonic::InstructionFence => Instr::InstructionFence,
        Mnemonic::Ecall => Instr::Ecall,
        Mnemonic::Ebreak => Instr::Ebreak,
        Mnemonic::Atomic(op, ordering) => atomic_with(op, ordering, rd, rs1, rs2),
    }
}

fn atomic_with(op: AtomicOp, ordering: Ordering, rd: Reg, rs1: Reg, rs2: Reg) -> Instr
    ensures { result ≡ atomic_with op ordering rd rs1 rs2 }
{
    match op {
        AtomicOp::LoadReserved => Instr::LoadReserved { rd, rs1, ordering },
        AtomicOp::StoreConditional => Instr::StoreConditional {
            rd,
            rs1,
            rs2,
            ordering,
        },
        AtomicOp::Amo(kind) => Instr::Amo {
            kind,
            rd,
            rs1,
            rs2,
            ordering,
        },
    }
}

/// `x5,0x12345`.
#[tactic(auto, unfolding(crate::specs::Reading::upper_operands, crate::specs::Reading::two_fields))]
fn upper_operands(text: &[u8]) -> Result<Operands, TextRefused>
    ensures { result ≡ upper_form text.now }
{
    let (rd, text) = register(" x", text)?;
    let (upper, text) = upper(text)?;
    expect_end("", text)?;
    Ok(Operands {
        rd,
        upper,
        ..NO_OPERANDS
    })
}

/// `x5,0x80000010`, the target as its distance from `pc`.
#[tactic(auto, unfolding(crate::specs::Reading::jump_operands, crate::specs::Reading::two_fields))]
fn jump_operands(pc: u32, text: &[u8]) -> Result<Operands, TextRefused>
    ensures { result ≡ jump_form pc text.now }
{
    let (rd, text) = register(" x", text)?;
    let (offset, text) = target(1 << 20, pc, text)?;
    expect_end("", text)?;
    Ok(Operands {
        rd,
        offset,
        ..NO_OPERANDS
    })
}

/// `x5,x6,0x80000010`.
#[tactic(auto, unfolding(crate::specs::Reading::branch_operands, crate::specs::Reading::three_fields))]
fn branch_operands(pc: u32, text: &[u8]) -> Result<Operands, TextRefused>
    ensures { result ≡ branch_form pc text.now }
{
    let (rs1, text) = register(" x", text)?;
    let (rs2, text) = register(",x", text)?;
    let (offset, text) = target(1 << 12, pc, text)?;
    expect_end("", text)?;
    Ok(Operands {
        rs1,
        rs2,
        offset,
        ..NO_OPERANDS
    })
}

/// `x5,4(x6)`: the register, the offset and the base.
#[tactic(auto, unfolding(crate::specs::Reading::memory_operands, crate::specs::Reading::three_fields))]
fn memory_operands(text: &[u8]) -> Result<(Reg, i32, Reg), TextRefused>
    ensures { result ≡ memory_operands text.now }
{
    let (number, text) = register(" x", text)?;
    let (offset, text) = signed(1 << 11, text)?;
    let (base, text) = register("(x", text)?;
    expect_end(")", text)?;
    Ok((number, offset, base))
}

/// Those of JALR and the loads.
fn load_operands(text: &[u8]) -> Result<Operands, TextRefused>
    ensures { result ≡ load_form text.now }
{
    let (rd, offset, rs1) = memory_operands(text)?;
    Ok(Operands {
        rd,
        rs1,
        offset,
        ..NO_OPERANDS
    })
}

fn store_operands(text: &[u8]) -> Result<Operands, TextRefused>
    ensures { result ≡ store_form text.now }
{
    let (rs2, offset, rs1) = memory_operands(text)?;
    Ok(Operands {
        rs1,
        rs2,
        offset,
        ..NO_OPERANDS
    })
}

/// `x5,x6,-1`.
#[tactic(auto, unfolding(crate::specs::Reading::immediate_operands, crate::specs::Reading::three_fields))]
fn immediate_operands(text: &[u8]) -> Result<Operands, TextRefused>
    ensures { result ≡ immediate_form text.now }
{
    let (rd, text) = register(" x", text)?;
    let (rs1, text) = register(",x", text)?;
    let (offset, text) = signed(1 << 11, text)?;
    expect_end("", text)?;
    Ok(Operands {
        rd,
        rs1,
        offset,
        ..NO_OPERANDS
    })
}

/// `x5,x6,4`.
#[tactic(auto, unfolding(crate::specs::Reading::shift_operands, crate::specs::Reading::three_fields))]
fn shift_operands(text: &[u8]) -> Result<Operands, TextRefused>
    ensures { result ≡ shift_form text.now }
{
    let (rd, text) = register(" x", text)?;
    let (rs1, text) = register(",x", text)?;
    let (amount, text) = amount(text)?;
    expect_end("", text)?;
    Ok(Operands {
        rd,
        rs1,
        amount,
        ..NO_OPERANDS
    })
}

/// `x5,x6,x7`.
#[tactic(auto, unfolding(crate::specs::Reading::register_operands, crate::specs::Reading::three_fields))]
fn register_operands(text: &[u8]) -> Result<Operands, TextRefused>
    ensures { result ≡ register_form text.now }
{
    let (rd, text) = register(" x", text)?;
    let (rs1, text) = register(",x", text)?;
    let (rs2, text) = register(",x", text)?;
    expect_end("", text)?;
    Ok(Operands {
        rd,
        rs1,
        rs2,
        ..NO_OPERANDS
    })
}

/// `x5,(x6)`.
#[tactic(auto, unfolding(crate::specs::Reading::load_reserved_operands, crate::specs::Reading::two_fields))]
fn load_reserved_operands(text: &[u8]) -> Result<Operands, TextRefused>
    ensures { result ≡ reserved_form text.now }
{
    let (rd, text) = register(" x", text)?;
    let (rs1, text) = register(",(x", text)?;
    expect_end(")", text)?;
    Ok(Operands {
        rd,
        rs1,
        ..NO_OPERANDS
    })
}

/// `x5,x6,(x7)`.
#[tactic(auto, unfolding(crate::specs::Reading::atomic_operands, crate::specs::Reading::three_fields))]
fn atomic_operands(text: &[u8]) -> Result<Operands, TextRefused>
    ensures { result ≡ atomic_form text.now }
{
    let (rd, text) = register(" x", text)?;
    let (rs2, text) = register(",x", text)?;
    let (rs1, text) = register(",(x", text)?;
    expect_end(")", text)?;
    Ok(Operands {
        rd,
        rs1,
        rs2,
        ..NO_OPERANDS
    })
}

fn no_operands(text: &[u8]) -> Result<Operands, TextRefused>
    ensures { result ≡ no_form text.now }
{
    expect_end("", text)?;
    Ok(NO_OPERANDS)
}

/// The operands of a row that stands at `pc`, and nothing behind them.
#[tactic(auto, unfolding(crate::specs::Reading::operands_at))]
fn operands_of(pc: u32, mnemonic: Mnemonic, text: &[u8]) -> Result<Operands, TextRefused>
    ensures { result ≡ operands_at pc mnemonic text.now }
{
    match mnemonic {
        Mnemonic::Lui | Mnemonic::Auipc => upper_operands(text),
        Mnemonic::Jal => jump_operands(pc, text),
        Mnemonic::Jalr | Mnemonic::Load(_) => load_operands(text),
        Mnemonic::Branch(_) => branch_operands(pc, text),
        Mnemonic::Store(_) => store_operands(text),
        Mnemonic::Immediate(_) => immediate_operands(text),
        Mnemonic::Shift(_) => shift_operands(text),
        Mnemonic::Register(_) | Mnemonic::MulDiv(_) => register_operands(text),
        Mnemonic::Fence | Mnemonic::InstructionFence | Mnemonic::Ecall | Mnemonic::Ebreak =>
            no_operands(text),
        Mnemonic::Atomic(op, _) => operands_of_atomic(op, text),
    }
}

fn operands_of_atomic(op: AtomicOp, text: &[u8]) -> Result<Operands, TextRefused>
    ensures { result ≡ atomic_at op text.now }
{
    match op {
        AtomicOp::LoadReserved => load_reserved_operands(text),
        AtomicOp::StoreConditional | AtomicOp::Amo(_) => atomic_operands(text),
    }
}

/// The instruction of a row that stands at `pc` and has these operands.
#[tactic(auto, unfolding(crate::specs::Reading::instr_at))]
pub(crate) fn instr_of(pc: u32, mnemonic: Mnemonic, text: &[u8]) -> Result<Instr, TextRefused>
    ensures { result ≡ instr_at pc mnemonic text.now }
{
    let operands = operands_of(pc, mnemonic, text)?;
    Ok(instr_with(mnemonic, operands))
}
