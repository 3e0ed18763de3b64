//! Instructions written as words: each format lays its fields side by side.

ghost use Rattle.std.specs.Prelude.{◌≡◌, ◌<◌};
ghost use Rattle.rv_instr.specs.Fields.{
  opcode_at,
  rd_at,
  rs1_at,
  rs2_at,
  funct3_at,
  funct5_at,
  funct7_at,
  ordering_at,
  imm_i,
  imm_s,
  imm_b,
  imm_u,
  imm_j,
};
ghost use Rattle.rv_instr.specs.Table.{Spells, IsInstructionInRange, IsSigned, IsDistance};
ghost use Rattle.rv_instr.specs.Table.{IsUpper};

use crate::fields::bits;
use crate::opcodes::{AMO, AUIPC, BRANCH, JAL, JALR, LOAD, LUI, OP, OP_IMM, STORE};
use crate::operations::{
    amo_funct5, branch_funct3, immediate_funct3, load_funct3, muldiv_funct3, register_functs,
    shift_functs, store_funct3,
};
use rv_instr::{Instr, Ordering, Reg};

fn format_r(opcode: u32, funct7: u32, funct3: u32, rd: Reg, rs1: Reg, rs2: Reg) -> u32
    requires opcode { opcode < 128 }
    requires funct7 { funct7 < 128 }
    requires funct3 { funct3 < 8 }
    requires rd { rd < 32 }
    requires rs1 { rs1 < 32 }
    requires rs2 { rs2 < 32 }
    ensures opcode { opcode_at result ≡ opcode }
    ensures funct7 { funct7_at result ≡ funct7 }
    ensures funct3 { funct3_at result ≡ funct3 }
    ensures rd { rd ≡ rd_at result }
    ensures rs1 { rs1 ≡ rs1_at result }
    ensures rs2 { rs2 ≡ rs2_at result }
{
    funct7 * 0x2000000
        + rs2 as u32 * 0x100000
        + rs1 as u32 * 0x8000
        + funct3 * 0x1000
        + rd as u32 * 0x80
        + opcode
}

fn format_i(opcode: u32, funct3: u32, rd: Reg, rs1: Reg, imm: i32) -> u32
    requires opcode { opcode < 128 }
    requires funct3 { funct3 < 8 }
    requires rd { rd < 32 }
    requires rs1 { rs1 < 32 }
    requires imm { IsSigned 12 imm }
    ensures opcode { opcode_at result ≡ opcode }
    ensures funct3 { funct3_at result ≡ funct3 }
    ensures rd { rd ≡ rd_at result }
    ensures rs1 { rs1 ≡ rs1_at result }
    ensures imm { imm ≡ imm_i result }
{
    bits(imm.cast_unsigned(), 0, 12) * 0x100000
        + rs1 as u32 * 0x8000
        + funct3 * 0x1000
        + rd as u32 * 0x80
        + opcode
}

fn format_s(opcode: u32, funct3: u32, rs1: Reg, rs2: Reg, imm: i32) -> u32
    requires opcode { opcode < 128 }
    requires funct3 { funct3 < 8 }
    requires rs1 { rs1 < 32 }
    requires rs2 { rs2 < 32 }
    requires imm { IsSigned 12 imm }
    ensures opcode { opcode_at result ≡ opcode }
    ensures funct3 { funct3_at result ≡ funct3 }
    ensures rs1 { rs1 ≡ rs1_at result }
    ensures rs2 { rs2 ≡ rs2_at result }
    ensures imm { imm ≡ imm_s result }
{
    let imm = imm.cast_unsigned();
    bits(imm, 5, 7) * 0x2000000
        + rs2 as u32 * 0x100000
        + rs1 as u32 * 0x8000
        + funct3 * 0x1000
        + bits(imm, 0, 5) * 0x80
        + opcode
}

fn format_b(opcode: u32, funct3: u32, rs1: Reg, rs2: Reg, distance: i32) -> u32
    requires opcode { opcode < 128 }
    requires funct3 { funct3 < 8 }
    requires rs1 { rs1 < 32 }
    requires rs2 { rs2 < 32 }
    requires distance { IsDistance 13 distance }
    ensures opcode { opcode_at result ≡ opcode }
    ensures funct3 { funct3_at result ≡ funct3 }
    ensures rs1 { rs1 ≡ rs1_at result }
    ensures rs2 { rs2 ≡ rs2_at result }
    ensures distance { distance ≡ imm_b result }
{
    let distance = distance.cast_unsigned();
    bits(distance, 12, 1) * 0x80000000
        + bits(distance, 5, 6) * 0x2000000
        + rs2 as u32 * 0x100000
        + rs1 as u32 * 0x8000
        + funct3 * 0x1000
        + bits(distance, 1, 4) * 0x100
        + bits(distance, 11, 1) * 0x80
        + opcode
}

fn format_u(opcode: u32, rd: Reg, imm: u32) -> u32
    requires opcode { opcode < 128 }
    requires rd { rd < 32 }
    requires imm { IsUpper imm }
    ensures opcode { opcode_at result ≡ opcode }
    ensures rd { rd ≡ rd_at result }
    ensures imm { imm ≡ imm_u result }
{
    imm + rd as u32 * 0x80 + opcode
}

fn format_j(opcode: u32, rd: Reg, distance: i32) -> u32
    requires opcode { opcode < 128 }
    requires rd { rd < 32 }
    requires distance { IsDistance 21 distance }
    ensures opcode { opcode_at result ≡ opcode }
    ensures rd { rd ≡ rd_at result }
    ensures distance { distance ≡ imm_j result }
{
    let distance = distance.cast_unsigned();
    bits(distance, 20, 1) * 0x80000000
        + bits(distance, 1, 10) * 0x200000
        + bits(distance, 11, 1) * 0x100000
        + bits(distance, 12, 8) * 0x1000
        + rd as u32 * 0x80
        + opcode
}

fn format_atomic(funct5: u32, rd: Reg, rs1: Reg, rs2: Reg, ordering: Ordering) -> u32
    requires funct5 { funct5 < 32 }
    requires rd { rd < 32 }
    requires rs1 { rs1 < 32 }
    requires rs2 { rs2 < 32 }
    ensures opcode { opcode_at result ≡ 0b0101111 }
    ensures funct3 { funct3_at result ≡ 0b010 }
    ensures funct5 { funct5_at result ≡ funct5 }
    ensures rd { rd ≡ rd_at result }
    ensures rs1 { rs1 ≡ rs1_at result }
    ensures rs2 { rs2 ≡ rs2_at result }
    ensures ordering { ordering ≡ ordering_at result }
{
    funct5 * 0x8000000
        + u32::from(ordering.aq) * 0x4000000
        + u32::from(ordering.rl) * 0x2000000
        + rs2 as u32 * 0x100000
        + rs1 as u32 * 0x8000
        + 0b010 * 0x1000
        + rd as u32 * 0x80
        + AMO
}

/// A word that spells the instruction. FENCE's free fields are those of `fence iorw,iorw`, and
/// those of FENCE.I are 0.
pub fn encode(instr: Instr) -> u32
    requires { IsInstructionInRange instr }
    ensures spelled { Spells result instr }
    ensures fence { instr ≡ Instr.Fence → result ≡ 0x0FF0000F }
    ensures instruction_fence { instr ≡ Instr.InstructionFence → result ≡ 0x0000100F }
{
    match instr {
        Instr::Lui { rd, imm } => format_u(LUI, rd, imm),
        Instr::Auipc { rd, imm } => format_u(AUIPC, rd, imm),
        Instr::Jal { rd, offset } => format_j(JAL, rd, offset),
        Instr::Jalr { rd, rs1, offset } => format_i(JALR, 0b000, rd, rs1, offset),
        Instr::Branch {
            op,
            rs1,
            rs2,
            offset,
        } => format_b(BRANCH, branch_funct3(op), rs1, rs2, offset),
        Instr::Load {
            op,
            rd,
            rs1,
            offset,
        } => format_i(LOAD, load_funct3(op), rd, rs1, offset),
        Instr::Store {
            op,
            rs2,
            rs1,
            offset,
        } => format_s(STORE, store_funct3(op), rs1, rs2, offset),
        Instr::Immediate { op, rd, rs1, imm } => format_i(
            OP_IMM,
            immediate_funct3(op),
            rd,
            rs1,
            imm,
        ),
        Instr::Shift {
            op,
            rd,
            rs1,
            amount,
        } => {
            let (funct7, funct3) = shift_functs(op);
            format_r(OP_IMM, funct7, funct3, rd, rs1, amount)
        }
        Instr::Register { op, rd, rs1, rs2 } => {
            let (funct7, funct3) = register_functs(op);
            format_r(OP, funct7, funct3, rd, rs1, rs2)
        }
        Instr::MulDiv { op, rd, rs1, rs2 } => format_r(
            OP,
            0b0000001,
            muldiv_funct3(op),
            rd,
            rs1,
            rs2,
        ),
        Instr::Fence => 0x0FF0000F,
        Instr::InstructionFence => 0x0000100F,
        Instr::Ecall => 0x00000073,
        Instr::Ebreak => 0x00100073,
        Instr::LoadReserved { rd, rs1, ordering } => format_atomic(0b00010, rd, rs1, 0, ordering),
        Instr::StoreConditional {
            rd,
            rs1,
            rs2,
            ordering,
        } => format_atomic(0b00011, rd, rs1, rs2, ordering),
        Instr::Amo {
            kind,
            rd,
            rs1,
            rs2,
            ordering,
        } => format_atomic(amo_funct5(kind), rd, rs1, rs2, ordering),
    }
}
