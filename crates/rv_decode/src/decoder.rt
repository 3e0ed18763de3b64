//! Words read as instructions: one function for each opcode that has several rows.

ghost use Rattle.std.specs.Prelude.{◌≡◌, IfSome};
ghost use Rattle.rv_instr.specs.Fields.{opcode_at};
ghost use Rattle.rv_instr.specs.Table.{Spells, IsInstructionInRange, IsReading, OpInRange};
ghost use Rattle.rv_instr.specs.Decode.{
  decoded,
  jalr_of,
  branch_of,
  load_of,
  store_of,
  immediate_of,
  register_of,
  atomic_of,
  op_of_word,
};

use crate::fields::{
    bits, immediate_b, immediate_i, immediate_j, immediate_s, immediate_u, ordering, rd, rs1, rs2,
};
use crate::opcodes::{
    AMO, AUIPC, BRANCH, JAL, JALR, LOAD, LUI, MISC_MEM, OP, OP_IMM, STORE, SYSTEM,
};
use crate::operations::{
    amo_operation, branch_operation, immediate_operation, load_operation, muldiv_operation,
    register_operation, shift_operation, store_operation,
};
use rv_instr::{Instr, Op};

#[tactic(auto, unfolding(rv_instr::specs::Decode::jalr_of))]
fn jalr(word: u32) -> Option<Instr>
    requires { opcode_at word ≡ JALR }
    ensures value { result ≡ jalr_of word }
    ensures reading { IsReading word result }
{
    (bits(word, 12, 3) == 0b000).then_some(Instr::Jalr {
        rd: rd(word),
        rs1: rs1(word),
        offset: immediate_i(word),
    })
}

#[tactic(auto, unfolding(rv_instr::specs::Decode::branch_of))]
fn branch(word: u32) -> Option<Instr>
    requires { opcode_at word ≡ BRANCH }
    ensures value { result ≡ branch_of word }
    ensures reading { IsReading word result }
{
    Some(Instr::Branch {
        op: branch_operation(bits(word, 12, 3))?,
        rs1: rs1(word),
        rs2: rs2(word),
        offset: immediate_b(word),
    })
}

#[tactic(auto, unfolding(rv_instr::specs::Decode::load_of))]
fn load(word: u32) -> Option<Instr>
    requires { opcode_at word ≡ LOAD }
    ensures value { result ≡ load_of word }
    ensures reading { IsReading word result }
{
    Some(Instr::Load {
        op: load_operation(bits(word, 12, 3))?,
        rd: rd(word),
        rs1: rs1(word),
        offset: immediate_i(word),
    })
}

#[tactic(auto, unfolding(rv_instr::specs::Decode::store_of))]
fn store(word: u32) -> Option<Instr>
    requires { opcode_at word ≡ STORE }
    ensures value { result ≡ store_of word }
    ensures reading { IsReading word result }
{
    Some(Instr::Store {
        op: store_operation(bits(word, 12, 3))?,
        rs2: rs2(word),
        rs1: rs1(word),
        offset: immediate_s(word),
    })
}

#[tactic(auto, unfolding(rv_instr::specs::Decode::immediate_of, rv_instr::specs::Decode::shift_of))]
fn immediate(word: u32) -> Option<Instr>
    requires { opcode_at word ≡ OP_IMM }
    ensures value { result ≡ immediate_of word }
    ensures reading { IsReading word result }
{
    let (rd, rs1, funct3) = (rd(word), rs1(word), bits(word, 12, 3));
    Some(match funct3 {
        0b001 | 0b101 => Instr::Shift {
            op: shift_operation(bits(word, 25, 7), funct3)?,
            rd,
            rs1,
            amount: rs2(word),
        },
        _ => Instr::Immediate {
            op: immediate_operation(funct3)?,
            rd,
            rs1,
            imm: immediate_i(word),
        },
    })
}

#[tactic(auto, unfolding(rv_instr::specs::Decode::register_of, rv_instr::specs::Decode::muldiv_of))]
fn register(word: u32) -> Option<Instr>
    requires { opcode_at word ≡ OP }
    ensures value { result ≡ register_of word }
    ensures reading { IsReading word result }
{
    let (rd, rs1, rs2, funct3) = (rd(word), rs1(word), rs2(word), bits(word, 12, 3));
    Some(match bits(word, 25, 7) {
        0b0000001 => Instr::MulDiv {
            op: muldiv_operation(funct3)?,
            rd,
            rs1,
            rs2,
        },
        funct7 => Instr::Register {
            op: register_operation(funct7, funct3)?,
            rd,
            rs1,
            rs2,
        },
    })
}

#[tactic(auto, unfolding(rv_instr::specs::Decode::atomic_of, rv_instr::specs::Decode::load_reserved_of, rv_instr::specs::Decode::store_conditional_of, rv_instr::specs::Decode::amo_of))]
fn atomic(word: u32) -> Option<Instr>
    requires { opcode_at word ≡ AMO }
    ensures value { result ≡ atomic_of word }
    ensures reading { IsReading word result }
{
    if bits(word, 12, 3) != 0b010 {
        return None;
    }
    let (rd, rs1, rs2, ordering) = (rd(word), rs1(word), rs2(word), ordering(word));
    Some(match bits(word, 27, 5) {
        0b00010 if rs2 == 0 => Instr::LoadReserved { rd, rs1, ordering },
        0b00010 => return None,
        0b00011 => Instr::StoreConditional {
            rd,
            rs1,
            rs2,
            ordering,
        },
        funct5 => Instr::Amo {
            kind: amo_operation(funct5)?,
            rd,
            rs1,
            rs2,
            ordering,
        },
    })
}

/// The instruction that a word spells; `None` where the word is no row of the table
/// (RISC-V Unprivileged ISA, chapter "RV32/64G Instruction Set Listings").
#[tactic(auto, unfolding(rv_instr::specs::Decode::decoded, rv_instr::specs::Decode::fence_of, rv_instr::specs::Decode::system_of))]
pub fn decode(word: u32) -> Option<Instr>
    ensures value { result ≡ decoded word }
    ensures found { IfSome result (λ instr. Spells word instr) }
    ensures only { (instr : _) → Spells word instr → result ≡ Some instr }
    ensures in_range { IfSome result IsInstructionInRange }
{
    match bits(word, 0, 7) {
        LUI => Some(Instr::Lui {
            rd: rd(word),
            imm: immediate_u(word),
        }),
        AUIPC => Some(Instr::Auipc {
            rd: rd(word),
            imm: immediate_u(word),
        }),
        JAL => Some(Instr::Jal {
            rd: rd(word),
            offset: immediate_j(word),
        }),
        JALR => jalr(word),
        BRANCH => branch(word),
        LOAD => load(word),
        STORE => store(word),
        OP_IMM => immediate(word),
        OP => register(word),
        MISC_MEM if bits(word, 12, 3) == 0b000 => Some(Instr::Fence),
        MISC_MEM if bits(word, 12, 3) == 0b001 => Some(Instr::InstructionFence),
        SYSTEM if word == 0x00000073 => Some(Instr::Ecall),
        SYSTEM if word == 0x00100073 => Some(Instr::Ebreak),
        AMO => atomic(word),
        _ => None,
    }
}

/// What is found at a pc where memory holds this word; `None` where it holds no whole word.
#[tactic(auto, unfolding(rv_instr::specs::Decode::op_of_word, rv_instr::specs::Decode::op_of_instr))]
pub fn decode_op(word: Option<u32>) -> Op
    ensures value { result ≡ op_of_word word }
    ensures in_range { OpInRange result }
{
    match word.map(decode) {
        Some(Some(instr)) => Op::Known(instr),
        Some(None) => Op::Illegal,
        None => Op::NoWord,
    }
}
