ghost use Rattle.std.specs.Prelude.{◌≡◌, ◌+◌, ◌≤◌, ◌++◌, length, codes};
ghost use Rattle.arrayvec.specs.ArrayString.{array_string_len};
ghost use Rattle.rv_instr.specs.Table.{IsInstructionInRange};
ghost use Rattle.rv_text.specs.Mnemonic.{mnemonic_name};
ghost use Rattle.rv_text.specs.Spelling.{
  register_text,
  first_register_text,
  next_register,
  address_register,
  signed_text,
  amount_text,
  hex_text,
  upper_text,
  target_of,
  memory_text,
  operands_of,
  mnemonic_of,
  Says,
};

use crate::mnemonic::{
    AtomicOp, Mnemonic, atomic_name, branch_name, immediate_name, load_name, mul_div_name,
    ordering_name, register_name, shift_name, store_name,
};
use arrayvec::ArrayString;
use rv_instr::{Instr, Reg};
use text_fields::{push_decimal, push_hex};

type Text = ArrayString<40>;

// A register, behind the characters that stand before its number.
#[tactic(auto, unfolding(crate::specs::Spelling::register_text))]
fn push_register(text: &mut Text, before: &str, number: Reg)
    requires { array_string_len text.old + length before.now + 3 ≤ 40 }
    ensures spelled { text.new.bytes ≡ text.old.bytes ++ register_text before.now number }
    ensures length { array_string_len text.new ≤ array_string_len text.old + length before.now + 3 }
{
    text.push_str(before);
    push_decimal(text, number);
}

#[tactic(auto, unfolding(crate::specs::Spelling::signed_text))]
fn push_signed(text: &mut Text, number: i32)
    requires { array_string_len text.old + 12 ≤ 40 }
    ensures spelled { text.new.bytes ≡ text.old.bytes ++ signed_text number }
    ensures length { array_string_len text.new ≤ array_string_len text.old + 12 }
{
    text.push_str(",");
    push_decimal(text, number);
}

#[tactic(auto, unfolding(crate::specs::Spelling::amount_text))]
fn push_amount(text: &mut Text, number: u8)
    requires { array_string_len text.old + 4 ≤ 40 }
    ensures spelled { text.new.bytes ≡ text.old.bytes ++ amount_text number }
    ensures length { array_string_len text.new ≤ array_string_len text.old + 4 }
{
    text.push_str(",");
    push_decimal(text, number);
}

#[tactic(auto, unfolding(crate::specs::Spelling::hex_text))]
fn push_hex_operand(text: &mut Text, number: u32, count: usize)
    requires places { count ≤ 8 }
    requires room { array_string_len text.old + count + 3 ≤ 40 }
    ensures spelled { text.new.bytes ≡ text.old.bytes ++ hex_text count number }
    ensures length { array_string_len text.new ≤ array_string_len text.old + count + 3 }
{
    text.push_str(",0x");
    push_hex(text, number, count);
}

// Where a jump from `pc` goes.
#[tactic(auto, unfolding(crate::specs::Spelling::target_of))]
fn jump_target(pc: u32, offset: i32) -> u32
    ensures { result ≡ target_of pc offset }
{
    pc.wrapping_add_signed(offset)
}

fn push_mnemonic(text: &mut Text, mnemonic: Mnemonic)
    requires { array_string_len text.old ≡ 0 }
    ensures spelled { text.new.bytes ≡ mnemonic_name mnemonic }
    ensures length { array_string_len text.new ≤ 15 }
{
    let name = match mnemonic {
        Mnemonic::Lui => "lui",
        Mnemonic::Auipc => "auipc",
        Mnemonic::Jal => "jal",
        Mnemonic::Jalr => "jalr",
        Mnemonic::Branch(op) => branch_name(op),
        Mnemonic::Load(op) => load_name(op),
        Mnemonic::Store(op) => store_name(op),
        Mnemonic::Immediate(op) => immediate_name(op),
        Mnemonic::Shift(op) => shift_name(op),
        Mnemonic::Register(op) => register_name(op),
        Mnemonic::MulDiv(op) => mul_div_name(op),
        Mnemonic::Fence => "fence",
        Mnemonic::InstructionFence => "fence.i",
        Mnemonic::Ecall => "ecall",
        Mnemonic::Ebreak => "ebreak",
        Mnemonic::Atomic(op, ordering) => {
            text.push_str(atomic_name(op));
            text.push_str(".");
            ordering_name(ordering)
        }
    };
    text.push_str(name);
}

fn mnemonic_of(instr: Instr) -> Mnemonic
    ensures { result ≡ mnemonic_of instr }
{
    match instr {
        Instr::Lui { .. } => Mnemonic::Lui,
        Instr::Auipc { .. } => Mnemonic::Auipc,
        Instr::Jal { .. } => Mnemonic::Jal,
        Instr::Jalr { .. } => Mnemonic::Jalr,
        Instr::Branch { op, .. } => Mnemonic::Branch(op),
        Instr::Load { op, .. } => Mnemonic::Load(op),
        Instr::Store { op, .. } => Mnemonic::Store(op),
        Instr::Immediate { op, .. } => Mnemonic::Immediate(op),
        Instr::Shift { op, .. } => Mnemonic::Shift(op),
        Instr::Register { op, .. } => Mnemonic::Register(op),
        Instr::MulDiv { op, .. } => Mnemonic::MulDiv(op),
        Instr::Fence => Mnemonic::Fence,
        Instr::InstructionFence => Mnemonic::InstructionFence,
        Instr::Ecall => Mnemonic::Ecall,
        Instr::Ebreak => Mnemonic::Ebreak,
        Instr::LoadReserved { ordering, .. } => Mnemonic::Atomic(AtomicOp::LoadReserved, ordering),
        Instr::StoreConditional { ordering, .. } => {
            Mnemonic::Atomic(AtomicOp::StoreConditional, ordering)
        }
        Instr::Amo { kind, ordering, .. } => Mnemonic::Atomic(AtomicOp::Amo(kind), ordering),
    }
}

fn push_upper(text: &mut Text, rd: Reg, imm: u32)
    requires { array_string_len text.old ≤ 15 }
    ensures { text.new.bytes ≡ text.old.bytes ++ (first_register_text rd ++ upper_text imm) }
{
    push_register(text, " x", rd);
    push_hex_operand(text, imm >> 12, 5);
}

// A register, and an address by a base register and a distance from it.
fn push_memory(text: &mut Text, register: Reg, offset: i32, base: Reg)
    requires { array_string_len text.old ≤ 15 }
    ensures { text.new.bytes ≡ text.old.bytes ++ memory_text register offset base }
{
    push_register(text, " x", register);
    push_signed(text, offset);
    push_register(text, "(x", base);
    text.push_str(")");
}

fn push_two_registers(text: &mut Text, first: Reg, second: Reg)
    requires { array_string_len text.old ≤ 15 }
    ensures spelled { text.new.bytes ≡ text.old.bytes
        ++ (first_register_text first ++ next_register second) }
    ensures length { array_string_len text.new ≤ 25 }
{
    push_register(text, " x", first);
    push_register(text, ",x", second);
}

// The address that an atomic has in a register.
fn push_address(text: &mut Text, base: Reg)
    requires { array_string_len text.old ≤ 25 }
    ensures { text.new.bytes ≡ text.old.bytes ++ (address_register base ++ codes ")") }
{
    push_register(text, ",(x", base);
    text.push_str(")");
}

fn push_operands(text: &mut Text, instr: Instr, pc: u32)
    requires in_range { IsInstructionInRange instr }
    requires room { array_string_len text.old ≤ 15 }
    ensures { text.new.bytes ≡ text.old.bytes ++ operands_of instr pc }
{
    match instr {
        Instr::Lui { rd, imm } | Instr::Auipc { rd, imm } => push_upper(text, rd, imm),
        Instr::Jal { rd, offset } => {
            push_register(text, " x", rd);
            push_hex_operand(text, jump_target(pc, offset), 8);
        }
        Instr::Jalr { rd, rs1, offset } => push_memory(text, rd, offset, rs1),
        Instr::Branch {
            op: _,
            rs1,
            rs2,
            offset,
        } => {
            push_two_registers(text, rs1, rs2);
            push_hex_operand(text, jump_target(pc, offset), 8);
        }
        Instr::Load {
            op: _,
            rd,
            rs1,
            offset,
        } => push_memory(text, rd, offset, rs1),
        Instr::Store {
            op: _,
            rs2,
            rs1,
            offset,
        } => push_memory(text, rs2, offset, rs1),
        Instr::Immediate {
            op: _,
            rd,
            rs1,
            imm,
        } => {
            push_two_registers(text, rd, rs1);
            push_signed(text, imm);
        }
        Instr::Shift {
            op: _,
            rd,
            rs1,
            amount,
        } => {
            push_two_registers(text, rd, rs1);
            push_amount(text, amount);
        }
        Instr::Register { rd, rs1, rs2, .. } | Instr::MulDiv { rd, rs1, rs2, .. } => {
            push_two_registers(text, rd, rs1);
            push_register(text, ",x", rs2);
        }
        Instr::Fence | Instr::InstructionFence | Instr::Ecall | Instr::Ebreak => {}
        Instr::LoadReserved { rd, rs1, .. } => {
            push_register(text, " x", rd);
            push_address(text, rs1);
        }
        Instr::StoreConditional { rd, rs1, rs2, .. } | Instr::Amo { rd, rs1, rs2, .. } => {
            push_two_registers(text, rd, rs2);
            push_address(text, rs1);
        }
    }
}

/// The one spelling of an instruction that stands at `pc`.
pub fn print(instr: Instr, pc: u32) -> ArrayString<40>
    requires { IsInstructionInRange instr }
    ensures { Says result.bytes instr pc }
{
    let mut text = ArrayString::new();
    push_mnemonic(&mut text, mnemonic_of(instr));
    push_operands(&mut text, instr, pc);
    text
}
