//! One instruction.

ghost use Rattle.std.specs.Prelude.{◌≡◌, ◌≤◌, ◌<◌, ◌*◌, [], ℕ, pos, IfOk, IfErr, OnOk};
ghost use Rattle.litmus_words.specs.Answered.{Gives};
ghost use Rattle.litmus_words.specs.declared.word.Word.{Word as AnyWord};
ghost use Rattle.litmus_tests.specs.Limits.{most_locations};
ghost use Rattle.litmus_words.specs.Tokens.{tokens};
ghost use Rattle.litmus_reading.specs.Instructions.{
  pair,
  HasItsLabel,
  IsLastLabel,
  SpellsBranch,
  SpellsConstant,
  SpellsInstruction,
  SpellsLoadAddress,
  SpellsRow,
  SpellsStraight,
  SpellsWritten,
};
ghost use Rattle.litmus_words.specs.declared.mnemonic.Mnemonic.TheVariants as name;
ghost use Rattle.rv_instr.specs.declared.instr.Instr.TheVariants as instr;
ghost use Rattle.rv_instr.specs.declared.instr.ImmediateOp.TheVariants as immediate_op;
ghost use Rattle.rv_instr.specs.declared.instr.Instr.{Instr as AnyInstruction};
ghost use Rattle.rv_instr.specs.declared.instr.BranchOp.{BranchOp as AnyBranch};
ghost use Rattle.rv_instr.specs.declared.instr.BranchOp.TheVariants.{Beq};
ghost use Rattle.litmus_reading.specs.declared.instruction.Written.{Written as AnyWritten};
ghost use Rattle.litmus_reading.specs.declared.instruction.Written.TheVariants.{Branch, Constant};
ghost use Rattle.litmus_tests.specs.Conditions.{number_of};
ghost use Rattle.litmus_tests.specs.declared.value.Value.TheVariants.{Address};

use crate::fences::{read_fence, total_store_order_fence};
use crate::operands::{last_label, operands_of, register_label, registers_label, two_registers};
use elf_image::RAM_START;
use litmus_tests::Fence;
use litmus_tests::test::MOST_LOCATIONS;
use litmus_words::{
    Fault, Mark, Mnemonic, Stop, Token, Word, address, mark, next, nothing, register, start_of,
    word_number,
};
use numbers::Reg;
use rv_instr::{BranchOp, ImmediateOp, Instr};
use rv_text::{Mnemonic as Row, instr_with};

/// An instruction as it stands in a cell: a branch has the name of its target yet.
#[derive(Clone, Copy, Drop)]
pub(crate) enum Written {
    Straight(Instr),
    Fence(Fence),
    Constant {
        register: Reg,
        value: u32,
    },
    Branch {
        op: BranchOp,
        left: Reg,
        right: Reg,
        label: Word,
    },
}

/// The instruction that these words are.
pub(crate) fn read_instruction(text: &[u8], words: &[Word], end: usize) -> Result<Written, Stop>
    ensures spelled { IfOk result (SpellsInstruction text.now words.now) }
    ensures only { (written : AnyWritten) → SpellsInstruction text.now words.now written
        → Gives result (λ found. found ≡ written) }
{
    let (name, operands) = next(words, end)?;
    let Token::Mnemonic(mnemonic) = name.token else {
        return Err(Stop::at(name.start, Fault::NotOfSubset));
    };
    match mnemonic {
        Mnemonic::Constant => constant(operands, end),
        Mnemonic::LoadAddress => load_address(operands, end),
        Mnemonic::Branch(op) => branch(op, operands, end),
        Mnemonic::SwappedBranch(op) => swapped_branch(op, operands, end),
        Mnemonic::BranchZero(op) => branch_zero(op, operands, end),
        Mnemonic::ZeroBranch(op) => zero_branch(op, operands, end),
        Mnemonic::Jump => jump(operands, end),
        Mnemonic::JumpAndLink => jump_and_link(operands, end),
        Mnemonic::Fence => read_fence(text, operands, end),
        Mnemonic::TotalStoreOrderFence => total_store_order_fence(operands),
        _ => match straight(mnemonic, operands, end) {
            Ok(instr) => Ok(Written::Straight(instr)),
            Err(stop) => Err(stop),
        },
    }
}

/// `li x5,1`.
fn constant(operands: &[Word], end: usize) -> Result<Written, Stop>
    ensures spelled { IfOk result (SpellsWritten name.Constant (tokens operands.now)) }
    ensures label { IfOk result (HasItsLabel operands.now) }
    ensures only { (register value : ℕ) → SpellsConstant (tokens operands.now) register value
        → Gives result (λ found. found ≡ Constant register value) }
{
    let (register, rest) = register(operands, end)?;
    let rest = mark(rest, Mark::Comma, end)?;
    let (value, rest) = word_number(rest, end)?;
    nothing(rest, Fault::NotOfSubset)?;
    Ok(Written::Constant { register, value })
}

/// `la x5,x`: as `li` of the address.
fn load_address(operands: &[Word], end: usize) -> Result<Written, Stop>
    ensures spelled { IfOk result (SpellsWritten name.LoadAddress (tokens operands.now)) }
    ensures label { IfOk result (HasItsLabel operands.now) }
    ensures only { (register value : ℕ) → SpellsLoadAddress (tokens operands.now) register value
        → Gives result (λ found. found ≡ Constant register value) }
{
    let (register, rest) = register(operands, end)?;
    let rest = mark(rest, Mark::Comma, end)?;
    let (byte, behind) = address(rest, end)?;
    nothing(behind, Fault::NotOfSubset)?;
    let value = address_of(byte, start_of(rest, end))?;
    Ok(Written::Constant { register, value })
}

/// The address of a byte of the locations.
fn address_of(byte: usize, at: usize) -> Result<u32, Stop>
    ensures number { IfOk result (λ value. value ≡ number_of (Address byte)) }
    ensures there { OnOk result (byte < 4 * most_locations) }
    ensures refused { IfErr result (λ _. 4 * most_locations ≤ byte) }
{
    if byte >= 4 * MOST_LOCATIONS {
        return Err(Stop::at(at, Fault::NoElement));
    }
    Ok(RAM_START + byte as u32)
}

/// `bne x5,x6,L0`.
fn branch(op: BranchOp, operands: &[Word], end: usize) -> Result<Written, Stop>
    ensures spelled { IfOk result (SpellsWritten (name.Branch op) (tokens operands.now)) }
    ensures label { IfOk result (HasItsLabel operands.now) }
    ensures only { (op' : AnyBranch) → (left right : ℕ) → (label : AnyWord)
        → SpellsBranch (name.Branch op) (tokens operands.now) (Branch op' left right label) → IsLastLabel operands.now label
        → Gives result (λ found. found ≡ Branch op' left right label) }
{
    let (left, right, label) = registers_label(operands, end)?;
    Ok(Written::Branch {
        op,
        left,
        right,
        label,
    })
}

/// `bgt x5,x6,L0`: `blt x6,x5,L0`.
fn swapped_branch(op: BranchOp, operands: &[Word], end: usize) -> Result<Written, Stop>
    ensures spelled { IfOk result (SpellsWritten (name.SwappedBranch op) (tokens operands.now)) }
    ensures label { IfOk result (HasItsLabel operands.now) }
    ensures only { (op' : AnyBranch) → (left right : ℕ) → (label : AnyWord)
        → SpellsBranch (name.SwappedBranch op) (tokens operands.now) (Branch op' left right label) → IsLastLabel operands.now label
        → Gives result (λ found. found ≡ Branch op' left right label) }
{
    let (right, left, label) = registers_label(operands, end)?;
    Ok(Written::Branch {
        op,
        left,
        right,
        label,
    })
}

/// `bnez x5,L0`.
fn branch_zero(op: BranchOp, operands: &[Word], end: usize) -> Result<Written, Stop>
    ensures spelled { IfOk result (SpellsWritten (name.BranchZero op) (tokens operands.now)) }
    ensures label { IfOk result (HasItsLabel operands.now) }
    ensures only { (op' : AnyBranch) → (left right : ℕ) → (label : AnyWord)
        → SpellsBranch (name.BranchZero op) (tokens operands.now) (Branch op' left right label) → IsLastLabel operands.now label
        → Gives result (λ found. found ≡ Branch op' left right label) }
{
    let (left, label) = register_label(operands, end)?;
    Ok(Written::Branch {
        op,
        left,
        right: 0,
        label,
    })
}

/// `bgtz x5,L0`: `blt x0,x5,L0`.
fn zero_branch(op: BranchOp, operands: &[Word], end: usize) -> Result<Written, Stop>
    ensures spelled { IfOk result (SpellsWritten (name.ZeroBranch op) (tokens operands.now)) }
    ensures label { IfOk result (HasItsLabel operands.now) }
    ensures only { (op' : AnyBranch) → (left right : ℕ) → (label : AnyWord)
        → SpellsBranch (name.ZeroBranch op) (tokens operands.now) (Branch op' left right label) → IsLastLabel operands.now label
        → Gives result (λ found. found ≡ Branch op' left right label) }
{
    let (right, label) = register_label(operands, end)?;
    Ok(Written::Branch {
        op,
        left: 0,
        right,
        label,
    })
}

/// `j L0`: `beq x0,x0,L0`.
fn jump(operands: &[Word], end: usize) -> Result<Written, Stop>
    ensures spelled { IfOk result (SpellsWritten name.Jump (tokens operands.now)) }
    ensures label { IfOk result (HasItsLabel operands.now) }
    ensures only { (op' : AnyBranch) → (left right : ℕ) → (label : AnyWord)
        → SpellsBranch name.Jump (tokens operands.now) (Branch op' left right label) → IsLastLabel operands.now label
        → Gives result (λ found. found ≡ Branch op' left right label) }
{
    let label = last_label(operands, end)?;
    Ok(jump_to(label))
}

/// `jal x0,L0`, which is `j L0`. Another register would hold the address of the instruction behind it, and a test has no
/// addresses of code.
fn jump_and_link(operands: &[Word], end: usize) -> Result<Written, Stop>
    ensures spelled { IfOk result (SpellsWritten name.JumpAndLink (tokens operands.now)) }
    ensures label { IfOk result (HasItsLabel operands.now) }
    ensures only { (op' : AnyBranch) → (left right : ℕ) → (label : AnyWord)
        → SpellsBranch name.JumpAndLink (tokens operands.now) (Branch op' left right label) → IsLastLabel operands.now label
        → Gives result (λ found. found ≡ Branch op' left right label) }
{
    let (link, label) = register_label(operands, end)?;
    if link != 0 {
        return Err(Stop::at(start_of(operands, end), Fault::LinkRegister));
    }
    Ok(jump_to(label))
}

/// A branch that is taken.
fn jump_to(label: Word) -> Written
    ensures { result ≡ Branch Beq 0 0 label }
{
    Written::Branch {
        op: BranchOp::Beq,
        left: 0,
        right: 0,
        label,
    }
}

/// The instructions behind which the hart goes on, but for `li`, `la` and fences.
fn straight(mnemonic: Mnemonic, operands: &[Word], end: usize) -> Result<Instr, Stop>
    ensures spelled { IfOk result (SpellsStraight mnemonic (tokens operands.now)) }
    ensures only { (instruction : AnyInstruction) → SpellsStraight mnemonic (tokens operands.now) instruction
        → Gives result (λ found. found ≡ instruction) }
{
    match mnemonic {
        Mnemonic::Row(row) => of_row(row, operands, end),
        Mnemonic::Move => move_register(operands, end),
        Mnemonic::Nothing => no_operation(operands),
        _ => Err(Stop::at(end, Fault::NotOfSubset)),
    }
}

fn of_row(row: Row, operands: &[Word], end: usize) -> Result<Instr, Stop>
    ensures spelled { IfOk result (SpellsRow row (tokens operands.now)) }
    ensures only { (instruction : AnyInstruction) → SpellsRow row (tokens operands.now) instruction
        → Gives result (λ found. found ≡ instruction) }
{
    let operands = operands_of(row, operands, end)?;
    Ok(instr_with(row, operands))
}

fn move_register(operands: &[Word], end: usize) -> Result<Instr, Stop>
    ensures spelled { IfOk result (SpellsStraight name.Move (tokens operands.now)) }
    ensures only { (rd rs1 : ℕ) → tokens operands.now ≡ pair rd rs1
        → Gives result (λ found. found ≡ instr.Immediate immediate_op.Addi rd rs1 (pos 0)) }
{
    let (rd, rs1) = two_registers(operands, end)?;
    Ok(addition(rd, rs1))
}

fn no_operation(operands: &[Word]) -> Result<Instr, Stop>
    ensures spelled { IfOk result (SpellsStraight name.Nothing (tokens operands.now)) }
    ensures only { tokens operands.now ≡ []
        → Gives result (λ found. found ≡ instr.Immediate immediate_op.Addi 0 0 (pos 0)) }
{
    nothing(operands, Fault::NotOfSubset)?;
    Ok(addition(0, 0))
}

/// `addi rd,rs1,0`.
fn addition(rd: Reg, rs1: Reg) -> Instr
    ensures { result ≡ instr.Immediate immediate_op.Addi rd rs1 (pos 0) }
{
    Instr::Immediate {
        op: ImmediateOp::Addi,
        rd,
        rs1,
        imm: 0,
    }
}
