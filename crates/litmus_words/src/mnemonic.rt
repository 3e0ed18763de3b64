//! The names of instructions: rows of the instruction table, which `rv_text` names, and what assemblers write beside.

ghost use Rattle.std.specs.Prelude.{◌≡◌, IfNone, IfSome};
ghost use Rattle.rv_text.specs.declared.mnemonic.{Mnemonic.Mnemonic as AnyRow};
ghost use Rattle.litmus_words.specs.declared.mnemonic.Mnemonic.{Mnemonic as AnyMnemonic};
ghost use Rattle.litmus_words.specs.Mnemonics.{
  HasDotBetween,
  IsNamed,
  IsOtherBranch,
  IsOtherName,
  IsOfRow,
  IsRowNamed,
  is_taken,
};

use rv_instr::{BranchOp, Ordering};
use rv_text::{Mnemonic as Row, atomic_named};

/// What an instruction does, as its name says.
#[derive(Clone, Copy, Drop)]
pub enum Mnemonic {
    /// A row of the instruction table whose operands are registers and numbers.
    Row(Row),
    /// Of two registers, to a label.
    Branch(BranchOp),
    /// The same of the second register and the first: `bgt`, `ble`, `bgtu`, `bleu`.
    SwappedBranch(BranchOp),
    /// With two sets of accesses, or none.
    Fence,
    /// `li`.
    Constant,
    /// `la`.
    LoadAddress,
    /// `mv`.
    Move,
    /// `nop`.
    Nothing,
    /// Of one register and 0: `beqz`, `bnez`, `bltz`, `bgez`.
    BranchZero(BranchOp),
    /// Of 0 and one register: `bgtz`, `blez`.
    ZeroBranch(BranchOp),
    /// `j`.
    Jump,
    /// `jal`, of a link register and a label.
    JumpAndLink,
    /// `fence.tso`, which has no operands.
    TotalStoreOrderFence,
}

/// The instruction of this name.
pub fn mnemonic_named(name: &str) -> Option<Mnemonic>
    ensures found { IfSome result (IsNamed name.now) }
    ensures none { IfNone result ((mnemonic : AnyMnemonic) → IsNamed name.now mnemonic → ⊥) }
{
    if let Some(mnemonic) = pseudo_named(name) {
        return Some(mnemonic);
    }
    if let Some(mnemonic) = branch_named(name) {
        return Some(mnemonic);
    }
    match row_named(name) {
        Some(row) => of_row(row),
        None => None,
    }
}

/// Of the names that no row has.
fn pseudo_named(name: &str) -> Option<Mnemonic>
    ensures found { IfSome result (IsOtherName name.now) }
    ensures none { IfNone result ((mnemonic : AnyMnemonic) → IsOtherName name.now mnemonic → ⊥) }
{
    Some(match name {
        "li" => Mnemonic::Constant,
        "la" => Mnemonic::LoadAddress,
        "mv" => Mnemonic::Move,
        "nop" => Mnemonic::Nothing,
        "j" => Mnemonic::Jump,
        "fence.tso" => Mnemonic::TotalStoreOrderFence,
        _ => return None,
    })
}

/// Of the branches that no row has.
fn branch_named(name: &str) -> Option<Mnemonic>
    ensures found { IfSome result (IsOtherBranch name.now) }
    ensures none { IfNone result ((mnemonic : AnyMnemonic) → IsOtherBranch name.now mnemonic → ⊥) }
{
    Some(match name {
        "beqz" => Mnemonic::BranchZero(BranchOp::Beq),
        "bnez" => Mnemonic::BranchZero(BranchOp::Bne),
        "bltz" => Mnemonic::BranchZero(BranchOp::Blt),
        "bgez" => Mnemonic::BranchZero(BranchOp::Bge),
        "bgtz" => Mnemonic::ZeroBranch(BranchOp::Blt),
        "blez" => Mnemonic::ZeroBranch(BranchOp::Bge),
        "bgt" => Mnemonic::SwappedBranch(BranchOp::Blt),
        "ble" => Mnemonic::SwappedBranch(BranchOp::Bge),
        "bgtu" => Mnemonic::SwappedBranch(BranchOp::Bltu),
        "bleu" => Mnemonic::SwappedBranch(BranchOp::Bgeu),
        _ => return None,
    })
}

/// The row of this name.
fn row_named(name: &str) -> Option<Row>
    ensures found { IfSome result (IsRowNamed name.now) }
    ensures none { IfNone result ((row : AnyRow) → IsRowNamed name.now row → ⊥) }
{
    if let Some(row) = rv_text::mnemonic_named(name) {
        return Some(row);
    }
    dotted_named(name)
}

/// The atomic of this name, in which both ordering bits stand with a dot between.
fn dotted_named(name: &str) -> Option<Row>
    ensures found { IfSome result (HasDotBetween name.now) }
    ensures none { IfNone result ((row : AnyRow) → HasDotBetween name.now row → ⊥) }
{
    let Some((stem, bits)) = name.split_once('.') else {
        return None;
    };
    if bits != "w.aq.rl" {
        return None;
    }
    match atomic_named(stem) {
        Some(op) => Some(Row::Atomic(op, Ordering { aq: true, rl: true })),
        None => None,
    }
}

/// What a row is in a litmus test, if it is of the subset.
fn of_row(row: Row) -> Option<Mnemonic>
    ensures found { IfSome result (IsOfRow row) }
    ensures none { IfNone result ((mnemonic : AnyMnemonic) → IsOfRow row mnemonic → ⊥) }
{
    match row {
        Row::Branch(op) => Some(Mnemonic::Branch(op)),
        Row::Fence => Some(Mnemonic::Fence),
        Row::Jal => Some(Mnemonic::JumpAndLink),
        _ => {
            if is_taken(row) {
                return Some(Mnemonic::Row(row));
            }
            None
        }
    }
}

/// Whether the operands of a row are registers and numbers, and the hart goes on behind it wherever it stands.
fn is_taken(row: Row) -> bool
    ensures { result ≡ is_taken row }
{
    match row {
        Row::Lui
        | Row::Load(_)
        | Row::Store(_)
        | Row::Immediate(_)
        | Row::Shift(_)
        | Row::Register(_)
        | Row::MulDiv(_)
        | Row::Atomic(..) => true,
        Row::Auipc
        | Row::Jal
        | Row::Jalr
        | Row::Branch(_)
        | Row::Fence
        | Row::InstructionFence
        | Row::Ecall
        | Row::Ebreak => false,
    }
}
