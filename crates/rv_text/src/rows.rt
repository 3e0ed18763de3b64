//! The row that a name belongs to.

ghost use Rattle.std.specs.Prelude.{◌≡◌, IfSome, IfNone, Some};
ghost use Rattle.rv_text.specs.Mnemonic.{
  branch_name,
  load_name,
  store_name,
  immediate_name,
  shift_name,
  register_name,
  mul_div_name,
  atomic_name,
  ordering_name,
  mnemonic_name,
};
ghost use Rattle.rv_text.specs.Reading.{IsPlain, IsAlone};

use crate::mnemonic::{AtomicOp, Mnemonic};
use rv_instr::{BranchOp, ImmediateOp, LoadOp, MulDivOp, Ordering, RegisterOp, ShiftOp, StoreOp};
use rv_word::AmoKind;

/// The row with this name, which has no dot.
fn plain(text: &str) -> Option<Mnemonic>
    ensures found { IfSome result (λ m. (text.now ≡ mnemonic_name m) × IsPlain m) }
    ensures none { IfNone result ((m : _) → IsPlain m → text.now ≡ mnemonic_name m → ⊥) }
{
    if let Some(op) = branch_named(text) {
        return Some(Mnemonic::Branch(op));
    }
    if let Some(op) = load_named(text) {
        return Some(Mnemonic::Load(op));
    }
    if let Some(op) = store_named(text) {
        return Some(Mnemonic::Store(op));
    }
    if let Some(op) = immediate_named(text) {
        return Some(Mnemonic::Immediate(op));
    }
    if let Some(op) = shift_named(text) {
        return Some(Mnemonic::Shift(op));
    }
    if let Some(op) = register_named(text) {
        return Some(Mnemonic::Register(op));
    }
    if let Some(op) = mul_div_named(text) {
        return Some(Mnemonic::MulDiv(op));
    }
    alone_named(text)
}

/// The row with this name that shares its format's operands with no other.
fn alone_named(text: &str) -> Option<Mnemonic>
    ensures found { IfSome result (λ m. (text.now ≡ mnemonic_name m) × IsAlone m) }
    ensures none { IfNone result ((m : _) → IsAlone m → text.now ≡ mnemonic_name m → ⊥) }
{
    Some(match text {
        "lui" => Mnemonic::Lui,
        "auipc" => Mnemonic::Auipc,
        "jal" => Mnemonic::Jal,
        "jalr" => Mnemonic::Jalr,
        "fence" => Mnemonic::Fence,
        "ecall" => Mnemonic::Ecall,
        "ebreak" => Mnemonic::Ebreak,
        _ => return None,
    })
}

fn branch_named(text: &str) -> Option<BranchOp>
    ensures found { IfSome result (λ op. text.now ≡ branch_name op) }
    ensures none { IfNone result ((op : _) → text.now ≡ branch_name op → ⊥) }
{
    Some(match text {
        "beq" => BranchOp::Beq,
        "bne" => BranchOp::Bne,
        "blt" => BranchOp::Blt,
        "bge" => BranchOp::Bge,
        "bltu" => BranchOp::Bltu,
        "bgeu" => BranchOp::Bgeu,
        _ => return None,
    })
}

fn load_named(text: &str) -> Option<LoadOp>
    ensures found { IfSome result (λ op. text.now ≡ load_name op) }
    ensures none { IfNone result ((op : _) → text.now ≡ load_name op → ⊥) }
{
    Some(match text {
        "lb" => LoadOp::Lb,
        "lh" => LoadOp::Lh,
        "lw" => LoadOp::Lw,
        "lbu" => LoadOp::Lbu,
        "lhu" => LoadOp::Lhu,
        _ => return None,
    })
}

fn store_named(text: &str) -> Option<StoreOp>
    ensures found { IfSome result (λ op. text.now ≡ store_name op) }
    ensures none { IfNone result ((op : _) → text.now ≡ store_name op → ⊥) }
{
    Some(match text {
        "sb" => StoreOp::Sb,
        "sh" => StoreOp::Sh,
        "sw" => StoreOp::Sw,
        _ => return None,
    })
}

fn immediate_named(text: &str) -> Option<ImmediateOp>
    ensures found { IfSome result (λ op. text.now ≡ immediate_name op) }
    ensures none { IfNone result ((op : _) → text.now ≡ immediate_name op → ⊥) }
{
    Some(match text {
        "addi" => ImmediateOp::Addi,
        "slti" => ImmediateOp::Slti,
        "sltiu" => ImmediateOp::Sltiu,
        "xori" => ImmediateOp::Xori,
        "ori" => ImmediateOp::Ori,
        "andi" => ImmediateOp::Andi,
        _ => return None,
    })
}

fn shift_named(text: &str) -> Option<ShiftOp>
    ensures found { IfSome result (λ op. text.now ≡ shift_name op) }
    ensures none { IfNone result ((op : _) → text.now ≡ shift_name op → ⊥) }
{
    Some(match text {
        "slli" => ShiftOp::Slli,
        "srli" => ShiftOp::Srli,
        "srai" => ShiftOp::Srai,
        _ => return None,
    })
}

fn register_named(text: &str) -> Option<RegisterOp>
    ensures found { IfSome result (λ op. text.now ≡ register_name op) }
    ensures none { IfNone result ((op : _) → text.now ≡ register_name op → ⊥) }
{
    Some(match text {
        "add" => RegisterOp::Add,
        "sub" => RegisterOp::Sub,
        "sll" => RegisterOp::Sll,
        "slt" => RegisterOp::Slt,
        "sltu" => RegisterOp::Sltu,
        "xor" => RegisterOp::Xor,
        "srl" => RegisterOp::Srl,
        "sra" => RegisterOp::Sra,
        "or" => RegisterOp::Or,
        "and" => RegisterOp::And,
        _ => return None,
    })
}

fn mul_div_named(text: &str) -> Option<MulDivOp>
    ensures found { IfSome result (λ op. text.now ≡ mul_div_name op) }
    ensures none { IfNone result ((op : _) → text.now ≡ mul_div_name op → ⊥) }
{
    Some(match text {
        "mul" => MulDivOp::Mul,
        "mulh" => MulDivOp::Mulh,
        "mulhsu" => MulDivOp::Mulhsu,
        "mulhu" => MulDivOp::Mulhu,
        "div" => MulDivOp::Div,
        "divu" => MulDivOp::Divu,
        "rem" => MulDivOp::Rem,
        "remu" => MulDivOp::Remu,
        _ => return None,
    })
}

/// The atomic with this name, which stands before its width and its ordering bits.
pub fn atomic_named(text: &str) -> Option<AtomicOp>
    ensures found { IfSome result (λ op. text.now ≡ atomic_name op) }
    ensures none { IfNone result ((op : _) → text.now ≡ atomic_name op → ⊥) }
{
    Some(match text {
        "lr" => AtomicOp::LoadReserved,
        "sc" => AtomicOp::StoreConditional,
        "amoswap" => AtomicOp::Amo(AmoKind::Swap),
        "amoadd" => AtomicOp::Amo(AmoKind::Add),
        "amoxor" => AtomicOp::Amo(AmoKind::Xor),
        "amoand" => AtomicOp::Amo(AmoKind::And),
        "amoor" => AtomicOp::Amo(AmoKind::Or),
        "amomin" => AtomicOp::Amo(AmoKind::Min),
        "amomax" => AtomicOp::Amo(AmoKind::Max),
        "amominu" => AtomicOp::Amo(AmoKind::Minu),
        "amomaxu" => AtomicOp::Amo(AmoKind::Maxu),
        _ => return None,
    })
}

fn ordering(text: &str) -> Option<Ordering>
    ensures found { IfSome result (λ ordering. text.now ≡ ordering_name ordering) }
    ensures none { IfNone result ((ordering : _) → text.now ≡ ordering_name ordering → ⊥) }
{
    let (aq, rl) = match text {
        "w" => (false, false),
        "w.aq" => (true, false),
        "w.rl" => (false, true),
        "w.aqrl" => (true, true),
        _ => return None,
    };
    Some(Ordering { aq, rl })
}

/// The row whose name the text is.
pub fn mnemonic_named(text: &str) -> Option<Mnemonic>
    ensures found { IfSome result (λ m. text.now ≡ mnemonic_name m) }
    ensures only { (m : _) → text.now ≡ mnemonic_name m → result ≡ Some m }
{
    if text == "fence.i" {
        return Some(Mnemonic::InstructionFence);
    }
    let Some((name, bits)) = text.split_once('.') else {
        return plain(text);
    };
    Some(Mnemonic::Atomic(atomic_named(name)?, ordering(bits)?))
}
