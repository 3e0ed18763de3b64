//! The funct fields of each operation, read (`.._operation`) and written (`.._funct3` and so on).

ghost use Rattle.std.specs.Prelude.{◌≡◌, ◌<◌, IfSome};
ghost use Rattle.rv_instr.specs.Table.{
  branch_row,
  load_row,
  store_row,
  immediate_row,
  shift_row,
  register_row,
  muldiv_row,
  amo_row,
};
ghost use Rattle.rv_instr.specs.Decode.{
  branch_op,
  load_op,
  store_op,
  immediate_op,
  shift_op,
  register_op,
  muldiv_op,
  amo_kind,
};

use rv_instr::{BranchOp, ImmediateOp, LoadOp, MulDivOp, RegisterOp, ShiftOp, StoreOp};
use rv_word::AmoKind;

#[tactic(auto, unfolding(rv_instr::specs::Decode::branch_op))]
pub(crate) fn branch_operation(funct3: u32) -> Option<BranchOp>
    ensures value { result ≡ branch_op funct3 }
    ensures found { IfSome result (λ op. funct3 ≡ branch_row op) }
    ensures only { (op : _) → funct3 ≡ branch_row op → result ≡ Some op }
{
    Some(match funct3 {
        0b000 => BranchOp::Beq,
        0b001 => BranchOp::Bne,
        0b100 => BranchOp::Blt,
        0b101 => BranchOp::Bge,
        0b110 => BranchOp::Bltu,
        0b111 => BranchOp::Bgeu,
        _ => return None,
    })
}

pub(crate) fn branch_funct3(op: BranchOp) -> u32
    ensures row { result ≡ branch_row op }
    ensures below { result < 8 }
{
    match op {
        BranchOp::Beq => 0b000,
        BranchOp::Bne => 0b001,
        BranchOp::Blt => 0b100,
        BranchOp::Bge => 0b101,
        BranchOp::Bltu => 0b110,
        BranchOp::Bgeu => 0b111,
    }
}

#[tactic(auto, unfolding(rv_instr::specs::Decode::load_op))]
pub(crate) fn load_operation(funct3: u32) -> Option<LoadOp>
    ensures value { result ≡ load_op funct3 }
    ensures found { IfSome result (λ op. funct3 ≡ load_row op) }
    ensures only { (op : _) → funct3 ≡ load_row op → result ≡ Some op }
{
    Some(match funct3 {
        0b000 => LoadOp::Lb,
        0b001 => LoadOp::Lh,
        0b010 => LoadOp::Lw,
        0b100 => LoadOp::Lbu,
        0b101 => LoadOp::Lhu,
        _ => return None,
    })
}

pub(crate) fn load_funct3(op: LoadOp) -> u32
    ensures row { result ≡ load_row op }
    ensures below { result < 8 }
{
    match op {
        LoadOp::Lb => 0b000,
        LoadOp::Lh => 0b001,
        LoadOp::Lw => 0b010,
        LoadOp::Lbu => 0b100,
        LoadOp::Lhu => 0b101,
    }
}

#[tactic(auto, unfolding(rv_instr::specs::Decode::store_op))]
pub(crate) fn store_operation(funct3: u32) -> Option<StoreOp>
    ensures value { result ≡ store_op funct3 }
    ensures found { IfSome result (λ op. funct3 ≡ store_row op) }
    ensures only { (op : _) → funct3 ≡ store_row op → result ≡ Some op }
{
    Some(match funct3 {
        0b000 => StoreOp::Sb,
        0b001 => StoreOp::Sh,
        0b010 => StoreOp::Sw,
        _ => return None,
    })
}

pub(crate) fn store_funct3(op: StoreOp) -> u32
    ensures row { result ≡ store_row op }
    ensures below { result < 8 }
{
    match op {
        StoreOp::Sb => 0b000,
        StoreOp::Sh => 0b001,
        StoreOp::Sw => 0b010,
    }
}

#[tactic(auto, unfolding(rv_instr::specs::Decode::immediate_op))]
pub(crate) fn immediate_operation(funct3: u32) -> Option<ImmediateOp>
    ensures value { result ≡ immediate_op funct3 }
    ensures found { IfSome result (λ op. funct3 ≡ immediate_row op) }
    ensures only { (op : _) → funct3 ≡ immediate_row op → result ≡ Some op }
{
    Some(match funct3 {
        0b000 => ImmediateOp::Addi,
        0b010 => ImmediateOp::Slti,
        0b011 => ImmediateOp::Sltiu,
        0b100 => ImmediateOp::Xori,
        0b110 => ImmediateOp::Ori,
        0b111 => ImmediateOp::Andi,
        _ => return None,
    })
}

pub(crate) fn immediate_funct3(op: ImmediateOp) -> u32
    ensures row { result ≡ immediate_row op }
    ensures below { result < 8 }
{
    match op {
        ImmediateOp::Addi => 0b000,
        ImmediateOp::Slti => 0b010,
        ImmediateOp::Sltiu => 0b011,
        ImmediateOp::Xori => 0b100,
        ImmediateOp::Ori => 0b110,
        ImmediateOp::Andi => 0b111,
    }
}

#[tactic(auto, unfolding(rv_instr::specs::Decode::shift_op))]
pub(crate) fn shift_operation(funct7: u32, funct3: u32) -> Option<ShiftOp>
    ensures value { result ≡ shift_op funct7 funct3 }
    ensures found { IfSome result
        (λ op. (funct7 ≡ (shift_row op).0) × (funct3 ≡ (shift_row op).1)) }
    ensures only { (op : _) → funct7 ≡ (shift_row op).0 → funct3 ≡ (shift_row op).1
        → result ≡ Some op }
{
    Some(match (funct7, funct3) {
        (0b0000000, 0b001) => ShiftOp::Slli,
        (0b0000000, 0b101) => ShiftOp::Srli,
        (0b0100000, 0b101) => ShiftOp::Srai,
        _ => return None,
    })
}

pub(crate) fn shift_functs(op: ShiftOp) -> (u32, u32)
    ensures funct7 { result.0 ≡ (shift_row op).0 }
    ensures funct3 { result.1 ≡ (shift_row op).1 }
    ensures funct7_below { result.0 < 128 }
    ensures funct3_below { result.1 < 8 }
{
    match op {
        ShiftOp::Slli => (0b0000000, 0b001),
        ShiftOp::Srli => (0b0000000, 0b101),
        ShiftOp::Srai => (0b0100000, 0b101),
    }
}

#[tactic(auto, unfolding(rv_instr::specs::Decode::register_op))]
pub(crate) fn register_operation(funct7: u32, funct3: u32) -> Option<RegisterOp>
    ensures value { result ≡ register_op funct7 funct3 }
    ensures found { IfSome result
        (λ op. (funct7 ≡ (register_row op).0) × (funct3 ≡ (register_row op).1)) }
    ensures only { (op : _) → funct7 ≡ (register_row op).0 → funct3 ≡ (register_row op).1
        → result ≡ Some op }
{
    Some(match (funct7, funct3) {
        (0b0000000, 0b000) => RegisterOp::Add,
        (0b0000000, 0b001) => RegisterOp::Sll,
        (0b0000000, 0b010) => RegisterOp::Slt,
        (0b0000000, 0b011) => RegisterOp::Sltu,
        (0b0000000, 0b100) => RegisterOp::Xor,
        (0b0000000, 0b101) => RegisterOp::Srl,
        (0b0000000, 0b110) => RegisterOp::Or,
        (0b0000000, 0b111) => RegisterOp::And,
        (0b0100000, 0b000) => RegisterOp::Sub,
        (0b0100000, 0b101) => RegisterOp::Sra,
        _ => return None,
    })
}

pub(crate) fn register_functs(op: RegisterOp) -> (u32, u32)
    ensures funct7 { result.0 ≡ (register_row op).0 }
    ensures funct3 { result.1 ≡ (register_row op).1 }
    ensures funct7_below { result.0 < 128 }
    ensures funct3_below { result.1 < 8 }
{
    match op {
        RegisterOp::Add => (0b0000000, 0b000),
        RegisterOp::Sll => (0b0000000, 0b001),
        RegisterOp::Slt => (0b0000000, 0b010),
        RegisterOp::Sltu => (0b0000000, 0b011),
        RegisterOp::Xor => (0b0000000, 0b100),
        RegisterOp::Srl => (0b0000000, 0b101),
        RegisterOp::Or => (0b0000000, 0b110),
        RegisterOp::And => (0b0000000, 0b111),
        RegisterOp::Sub => (0b0100000, 0b000),
        RegisterOp::Sra => (0b0100000, 0b101),
    }
}

#[tactic(auto, unfolding(rv_instr::specs::Decode::muldiv_op))]
pub(crate) fn muldiv_operation(funct3: u32) -> Option<MulDivOp>
    ensures value { result ≡ muldiv_op funct3 }
    ensures found { IfSome result (λ op. funct3 ≡ muldiv_row op) }
    ensures only { (op : _) → funct3 ≡ muldiv_row op → result ≡ Some op }
{
    Some(match funct3 {
        0b000 => MulDivOp::Mul,
        0b001 => MulDivOp::Mulh,
        0b010 => MulDivOp::Mulhsu,
        0b011 => MulDivOp::Mulhu,
        0b100 => MulDivOp::Div,
        0b101 => MulDivOp::Divu,
        0b110 => MulDivOp::Rem,
        0b111 => MulDivOp::Remu,
        _ => return None,
    })
}

pub(crate) fn muldiv_funct3(op: MulDivOp) -> u32
    ensures row { result ≡ muldiv_row op }
    ensures below { result < 8 }
{
    match op {
        MulDivOp::Mul => 0b000,
        MulDivOp::Mulh => 0b001,
        MulDivOp::Mulhsu => 0b010,
        MulDivOp::Mulhu => 0b011,
        MulDivOp::Div => 0b100,
        MulDivOp::Divu => 0b101,
        MulDivOp::Rem => 0b110,
        MulDivOp::Remu => 0b111,
    }
}

#[tactic(auto, unfolding(rv_instr::specs::Decode::amo_kind))]
pub(crate) fn amo_operation(funct5: u32) -> Option<AmoKind>
    ensures value { result ≡ amo_kind funct5 }
    ensures found { IfSome result (λ kind. funct5 ≡ amo_row kind) }
    ensures only { (kind : _) → funct5 ≡ amo_row kind → result ≡ Some kind }
{
    Some(match funct5 {
        0b00000 => AmoKind::Add,
        0b00001 => AmoKind::Swap,
        0b00100 => AmoKind::Xor,
        0b01000 => AmoKind::Or,
        0b01100 => AmoKind::And,
        0b10000 => AmoKind::Min,
        0b10100 => AmoKind::Max,
        0b11000 => AmoKind::Minu,
        0b11100 => AmoKind::Maxu,
        _ => return None,
    })
}

pub(crate) fn amo_funct5(kind: AmoKind) -> u32
    ensures row { result ≡ amo_row kind }
    ensures below { result < 32 }
{
    match kind {
        AmoKind::Add => 0b00000,
        AmoKind::Swap => 0b00001,
        AmoKind::Xor => 0b00100,
        AmoKind::Or => 0b01000,
        AmoKind::And => 0b01100,
        AmoKind::Min => 0b10000,
        AmoKind::Max => 0b10100,
        AmoKind::Minu => 0b11000,
        AmoKind::Maxu => 0b11100,
    }
}
