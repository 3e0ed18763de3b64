ghost use Rattle.std.specs.Prelude.{◌≡◌, ◌≤◌, length};
ghost use Rattle.rv_text.specs.Mnemonic.{
  branch_name,
  load_name,
  store_name,
  immediate_name,
  shift_name,
  register_name,
  mul_div_name,
  amo_name,
  atomic_name,
  ordering_name,
};

use rv_instr::{BranchOp, ImmediateOp, LoadOp, MulDivOp, Ordering, RegisterOp, ShiftOp, StoreOp};
use rv_word::AmoKind;

/// The name that a line of text begins with. The ordering bits of an atomic are a part of its name.
#[derive(Clone, Copy, Drop)]
pub enum Mnemonic {
    Lui,
    Auipc,
    Jal,
    Jalr,
    Branch(BranchOp),
    Load(LoadOp),
    Store(StoreOp),
    Immediate(ImmediateOp),
    Shift(ShiftOp),
    Register(RegisterOp),
    MulDiv(MulDivOp),
    Fence,
    InstructionFence,
    Ecall,
    Ebreak,
    Atomic(AtomicOp, Ordering),
}

/// The name of an atomic before its width and its ordering bits.
#[derive(Clone, Copy, Drop)]
pub enum AtomicOp {
    LoadReserved,
    StoreConditional,
    Amo(AmoKind),
}

pub(crate) fn branch_name(op: BranchOp) -> &'static str
    ensures name { result.now ≡ branch_name op }
    ensures short { length result.now ≤ 7 }
{
    match op {
        BranchOp::Beq => "beq",
        BranchOp::Bne => "bne",
        BranchOp::Blt => "blt",
        BranchOp::Bge => "bge",
        BranchOp::Bltu => "bltu",
        BranchOp::Bgeu => "bgeu",
    }
}

pub(crate) fn load_name(op: LoadOp) -> &'static str
    ensures name { result.now ≡ load_name op }
    ensures short { length result.now ≤ 7 }
{
    match op {
        LoadOp::Lb => "lb",
        LoadOp::Lh => "lh",
        LoadOp::Lw => "lw",
        LoadOp::Lbu => "lbu",
        LoadOp::Lhu => "lhu",
    }
}

pub(crate) fn store_name(op: StoreOp) -> &'static str
    ensures name { result.now ≡ store_name op }
    ensures short { length result.now ≤ 7 }
{
    match op {
        StoreOp::Sb => "sb",
        StoreOp::Sh => "sh",
        StoreOp::Sw => "sw",
    }
}

pub(crate) fn immediate_name(op: ImmediateOp) -> &'static str
    ensures name { result.now ≡ immediate_name op }
    ensures short { length result.now ≤ 7 }
{
    match op {
        ImmediateOp::Addi => "addi",
        ImmediateOp::Slti => "slti",
        ImmediateOp::Sltiu => "sltiu",
        ImmediateOp::Xori => "xori",
        ImmediateOp::Ori => "ori",
        ImmediateOp::Andi => "andi",
    }
}

pub(crate) fn shift_name(op: ShiftOp) -> &'static str
    ensures name { result.now ≡ shift_name op }
    ensures short { length result.now ≤ 7 }
{
    match op {
        ShiftOp::Slli => "slli",
        ShiftOp::Srli => "srli",
        ShiftOp::Srai => "srai",
    }
}

pub(crate) fn register_name(op: RegisterOp) -> &'static str
    ensures name { result.now ≡ register_name op }
    ensures short { length result.now ≤ 7 }
{
    match op {
        RegisterOp::Add => "add",
        RegisterOp::Sub => "sub",
        RegisterOp::Sll => "sll",
        RegisterOp::Slt => "slt",
        RegisterOp::Sltu => "sltu",
        RegisterOp::Xor => "xor",
        RegisterOp::Srl => "srl",
        RegisterOp::Sra => "sra",
        RegisterOp::Or => "or",
        RegisterOp::And => "and",
    }
}

pub(crate) fn mul_div_name(op: MulDivOp) -> &'static str
    ensures name { result.now ≡ mul_div_name op }
    ensures short { length result.now ≤ 7 }
{
    match op {
        MulDivOp::Mul => "mul",
        MulDivOp::Mulh => "mulh",
        MulDivOp::Mulhsu => "mulhsu",
        MulDivOp::Mulhu => "mulhu",
        MulDivOp::Div => "div",
        MulDivOp::Divu => "divu",
        MulDivOp::Rem => "rem",
        MulDivOp::Remu => "remu",
    }
}

fn amo_name(kind: AmoKind) -> &'static str
    ensures name { result.now ≡ amo_name kind }
    ensures short { length result.now ≤ 7 }
{
    match kind {
        AmoKind::Swap => "amoswap",
        AmoKind::Add => "amoadd",
        AmoKind::Xor => "amoxor",
        AmoKind::And => "amoand",
        AmoKind::Or => "amoor",
        AmoKind::Min => "amomin",
        AmoKind::Max => "amomax",
        AmoKind::Minu => "amominu",
        AmoKind::Maxu => "amomaxu",
    }
}

pub(crate) fn atomic_name(op: AtomicOp) -> &'static str
    ensures name { result.now ≡ atomic_name op }
    ensures short { length result.now ≤ 7 }
{
    match op {
        AtomicOp::LoadReserved => "lr",
        AtomicOp::StoreConditional => "sc",
        AtomicOp::Amo(kind) => amo_name(kind),
    }
}

pub(crate) fn ordering_name(ordering: Ordering) -> &'static str
    ensures name { result.now ≡ ordering_name ordering }
    ensures short { length result.now ≤ 7 }
{
    match (ordering.aq, ordering.rl) {
        (false, false) => "w",
        (true, false) => "w.aq",
        (false, true) => "w.rl",
        (true, true) => "w.aqrl",
    }
}
