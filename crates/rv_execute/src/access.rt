//! The access of an instruction: how many bytes it moves, whether it reads, and what it makes of
//! the number that it reads (RISC-V Unprivileged ISA, chapters "RV32I" and "A").

ghost use Rattle.std.specs.Prelude.{◌≡◌};
ghost use Rattle.smt_model.specs.Bytes.{load_value, read_value};
ghost use Rattle.smt_model.specs.Effects.{atomic_result};
ghost use Rattle.smt_model.specs.Kinds.{load_size, store_size, access_size};
ghost use Rattle.rv_execute.specs.Access.{IsSize, reads_memory};

use rv_instr::{Instr, Kind, LoadOp, Op, StoreOp};
use rv_word::{amo, sext};

/// How many bytes the access of an instruction moves: 1, 2 or 4.
#[tactic(auto, unfolding(smt_model::specs::Kinds::access_size))]
pub fn access_size(op: Op) -> u8
    ensures value { result ≡ access_size op }
    ensures size { IsSize result }
{
    match op {
        Op::Known(Instr::Load { op, .. }) => load_size(op),
        Op::Known(Instr::Store { op, .. }) => store_size(op),
        Op::Known(_) | Op::Illegal | Op::NoWord => 4,
    }
}

fn load_size(op: LoadOp) -> u8
    ensures value { result ≡ load_size op }
    ensures size { IsSize result }
{
    match op {
        LoadOp::Lb | LoadOp::Lbu => 1,
        LoadOp::Lh | LoadOp::Lhu => 2,
        LoadOp::Lw => 4,
    }
}

fn store_size(op: StoreOp) -> u8
    ensures value { result ≡ store_size op }
    ensures size { IsSize result }
{
    match op {
        StoreOp::Sb => 1,
        StoreOp::Sh => 2,
        StoreOp::Sw => 4,
    }
}

/// Whether the access of an instruction of this kind reads memory: loads, LR and AMO do.
pub fn reads_memory(kind: Kind) -> bool
    ensures { result ≡ reads_memory kind }
{
    matches!(kind, Kind::Loading | Kind::Reserving | Kind::Atomic)
}

/// What an instruction makes of the number that it has read: LB and LH extend its sign.
#[tactic(auto, unfolding(smt_model::specs::Bytes::read_value))]
pub fn read_value(op: Op, number: u32) -> u32
    ensures { result ≡ read_value op number }
{
    match op {
        Op::Known(Instr::Load { op, .. }) => load_value(op, number),
        Op::Known(_) | Op::Illegal | Op::NoWord => number,
    }
}

fn load_value(op: LoadOp, number: u32) -> u32
    ensures { result ≡ load_value op number }
{
    match op {
        LoadOp::Lb => sext(number, 8),
        LoadOp::Lh => sext(number, 16),
        LoadOp::Lw | LoadOp::Lbu | LoadOp::Lhu => number,
    }
}

/// The word that an AMO writes where `old` was. What is no AMO hands its operand on.
pub fn atomic_result(op: Op, old: u32, operand: u32) -> u32
    ensures { result ≡ atomic_result op old operand }
{
    match op {
        Op::Known(Instr::Amo { kind, .. }) => amo(kind, old, operand),
        Op::Known(_) | Op::Illegal | Op::NoWord => operand,
    }
}
