//! What a step shows to other harts.

ghost use Rattle.std.specs.Prelude.{◌≡◌, None, true, false};
ghost use Rattle.shared_memory.specs.Contents.{byte_of};
ghost use Rattle.smt_model.specs.Bytes.{number_at};
ghost use Rattle.smt_model.specs.Faults.{fault};
ghost use Rattle.rv_execute.specs.Access.{reads_memory};
ghost use Rattle.smt_model.specs.Kinds.{access_size, kind_of};
ghost use Rattle.smt_model.specs.Nexts.{is_last};
ghost use Rattle.stories.specs.Deeds.{atomic, conditional, deed_by, deed_of_instr, deed_of_op, stored};

use events::{Cause, Effect, Next, Written};
use rv_execute::access_size;
use rv_instr::{Instr, LoadOp, Op, StoreOp};
use rv_word::AmoKind;
use shared_memory::Memory;

/// What a step shows to other harts. Addresses are those of its access; numbers are as memory has them, so that of a
/// byte or a half isn't extended.
#[derive(Clone, Copy, PartialEq, Eq, Drop)]
pub enum Deed {
    /// A load, with what memory had there.
    Loaded {
        op: LoadOp,
        addr: u32,
        number: u32,
    },
    /// LR, with what memory had there.
    Reserved {
        addr: u32,
        number: u32,
    },
    /// A store, with what memory has there now.
    Stored {
        op: StoreOp,
        addr: u32,
        number: u32,
    },
    /// An SC that has written this.
    Conditional {
        addr: u32,
        number: u32,
    },
    /// An SC that has written nothing.
    Failed {
        addr: u32,
    },
    /// An AMO, with what memory had there, and what it has now.
    Atomic {
        kind: AmoKind,
        addr: u32,
        old: u32,
        new: u32,
    },
    /// A byte put out.
    Out(u8),
    /// The end of its hart, with this number.
    Ended(u32),
    /// Its hart stops, for this cause.
    Stopped(Cause),
}

/// What an instruction with this effect shows, whose access is at `addr`, on memory as it is before.
pub(crate) fn deed_by(memory: &Memory, op: Op, addr: u32, effect: Effect) -> Option<Deed>
    requires { is_last effect.next ≡ false → fault memory.now.image op addr ≡ None }
    ensures { result ≡ deed_by op addr (number_at (byte_of memory.now) addr (access_size op)) effect }
{
    match effect.next {
        Next::Ended(number) => Some(Deed::Ended(number)),
        Next::Stopped(cause) => Some(Deed::Stopped(cause)),
        Next::Pc(_) => deed_of_op(memory, op, addr, effect),
    }
}

/// What one shows that goes on.
#[tactic(auto, unfolding(crate::specs::Deeds::deed_of_op, rv_instr::specs::Kinds::kind_of))]
fn deed_of_op(memory: &Memory, op: Op, addr: u32, effect: Effect) -> Option<Deed>
    requires { fault memory.now.image op addr ≡ None }
    ensures { result ≡ deed_of_op op addr (number_at (byte_of memory.now) addr (access_size op)) effect }
{
    let Op::Known(instr) = op else {
        return effect.out.map(Deed::Out);
    };
    match instr {
        Instr::Load { op: load, .. } => Some(Deed::Loaded {
            op: load,
            addr,
            number: number_read(memory, op, addr),
        }),
        Instr::LoadReserved { .. } => Some(Deed::Reserved {
            addr,
            number: number_read(memory, op, addr),
        }),
        Instr::Store { op: store, .. } => stored(store, effect.write),
        Instr::StoreConditional { .. } => Some(conditional(addr, effect.write)),
        Instr::Amo { kind, .. } => atomic(kind, number_read(memory, op, addr), effect.write),
        _ => effect.out.map(Deed::Out),
    }
}

/// What memory has where an instruction reads it.
fn number_read(memory: &Memory, op: Op, addr: u32) -> u32
    requires reads { reads_memory (kind_of op) ≡ true }
    requires no_fault { fault memory.now.image op addr ≡ None }
    ensures { result ≡ number_at (byte_of memory.now) addr (access_size op) }
{
    memory.read(addr, access_size(op))
}

fn stored(op: StoreOp, write: Option<Written>) -> Option<Deed>
    ensures { result ≡ stored op write }
{
    let Written { addr, datum, .. } = write?;
    Some(Deed::Stored {
        op,
        addr,
        number: datum,
    })
}

fn conditional(addr: u32, write: Option<Written>) -> Deed
    ensures { result ≡ conditional addr write }
{
    match write {
        Some(Written { addr, datum, .. }) => Deed::Conditional {
            addr,
            number: datum,
        },
        None => Deed::Failed { addr },
    }
}

fn atomic(kind: AmoKind, old: u32, write: Option<Written>) -> Option<Deed>
    ensures { result ≡ atomic kind old write }
{
    let Written { addr, datum, .. } = write?;
    Some(Deed::Atomic {
        kind,
        addr,
        old,
        new: datum,
    })
}
