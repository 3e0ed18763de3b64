//! What a retirement does with memory.

ghost use Rattle.std.specs.Prelude.{◌≡◌, ℕ, ◌<◌, ◌==◌, if◌then◌else◌, IfSome};
ghost use Rattle.numbers.specs.Sizes.{most_harts};
ghost use Rattle.smt_model.specs.Bytes.{byte_after};
ghost use Rattle.smt_model.specs.Kinds.{kind_of};
ghost use Rattle.smt_model.specs.Reservations.{own_reservation, reservation_after_write};
ghost use Rattle.shared_memory.specs.Contents.{CanWrite, byte_of, reserved_of};

use crate::memory::Memory;
use events::Written;
use rv_instr::{Kind, Op};

/// What an instruction of a hart that goes on does with memory as it retires: LR reserves the word
/// at `addr`, SC ends its hart's reservation, and then what is to be written is written.
#[inline(always)]
pub fn commit_access(memory: &mut Memory, hart: u8, op: Op, addr: u32, write: Option<Written>)
    requires hart { hart < most_harts }
    requires write { IfSome write (CanWrite memory.old.image) }
    ensures image { memory.new.image ≡ memory.old.image }
    ensures bytes { (a : ℕ) → byte_of memory.new a ≡ byte_after write a (byte_of memory.old a) }
    ensures reserved { (h : ℕ) → reserved_of memory.new h
        ≡ reservation_after_write write
        (if h == hart then own_reservation (kind_of op) addr (reserved_of memory.old h)
        else reserved_of memory.old h) }
{
    change_reservation(memory, hart, op.kind(), addr);
    write_memory(memory, write);
}

/// LR reserves the word at `addr`, and SC ends its hart's reservation.
fn change_reservation(memory: &mut Memory, hart: u8, kind: Kind, addr: u32)
    requires { hart < most_harts }
    ensures image { memory.new.image ≡ memory.old.image }
    ensures bytes { memory.new.bytes ≡ memory.old.bytes }
    ensures reserved { (h : ℕ) → reserved_of memory.new h
        ≡ (if h == hart then own_reservation kind addr (reserved_of memory.old h)
        else reserved_of memory.old h) }
{
    match kind {
        Kind::Reserving => memory.reserve(hart, addr),
        Kind::Conditional => {
            memory.take_reservation(hart, addr);
        }
        Kind::Computing | Kind::Loading | Kind::Storing | Kind::Atomic => {}
    }
}

/// Writes what is to be written, if anything is, and ends every reservation on its word.
fn write_memory(memory: &mut Memory, write: Option<Written>)
    requires { IfSome write (CanWrite memory.old.image) }
    ensures image { memory.new.image ≡ memory.old.image }
    ensures bytes { (a : ℕ) → byte_of memory.new a ≡ byte_after write a (byte_of memory.old a) }
    ensures reserved { (h : ℕ) → reserved_of memory.new h
        ≡ reservation_after_write write (reserved_of memory.old h) }
{
    if let Some(Written { addr, n, datum }) = write {
        memory.write(addr, n, datum);
    }
}
