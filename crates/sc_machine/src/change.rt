//! What an effect changes in memory and in the reservations.

ghost use Rattle.std.specs.Prelude.{◌≡◌, ℕ, ◌<◌, ◌==◌, IfSome};
ghost use Rattle.numbers.specs.Sizes.{most_harts};
ghost use Rattle.smt_model.specs.Bytes.{byte_after};
ghost use Rattle.smt_model.specs.Reservations.{reservation_after};
ghost use Rattle.shared_memory.specs.Contents.{CanWrite, byte_of, reserved_of};
ghost use Rattle.sc_machine.specs.Access.{WritesAlone};

use events::Effect;
use rv_instr::Op;
use shared_memory::{Memory, commit_access};

/// Does what the effect of a hart's instruction at an address says.
pub fn change_memory(memory: &mut Memory, hart: u8, op: Op, addr: u32, effect: Effect)
    requires hart { hart < most_harts }
    requires allowed { IfSome effect.write (CanWrite memory.old.image) }
    requires alone { WritesAlone effect }
    ensures image { memory.new.image ≡ memory.old.image }
    ensures bytes { (a : ℕ) → byte_of memory.new a
        ≡ byte_after effect.write a (byte_of memory.old a) }
    ensures reserved { (h : ℕ) → reserved_of memory.new h
        ≡ reservation_after op addr effect (h == hart) (reserved_of memory.old h) }
{
    if effect.next.is_last() {
        return;
    }
    commit_access(memory, hart, op, addr, effect.write);
}
