//! What an effect changes in what harts share.

ghost use Rattle.std.specs.Prelude.{◌≡◌, ℕ, ◌<◌, ◌==◌, IfSome, OnOk};
ghost use Rattle.numbers.specs.Sizes.{most_harts};
ghost use Rattle.smt_model.specs.Bytes.{byte_after};
ghost use Rattle.smt_model.specs.Plain.{output_after};
ghost use Rattle.smt_model.specs.Reservations.{reservation_after};
ghost use Rattle.shared_memory.specs.Contents.{CanWrite, IsStart};
ghost use Rattle.changed_memory.specs.Canonical.{IsCanonical};
ghost use Rattle.changed_memory.specs.Shared.{byte_at, reserved_at};

use crate::changes::write;
use crate::reserving::reserve;
use crate::shared::SharedState;
use events::Effect;
use rv_instr::Op;
use shared_memory::Memory;
use std::alloc::AllocError;

impl SharedState {
    /// Does what the effect of a hart's instruction at an address says. Errors: want of memory; it
    /// is of no use then.
    pub fn advance(
        &mut self,
        start: &Memory,
        hart: u8,
        op: Op,
        addr: u32,
        effect: Effect,
    ) -> Result<(), AllocError>
        requires hart { hart < most_harts }
        requires start { IsStart start.now.image start.now }
        requires allowed { IfSome effect.write (CanWrite start.now.image) }
        ensures bytes { OnOk result ((a : ℕ) → byte_at start.now.image self.new a
            ≡ byte_after effect.write a (byte_at start.now.image self.old a)) }
        ensures reserved { OnOk result ((h : ℕ) → reserved_at self.new h
            ≡ reservation_after op addr effect (h == hart) (reserved_at self.old h)) }
        ensures output { OnOk result (self.new.output ≡ output_after effect.out self.old.output) }
        ensures canonical { OnOk result (IsCanonical start.now.image self.old
            → IsCanonical start.now.image self.new) }
    {
        write(&mut self.changes, start, effect.write)?;
        reserve(&mut self.reserved, hart, op, addr, effect);
        put_out(&mut self.output, effect.out)
    }
}

/// Puts a byte out, where there is one.
fn put_out(output: &mut Vec<u8>, out: Option<u8>) -> Result<(), AllocError>
    ensures { OnOk result (output.new.items ≡ output_after out output.old.items) }
{
    match out {
        Some(byte) => Ok(output.push(byte)?),
        None => Ok(()),
    }
}
