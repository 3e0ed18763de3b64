//! What an instruction does to what harts share as it stands.

ghost use Rattle.std.specs.Prelude.{◌≡◌, ◌<◌, IfSome, None, true};
ghost use Rattle.numbers.specs.Sizes.{most_harts};
ghost use Rattle.smt_model.specs.Bytes.{read};
ghost use Rattle.smt_model.specs.Effects.{effect_of};
ghost use Rattle.smt_model.specs.Faults.{fault};
ghost use Rattle.smt_model.specs.Kinds.{kind_of};
ghost use Rattle.smt_model.specs.Reservations.{holds_word};
ghost use Rattle.rv_execute.specs.Access.{reads_memory};
ghost use Rattle.shared_memory.specs.Contents.{CanWrite, IsStart};
ghost use Rattle.sc_machine.specs.Access.{HasNoFault};
ghost use Rattle.changed_memory.specs.Shared.{byte_at, reserved_at};

use crate::shared::SharedState;
use events::Effect;
use rv_execute::{Computed, access_size, effect_of, last_effect, read_value, reads_memory};
use rv_instr::Op;
use shared_memory::{Memory, held_by, is_on_word};

impl SharedState {
    /// The effect of an instruction of a hart. One that ends or stops its hart does nothing else.
    pub fn effect(&self, start: &Memory, hart: u8, op: Op, computed: Computed) -> Effect
        requires hart { hart < most_harts }
        requires start { IsStart start.now.image start.now }
        requires no_fault { HasNoFault start.now.image op computed }
        ensures value { result
            ≡ effect_of op computed (read op (byte_at start.now.image self.now) computed.addr)
            (holds_word (reserved_at self.now hart) computed.addr) }
        ensures allowed { IfSome result.write (CanWrite start.now.image) }
    {
        if computed.next.is_last() {
            return last_effect(computed.next);
        }
        let now = self.read(start, op, computed.addr);
        let held = is_on_word(held_by(&self.reserved, hart), computed.addr);
        effect_of(op, computed, now, held)
    }

    /// The number that the access of an instruction reads, where it has no fault; 0 where it reads
    /// none.
    fn read(&self, start: &Memory, op: Op, addr: u32) -> u32
        requires start { IsStart start.now.image start.now }
        requires no_fault { fault start.now.image op addr ≡ None }
        ensures { reads_memory (kind_of op) ≡ true
            → result ≡ read op (byte_at start.now.image self.now) addr }
    {
        if !reads_memory(op.kind()) {
            return 0;
        }
        read_value(op, self.number(start, addr, access_size(op)))
    }
}
