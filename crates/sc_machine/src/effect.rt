//! What an instruction does to the machine as it stands.

ghost use Rattle.std.specs.Prelude.{◌≡◌, ◌<◌, IfSome};
ghost use Rattle.numbers.specs.Sizes.{most_harts};
ghost use Rattle.smt_model.specs.Bytes.{read};
ghost use Rattle.smt_model.specs.Effects.{effect_of};
ghost use Rattle.smt_model.specs.Faults.{checked};
ghost use Rattle.smt_model.specs.Reservations.{holds_word};
ghost use Rattle.shared_memory.specs.Contents.{CanWrite, byte_of, reserved_of};
ghost use Rattle.sc_machine.specs.Access.{HasNoFault, WritesAlone};

use events::{Effect, Next};
use rv_execute::{Computed, effect_of, last_effect};
use rv_instr::Op;
use shared_memory::{Memory, fault, read};

/// What is computed of an instruction, with the faults of its access: one that goes on stops where
/// its access faults.
#[tactic(auto, unfolding(smt_model::specs::Faults::checked))]
pub fn stop_at_fault(memory: &Memory, op: Op, computed: Computed) -> Computed
    ensures value { result ≡ checked memory.now.image op computed }
    ensures no_fault { HasNoFault memory.now.image op result }
{
    if computed.next.is_last() {
        return computed;
    }
    match fault(memory, op, computed.addr) {
        Some(cause) => Computed {
            next: Next::Stopped(cause),
            ..computed
        },
        None => computed,
    }
}

/// The effect of an instruction of a hart on memory and reservations as they stand. One that ends
/// or stops its hart does nothing else.
pub fn effect_here(memory: &Memory, hart: u8, op: Op, computed: Computed) -> Effect
    requires hart { hart < most_harts }
    requires no_fault { HasNoFault memory.now.image op computed }
    ensures value { result ≡ effect_of op computed (read op (byte_of memory.now) computed.addr)
        (holds_word (reserved_of memory.now hart) computed.addr) }
    ensures allowed { IfSome result.write (CanWrite memory.now.image) }
    ensures alone { WritesAlone result }
{
    if computed.next.is_last() {
        return last_effect(computed.next);
    }
    let now = read(memory, op, computed.addr);
    let held = memory.holds_word(hart, computed.addr);
    effect_of(op, computed, now, held)
}
