//! Steps that no other hart sees, and that see none: what such a step does needs no memory. SC is one where its hart has
//! no reservation: it fails, whatever the others do.

ghost use Rattle.std.specs.Prelude.{◌≡◌, ◌&&◌, ◌||◌, ℕ, Bool, true, false, IfSome, is_some};
ghost use Rattle.elf_image.specs.Image.{byte_in, code_writable};
ghost use Rattle.decoded_code.specs.Code.{IsCodeOf};
ghost use Rattle.outcome_laws.specs.Local.{is_silent, keeps_to};
ghost use Rattle.live_registers.specs.Targets.{allows};
ghost use Rattle.smt_model.specs.Effects.{effect_of};
ghost use Rattle.condensed_machine.specs.Settling.{fails, StepsLocally};

use crate::jumping::keeps_to;
use decoded_code::Code;
use events::Effect;
use live_registers::Targets;
use rv_execute::{Computed, effect_of, last_effect};
use rv_instr::{Kind, Op};
use sc_machine::{Hart, compute};
use shared_memory::Memory;

/// The effect of an instruction that ends or stops its hart, or neither touches memory nor puts a byte out, or is SC
/// of a hart that is known to have no reservation: it is the same whatever memory holds. None for any other.
fn local_effect(op: Op, computed: Computed, is_free: bool) -> Option<Effect>
    ensures local { is_some result ≡ (is_silent op computed || fails is_free op) }
    ensures effect { IfSome result (λ effect. (now : ℕ) (held : Bool) → (is_free ≡ true → held ≡ false)
        → effect ≡ effect_of op computed now held) }
{
    if computed.next.is_last() {
        return Some(last_effect(computed.next));
    }
    if !fails(is_free, op) && (op.kind().touches_memory() || computed.out.is_some()) {
        return None;
    }
    Some(effect_of(op, computed, 0, false))
}

/// Whether an instruction is SC of a hart that is free.
fn fails(is_free: bool, op: Op) -> bool
    ensures { result ≡ fails is_free op }
{
    is_free && matches!(op.kind(), Kind::Conditional)
}

/// The effect of such an instruction, found at a pc, where it makes no jump by a register that the table lacks.
fn followed_effect(
    targets: &Targets,
    op: Op,
    pc: u32,
    computed: Computed,
    is_free: bool,
) -> Option<Effect>
    ensures followed { is_some result
        ≡ ((is_silent op computed || fails is_free op) && keeps_to (allows targets.now) op pc computed.next) }
    ensures effect { IfSome result (λ effect. (now : ℕ) (held : Bool) → (is_free ≡ true → held ≡ false)
        → effect ≡ effect_of op computed now held) }
{
    if !keeps_to(targets, op, pc, computed.next) {
        return None;
    }
    local_effect(op, computed, is_free)
}

/// Makes the next step of a hart where the hart goes, and the step is local and fits. Answers whether it was made.
/// The code is what the image has, as it may not be written. A hart that is free is known to have no reservation.
pub(crate) fn step_locally(
    start: &Memory,
    code: &Code,
    targets: &Targets,
    is_free: bool,
    hart: &mut Hart,
) -> bool
    requires code { IsCodeOf start.now.image (byte_in start.now.image) code.now }
    requires fixed { code_writable start.now.image ≡ false }
    ensures { StepsLocally start.now.image targets.now is_free hart.old result hart.new }
{
    if !hart.is_going() {
        return false;
    }
    let op = code.op_at(hart.pc);
    let computed = compute(start, op, hart);
    match followed_effect(targets, op, hart.pc, computed, is_free) {
        None => false,
        Some(effect) => {
            hart.advance(op.destination(), effect);
            true
        }
    }
}
