//! Jumps by registers, held against the table of where they go on.

ghost use Rattle.std.specs.Prelude.{◌≡◌, ◌||◌, not, false, IfSome, is_some};
ghost use Rattle.events.specs.declared.effect.Next.TheVariants.{Pc};
ghost use Rattle.outcome_laws.specs.Tables.{goes_anywhere};
ghost use Rattle.outcome_laws.specs.Local.{keeps_to};
ghost use Rattle.live_registers.specs.Targets.{allows};
ghost use Rattle.condensed_machine.specs.Machine.{IsLacking};

use events::Next;
use live_registers::{Jump, Targets};
use rv_instr::{Instr, Op};

/// Whether an instruction at a pc goes on where the table of targets says, or is no jump by a register, or is the last
/// of its hart.
pub(crate) fn keeps_to(targets: &Targets, op: Op, pc: u32, next: Next) -> bool
    ensures { result ≡ keeps_to (allows targets.now) op pc next }
{
    match next {
        Next::Pc(to) => !goes_anywhere(op) || targets.allows(pc, to),
        Next::Ended(_) | Next::Stopped(_) => true,
    }
}

/// The jump by a register to another pc that an instruction at a pc makes, where the table of targets lacks it.
pub(crate) fn lacking(targets: &Targets, op: Op, pc: u32, next: Next) -> Option<Jump>
    ensures lacks { is_some result ≡ not (keeps_to (allows targets.now) op pc next) }
    ensures jump { IfSome result (λ jump. (jump.from ≡ pc) × (next ≡ Pc jump.to)) }
    ensures lacking { IfSome result (IsLacking targets.now) }
{
    match next {
        Next::Pc(to) => lacking_at(targets, op, pc, to),
        Next::Ended(_) | Next::Stopped(_) => None,
    }
}

/// The jump by a register from a pc to another, where the instruction is one and the table of targets lacks it.
fn lacking_at(targets: &Targets, op: Op, pc: u32, to: u32) -> Option<Jump>
    ensures lacks { is_some result ≡ not (keeps_to (allows targets.now) op pc (Pc to)) }
    ensures jump { IfSome result (λ jump. (jump.from ≡ pc) × (jump.to ≡ to)) }
    ensures lacking { IfSome result (IsLacking targets.now) }
{
    if keeps_to(targets, op, pc, Next::Pc(to)) {
        return None;
    }
    Some(Jump { from: pc, to })
}

/// Whether an instruction is a jump by a register, which may go anywhere.
#[tactic(auto, unfolding(outcome_laws::specs::Tables::goes_anywhere))]
fn goes_anywhere(op: Op) -> bool
    ensures { result ≡ goes_anywhere op }
{
    matches!(op, Op::Known(Instr::Jalr { .. }))
}
