//! Which instructions change nothing that harts share.

ghost use Rattle.std.specs.Prelude.{◌≡◌, ◌&&◌, ◌||◌, not};
ghost use Rattle.std.specs.Bool.{Decides};
ghost use Rattle.std.specs.Option.{is_none};
ghost use Rattle.smt_model.specs.Nexts.{is_last};
ghost use Rattle.changed_memory.specs.Keeping.{KeepsShared, reserves};

use events::{Effect, Next};
use rv_instr::{Kind, Op};

/// Whether an instruction with this effect changes nothing that harts share, whichever hart's it is
/// and whatever is reserved. It is so of loads, of all that only compute, and of what ends or stops
/// its hart.
pub fn keeps_shared(op: Op, effect: Effect) -> bool
    ensures { Decides result (KeepsShared op effect) }
{
    is_quiet(effect) && keeps_reservations(op.kind(), effect.next)
}

/// Whether an effect writes nothing and puts nothing out.
fn is_quiet(effect: Effect) -> bool
    ensures { result ≡ (is_none effect.write && is_none effect.out) }
{
    effect.write.is_none() && effect.out.is_none()
}

/// Whether an instruction of this kind, with this next, changes no reservation itself.
fn keeps_reservations(kind: Kind, next: Next) -> bool
    ensures { result ≡ (is_last next || not (reserves kind)) }
{
    next.is_last() || !matches!(kind, Kind::Reserving | Kind::Conditional)
}
