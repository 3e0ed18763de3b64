//! The next step from a state, where the harts take turns.

ghost use Rattle.std.specs.Prelude.{◌≡◌, ◌<◌, ◌≤◌, IfOk, IfErr};
ghost use Rattle.searches.specs.Dives.{IsNextTurn};
ghost use Rattle.searches.specs.Unmade.{MayBeUnmade};

use crate::machine::Machine;
use crate::turn::Turn;
use crate::unmade::Unmade;

/// The step of the first hart that has one from a state: from this hart on, and from hart 0 behind the
/// last. None where the state is an end. Errors: those of the step.
pub(crate) fn next_turn<M: Machine>(
    machine: &mut M,
    state: M::State,
    hart: u8,
) -> Result<Option<Turn<M::State, M::Way>>, Unmade<M::Lack>>
    requires known { M.Knows machine.old state }
    requires present { hart ≤ M.harts machine.old }
    ensures grows { M.Grows machine.old machine.new }
    ensures turn { IfOk result (IsNextTurn (M.Knows machine.new) (M.Steps machine.new) state 0
        (M.harts machine.new)) }
    ensures lacks { IfErr result (MayBeUnmade (M.MayLack machine.new)) }
{
    let harts = machine.harts();
    let later = turn_between(machine, state, hart, harts)?;
    if later.is_some() {
        return Ok(later);
    }
    turn_between(machine, state, 0, hart)
}

/// The step of the first hart of some that has one from a state. Errors: those of the step.
fn turn_between<M: Machine>(
    machine: &mut M,
    state: M::State,
    first: u8,
    behind: u8,
) -> Result<Option<Turn<M::State, M::Way>>, Unmade<M::Lack>>
    requires known { M.Knows machine.old state }
    requires present { behind ≤ M.harts machine.old }
    ensures grows { M.Grows machine.old machine.new }
    ensures turn { IfOk result (IsNextTurn (M.Knows machine.new) (M.Steps machine.new) state first behind) }
    ensures lacks { IfErr result (MayBeUnmade (M.MayLack machine.new)) }
{
    for hart in first..behind {
        if let Some(step) = machine.step(state, hart)? {
            return Ok(Some(Turn { hart, step }));
        }
    }
    Ok(None)
}
