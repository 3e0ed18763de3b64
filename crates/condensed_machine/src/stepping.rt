//! One step of a hart from a state.

ghost use Rattle.std.specs.Prelude.{◌≡◌, ◌<◌, IfOk, IfErr, IfSome};
ghost use Rattle.searches.specs.Unmade.{MayBeUnmade};
ghost use Rattle.condensed_machine.specs.Decoded.{Knows};
ghost use Rattle.condensed_machine.specs.Losing.{HasFollowed};
ghost use Rattle.condensed_machine.specs.Machine.{Grows, IsSound, MayLack};
ghost use Rattle.condensed_machine.specs.Numbering.{HasMoved};
ghost use Rattle.condensed_machine.specs.Steps.{Steps};

use crate::losing::Followed;
use crate::machine::CondensedMachine;
use crate::moves::{MoveFrom, MoveTo};
use crate::numbering::moved;
use crate::state::State;
use crate::way::Way;
use live_registers::Jump;
use searches::{Step, Unmade};
use std::alloc::AllocError;

impl CondensedMachine {
    /// The next instruction of a hart in a state, whatever it is, and then its local steps, and those of each hart
    /// that has lost its reservation by it; none where the hart isn't going. Errors: want of memory, or a jump by a
    /// register that the table of targets lacks.
    pub(crate) fn make_step(
        &mut self,
        state: State,
        hart: u8,
    ) -> Result<Option<Step<State, Way>>, Unmade<Jump>>
        requires hart { hart < self.old.program.harts }
        requires known { Knows self.old state }
        ensures grows { Grows self.old self.new }
        ensures steps { IfOk result (Steps self.new state hart) }
        ensures knows { IfOk result (λ next. IfSome next (λ step. Knows self.new step.state)) }
        ensures lacks { IfErr result (MayBeUnmade (MayLack self.new)) }
    {
        if !self.hart(state, hart).is_going() {
            return Ok(None);
        }
        let number = self.hart_number(state, hart);
        let shared = state.shared;
        let to = self.move_from(MoveFrom {
            hart,
            number,
            shared,
        })?;
        let next = self.moved_to(state, hart, to.number, to.shared)?;
        let followed = self.followed(hart, state, to, next)?;
        Ok(Some(Step {
            state: followed.state,
            way: Way {
                own: to.steps,
                others: followed.others,
            },
        }))
    }

    /// The state behind a move in which the others have followed their local steps, those that have lost their
    /// reservations by it. Errors: want of memory.
    fn followed(
        &mut self,
        hart: u8,
        before: State,
        to: MoveTo,
        next: State,
    ) -> Result<Followed, AllocError>
        requires before { Knows self.old before }
        requires known { Knows self.old next }
        ensures grows { Grows self.old self.new }
        ensures followed { IfOk result (HasFollowed self.new next) }
        ensures knows { IfOk result (λ followed. Knows self.new followed.state) }
    {
        if to.takes {
            return self.follow_losers(before.shared, hart, next);
        }
        Ok(Followed {
            state: next,
            others: self.rows.no_others(),
        })
    }

    /// The state with another number of a hart, and of what the harts share. Errors: want of memory.
    pub(crate) fn moved_to(
        &mut self,
        state: State,
        hart: u8,
        number: u32,
        shared: u32,
    ) -> Result<State, AllocError>
        requires hart { hart < self.old.program.harts }
        requires known { Knows self.old state }
        ensures grows { Grows self.old self.new }
        ensures harts { self.new.hart_states ≡ self.old.hart_states }
        ensures shared { self.new.shared_states ≡ self.old.shared_states }
        ensures sound { IsSound self.new.program }
        ensures moved { IfOk result
            (HasMoved self.old.far_harts self.new.far_harts state hart number shared) }
    {
        moved(&mut self.far_harts, state, hart, number, shared)
    }
}
