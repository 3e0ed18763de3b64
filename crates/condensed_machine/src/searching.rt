use crate::machine::CondensedMachine;
use crate::state::State;
use crate::way::Way;
use live_registers::Jump;
use searches::{Machine, Step, Unmade};

impl Machine for CondensedMachine {
    ghost use Rattle.condensed_machine.specs.Decoded.{Knows as IsKnown};
    ghost use Rattle.condensed_machine.specs.Learning.{equal_is_one, learns_nothing as nothing_learned};
    ghost use Rattle.condensed_machine.specs.Learning.{learns_more as more_learned};
    ghost use Rattle.condensed_machine.specs.Learning.{same_harts as harts_stay};
    ghost use Rattle.condensed_machine.specs.Learning.{still_knows, still_true as steps_stay};
    ghost use Rattle.condensed_machine.specs.Machine.{Grows as HasGrown, MayLack as IsLacked};
    ghost use Rattle.condensed_machine.specs.Steps.{Steps as IsStep};

    type State = State;

    /// The local steps that followed.
    type Way = Way;

    /// The jump by a register that the table of targets lacks.
    type Lack = Jump;

    ghost harts = { λ m. m.program.harts };

    ghost Knows = { IsKnown };

    ghost Steps = { IsStep };

    ghost Grows = { HasGrown };

    ghost MayLack = { IsLacked };

    fn harts(&self) -> u8 {
        self.program.harts()
    }

    fn step(&mut self, state: State, hart: u8) -> Result<Option<Step<State, Way>>, Unmade<Jump>> {
        self.make_step(state, hart)
    }

    ghost learns_nothing = { nothing_learned };

    ghost learns_more = { more_learned };

    ghost same_harts = { harts_stay };

    ghost still_known = { still_knows };

    ghost still_true = { steps_stay };

    ghost same = { equal_is_one };
}
