ghost use Rattle.std.specs.Prelude.{◌≡◌, ◌<◌, ℕ, Option, Some, None, true, IfOk, IfErr, IfSome};
ghost use Rattle.searches.specs.Unmade.{MayBeUnmade};

use crate::step::Step;
use crate::unmade::Unmade;
use std::hash::Hash;

/// A machine that goes from state to state by steps of its harts. It may learn of new states as it
/// steps; what it said of a step stays true.
pub trait Machine {
    ghost use Rattle.searches.specs.declared.step.Step.{Step};

    /// A state, as the machine numbers them.
    type State: Copy + Eq + Hash;

    /// What a step was, beside the hart that made it.
    type Way: Copy;

    /// What a step does that the machine may lack, where it must know that ahead of its steps.
    type Lack: Copy;

    /// How many harts there are.
    ghost harts: { Self → ℕ };

    /// The machine knows what this state is.
    ghost Knows: { Self → Self.State → Type 0 };

    /// A hart's next step from a state leads to another one; or the hart has none.
    ghost Steps: { Self → Self.State → ℕ → Option (Step Self.State Self.Way) → Type 0 };

    /// The machine has become another by learning.
    ghost Grows: { Self → Self → Type 0 };

    /// The machine lacks this, so that it may refuse a step which does it.
    ghost MayLack: { Self → Self.Lack → Type 0 };

    fn harts(&self) -> u8
        ensures { result ≡ harts self.now };

    /// The step as it is. Errors: want of memory, or what the machine lacks.
    fn step(
        &mut self,
        state: Self::State,
        hart: u8,
    ) -> Result<Option<Step<Self::State, Self::Way>>, Unmade<Self::Lack>>
        requires present { hart < harts self.old }
        requires known { Knows self.old state }
        ensures grows { Grows self.old self.new }
        ensures steps { IfOk result (Steps self.new state hart) }
        ensures knows { IfOk result (λ next. IfSome next (λ step. Knows self.new step.state)) }
        ensures lacks { IfErr result (MayBeUnmade (MayLack self.new)) };

    ghost learns_nothing: { (m : Self) → Grows m m };

    ghost learns_more: { (l m n : Self) → Grows l m → Grows m n → Grows l n };

    ghost same_harts: { (m n : Self) → Grows m n → harts m ≡ harts n };

    ghost still_known: { (m n : Self) (s : Self.State) → Grows m n → Knows m s → Knows n s };

    ghost still_true: { (m n : Self) (s : Self.State) (h : ℕ)
        (next : Option (Step Self.State Self.Way)) → Grows m n → Knows m s
        → IfSome next (λ step. Knows m step.state) → Steps m s h next → Steps n s h next };

    // States that are equal by `==` are one.
    ghost same: { (s t : Self.State) → Self.State.eq s t ≡ true → s ≡ t };
}
