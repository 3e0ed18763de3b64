ghost use Rattle.std.specs.Prelude.{◌≡◌, true, IfOk};

use crate::machine::Machine;
use std::alloc::AllocError;

/// Which ends a search is for: it ends with the first of them.
pub trait Goal<M: Machine> {
    /// The goal can be asked of the machine, also where that has learned.
    ghost Fits: { Self → M → Type 0 };

    /// An end that this state of the machine is meets the goal.
    ghost Meets: { Self → M → M.State → Type 0 };

    /// Whether an end meets the goal. Errors: want of memory.
    fn is_met(&self, machine: &M, end: M::State) -> Result<bool, AllocError>
        requires fits { Fits self.now machine.now }
        requires known { M.Knows machine.now end }
        ensures { IfOk result (λ is_met. is_met ≡ true → Meets self.now machine.now end) };

    ghost still_fits: { (goal : Self) (m n : M) → M.Grows m n → Fits goal m → Fits goal n };
}

/// No end meets it: the search is for all of them.
impl<M: Machine> Goal<M> for () {
    ghost Fits = { λ _ _. Unit {0} };

    ghost Meets = { λ _ _ _. ⊥ };

    fn is_met(&self, _machine: &M, _end: M::State) -> Result<bool, AllocError> {
        Ok(false)
    }

    ghost still_fits = { λ _ _ _ _ fits. fits };
}
