use std::alloc::{AllocError, AllocFailed};

/// Why a machine doesn't make a step.
#[derive(Clone, Copy, Debug, Drop)]
pub enum Unmade<L> {
    /// There is no memory for it.
    Memory,
    /// What the machine knows ahead of its steps lacks what this one does.
    Lacks(L),
}

impl<L> From<AllocError> for Unmade<L> {
    ghost use Rattle.std.specs.Prelude.{◌≡◌};
    ghost use Rattle.searches.specs.declared.unmade.Unmade.TheVariants.{Memory};

    ghost from_gives = { λ _ unmade. unmade ≡ Memory };

    fn from(_error: AllocError) -> Self {
        Unmade::Memory
    }
}

impl<T: Drop, L> From<AllocFailed<T>> for Unmade<L> {
    ghost use Rattle.std.specs.Prelude.{◌≡◌};
    ghost use Rattle.searches.specs.declared.unmade.Unmade.TheVariants.{Memory};

    ghost from_gives = { λ _ unmade. unmade ≡ Memory };

    fn from(_error: AllocFailed<T>) -> Self {
        Unmade::Memory
    }
}
