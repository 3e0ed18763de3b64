use crate::refused::OutcomesRefused;
use live_registers::Jump;

/// Why one pass of a search has no outcomes.
#[derive(Clone, Copy, Drop)]
pub(crate) enum Unfound {
    /// None can be found.
    Refused(OutcomesRefused),
    /// A hart jumps where the pass takes it that none does.
    Lacks(Jump),
}
