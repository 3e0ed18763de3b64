ghost use Rattle.std.specs.Prelude.{◌≡◌};

use crate::idle::IdleAsks;
use smt_core::Finished;

/// What is left of a core behind a lock when nobody asks it any more. The idle asks that it is
/// finished with are those that the lock has counted.
#[derive(Drop)]
pub struct Unlocked {
    pub finished: Finished,
    /// What the lock has counted.
    pub asks: IdleAsks,
    ghost counted: { finished.idle ≡ asks.each },
}
