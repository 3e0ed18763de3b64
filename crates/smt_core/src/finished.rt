ghost use Rattle.std.specs.Prelude.{◌≡◌, length, sum};

use crate::calls::Core;
use numbers::sizes::MOST_ACTORS;

/// What is left of a core when nobody asks it any more.
#[derive(Drop)]
pub struct Finished {
    pub core: Core,
    /// How many events each place's pass has counted.
    pub counts: [u64; MOST_ACTORS],
    /// How many asks each place's pass was answered `Said::Idle`, or u64::MAX where it were more.
    pub idle: [u64; MOST_ACTORS],
    /// Whether at each place lay the pass of its actor, with that actor's count and last event in
    /// the history.
    pub told: bool,
    /// Whether the core was made of the image and the configuration that were named at the end.
    pub own: bool,
    ghost whole: { sum counts ≡ length core.past },
}
