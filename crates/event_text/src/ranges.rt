//! The ranges of the numbers in the lines of a trace, and whether it has lines of refetches.

ghost use Rattle.std.specs.Prelude.{◌≡◌};
ghost use Rattle.event_text.specs.Ranges.{ranges_of};

use crate::head::{LaterVersion, TraceHead};
use events::{Phys, Seq};
use numbers::sizes::{MOST_ACTORS, MOST_EVENTS, MOST_EXTRA, MOST_HARTS, RENAMED_REGISTERS};

/// The greatest number of an actor, of a hart, of an instruction and of a physical register that a
/// version of the trace format has, and whether it has lines of refetches.
#[derive(Clone, Copy, Debug, PartialEq, Eq, Drop)]
pub struct Ranges {
    pub actor: u8,
    pub hart: u8,
    pub seq: Seq,
    pub phys: Phys,
    pub refetches: bool,
}

/// Those of version 1, for ever. `first_ranges` in `specs/Ranges`.
pub const FIRST_RANGES: Ranges = Ranges {
    actor: 15,
    hart: 7,
    seq: 16_777_215,
    phys: 503,
    refetches: false,
};

/// Those of version 2, for ever. `later_ranges` in `specs/Ranges`.
pub const SECOND_RANGES: Ranges = Ranges {
    actor: 31,
    hart: 15,
    seq: 16_777_215,
    phys: 1023,
    refetches: false,
};

/// Those of version 3, for ever: the same, and the lines of refetches.
pub const THIRD_RANGES: Ranges = Ranges {
    refetches: true,
    ..SECOND_RANGES
};

// The newest version has what a core of the greatest size has. Where a size is another, the lines of
// its events want a new version: those before it stay as they are.
const _: () = prove!(THIRD_RANGES.actor as usize == MOST_ACTORS - 1);

const _: () = prove!(THIRD_RANGES.hart == MOST_HARTS - 1);

const _: () = prove!(THIRD_RANGES.seq == MOST_EVENTS - 1);

const _: () = prove!(THIRD_RANGES.phys == RENAMED_REGISTERS * MOST_HARTS as u16 + MOST_EXTRA - 1);

impl TraceHead {
    /// The ranges of its version.
    pub fn ranges(&self) -> Ranges
        ensures { result ≡ ranges_of self.now }
    {
        match self {
            TraceHead::First => FIRST_RANGES,
            TraceHead::Later(LaterVersion::Second, _) => SECOND_RANGES,
            TraceHead::Later(LaterVersion::Third, _) => THIRD_RANGES,
        }
    }
}
