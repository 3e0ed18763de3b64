//! How many of each part a core may have. Each has the same name in `specs/Sizes`.

ghost use Rattle.std.specs.Prelude.{◌≡◌, ◌≤◌, ◌&&◌, nat_le, IsTrue};
ghost use Rattle.numbers.specs.Sizes.{are_core_sizes, most_harts, most_extra, most_queued, most_actors};

/// The most harts.
pub const MOST_HARTS: u8 = 16;

/// Room for something of each hart: `MOST_HARTS` as the length of an array.
pub const HART_ROOM: usize = MOST_HARTS as usize;

/// The most physical registers beyond those that the harts begin with.
pub const MOST_EXTRA: u16 = 528;

/// The fewest entries that the issue queue may have room for.
pub const FEWEST_QUEUED: u8 = 4;

/// The most entries that the issue queue may have room for.
pub const MOST_QUEUED: usize = 64;

/// The most actors.
pub const MOST_ACTORS: usize = 32;

/// Registers that a hart begins with: x1 to x31, each with a physical register of its own.
pub const RENAMED_REGISTERS: u16 = 31;

/// How many physical registers there is room for: those that all harts begin with and the extra
/// ones, rounded up to whole words of 64 flags.
pub const MOST_REGISTERS: usize = (RENAMED_REGISTERS as usize * MOST_HARTS as usize
    + MOST_EXTRA as usize
    + 63)
    / 64
    * 64;

/// How many fetched instructions of a hart, and how many decoded ones, there is room for.
pub const LATCH_ROOM: usize = 8;

/// The most instructions of a hart in flight.
pub const MOST_IN_FLIGHT: usize = 64;

/// The most loads of a hart in flight, and the most stores.
pub const MOST_ACCESSES: usize = 16;

/// The most events of a history: numbers of 24 bits tell so many instructions apart.
pub const MOST_EVENTS: u32 = 16_777_216;

/// Whether a core may have these sizes: at least one hart, one extra register and one actor, and no
/// more of each than there may be.
pub fn are_core_sizes(harts: u8, extra: u16, queue: u8, actors: usize) -> bool
    ensures value { result ≡ are_core_sizes harts extra queue actors }
    ensures harts { IsTrue result → harts ≤ most_harts }
    ensures extra { IsTrue result → extra ≤ most_extra }
    ensures queue { IsTrue result → queue ≤ most_queued }
    ensures actors { IsTrue result → actors ≤ most_actors }
{
    is_within(1, u64::from(harts), u64::from(MOST_HARTS))
        && is_within(1, u64::from(extra), u64::from(MOST_EXTRA))
        && is_within(
            u64::from(FEWEST_QUEUED),
            u64::from(queue),
            MOST_QUEUED as u64,
        )
        && is_within(1, actors as u64, MOST_ACTORS as u64)
}

/// Whether a number is neither below the one nor above the other.
///
/// With its ranges written into it, the condition of `are_core_sizes` takes eight times as long to prove.
fn is_within(least: u64, number: u64, most: u64) -> bool
    ensures { result ≡ (nat_le least number && nat_le number most) }
{
    least <= number && number <= most
}
