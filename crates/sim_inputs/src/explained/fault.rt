ghost use Rattle.std.specs.Prelude.{◌≡◌};
ghost use Rattle.sim_inputs.specs.Explained.{name_of, default_of, least_of, greatest_of};

use numbers::sizes::{FEWEST_QUEUED, MOST_EVENTS, MOST_EXTRA, MOST_HARTS, MOST_QUEUED};

/// The keys that a configuration may have.
pub const KNOWN_KEYS: [&str; 7] = ["harts", "extra", "queue", "ram", "limit", "turns", "actors"];

/// The names of the roles that an actor may have.
pub const ROLE_NAMES: [&str; 6] = ["fetch", "front", "retire", "alu", "mul", "mem"];

/// A key whose value is a number.
#[derive(Clone, Copy, Debug, PartialEq, Eq, Drop)]
pub enum NumberKey {
    Harts,
    Extra,
    Queue,
    Ram,
    Limit,
    Turns,
}

/// The first fault of a configuration: the document, then its keys, then `harts`, `extra`, `queue`,
/// `actors`, `ram`, `limit` and `turns`.
#[derive(Debug, Drop)]
pub enum ConfigFault {
    /// The bytes are no TOML document. The reader stopped at this byte, and says why.
    NoDocument { place: usize, message: String },
    /// No configuration has this key.
    UnknownKey(String),
    /// There is no number at this key that it may have.
    Number(NumberKey),
    /// There is no list of roles at `actors`, or one of too few or too many.
    Actors(ActorsFault),
    /// There isn't enough memory to say.
    Memory,
}

/// What is wrong with the actors.
#[derive(Debug, Drop)]
pub enum ActorsFault {
    /// They are no list.
    NoList,
    /// They are so many.
    Count(usize),
    /// One of them is no text.
    NoText,
    /// One of them is this text, which names no role.
    NoRole(String),
}

impl NumberKey {
    /// The key as it is written.
    pub fn name(self) -> &'static str
        ensures { result.now ≡ name_of self }
    {
        match self {
            NumberKey::Harts => "harts",
            NumberKey::Extra => "extra",
            NumberKey::Queue => "queue",
            NumberKey::Ram => "ram",
            NumberKey::Limit => "limit",
            NumberKey::Turns => "turns",
        }
    }

    /// The number where the key is absent.
    pub(crate) fn default(self) -> u64
        ensures { result ≡ default_of self }
    {
        match self {
            NumberKey::Harts => 1,
            NumberKey::Extra => 64,
            NumberKey::Queue => 16,
            NumberKey::Ram => 65_536,
            NumberKey::Limit => 1_000_000,
            NumberKey::Turns => 1_000_000_000,
        }
    }

    /// The least number that the key may have.
    pub fn least(self) -> u64
        ensures { result ≡ least_of self }
    {
        match self {
            NumberKey::Harts | NumberKey::Extra => 1,
            NumberKey::Queue => u64::from(FEWEST_QUEUED),
            NumberKey::Ram => 4096,
            NumberKey::Limit | NumberKey::Turns => 0,
        }
    }

    /// The greatest number that the key may have.
    pub fn greatest(self) -> u64
        ensures { result ≡ greatest_of self }
    {
        match self {
            NumberKey::Harts => u64::from(MOST_HARTS),
            NumberKey::Extra => u64::from(MOST_EXTRA),
            NumberKey::Queue => MOST_QUEUED as u64,
            NumberKey::Ram => 16_777_216,
            NumberKey::Limit => u64::from(MOST_EVENTS),
            NumberKey::Turns => 1_000_000_000_000_000_000,
        }
    }
}
