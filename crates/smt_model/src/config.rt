ghost use Rattle.std.specs.Prelude.{◌≡◌};
ghost use Rattle.smt_model.specs.Plain.{is_going_status};

use arrayvec::ArrayVec;
use events::{Cause, Role, copied_roles};
use numbers::sizes::MOST_ACTORS;

/// The sizes of a core: its harts, the physical registers beside those that the harts begin with,
/// the entries in the issue queue, and the roles of its actors. There is at least one of each, and
/// `numbers::sizes` says how many there may be.
#[derive(Drop)]
pub struct Config {
    pub harts: u8,
    pub extra: u16,
    pub queue: u8,
    pub roles: ArrayVec<Role, MOST_ACTORS>,
}

impl Config {
    /// A copy of the configuration.
    pub fn copied(&self) -> Config
        ensures sizes { (result.harts ≡ self.now.harts) × (result.extra ≡ self.now.extra)
            × (result.queue ≡ self.now.queue) }
        ensures roles { result.roles.items ≡ self.now.roles.items }
    {
        Config {
            harts: self.harts,
            extra: self.extra,
            queue: self.queue,
            roles: copied_roles(self.roles.as_slice()),
        }
    }
}

/// How a hart stands.
#[derive(Clone, Copy, PartialEq, Eq, Hash, Drop)]
pub enum Status {
    Going,
    /// It has ended with this number.
    Ended(u32),
    /// It has stopped for this cause.
    Stopped(Cause),
}

impl Status {
    /// Whether the hart goes on.
    #[inline]
    pub fn is_going(self) -> bool
        ensures { result ≡ is_going_status self }
    {
        match self {
            Status::Going => true,
            Status::Ended(_) | Status::Stopped(_) => false,
        }
    }
}

/// A hart goes until it ends or stops.
impl Default for Status {
    fn default() -> Self {
        Status::Going
    }
}
