//! The kinds of asks, by their letters.

ghost use Rattle.std.specs.Prelude.{◌<◌};

use scripts::Action;

/// What is asked for, in the order in which it is listed.
#[derive(Clone, Copy, PartialEq, Eq, Drop)]
pub(crate) enum Kind {
    Fetch,
    Decode,
    Rename,
    Issue,
    Complete,
    Unit,
    Retire,
}

/// How many kinds there are.
pub(crate) const KINDS: usize = 7;

/// All kinds.
pub(crate) const EVERY_KIND: [Kind; KINDS] = [
    Kind::Fetch,
    Kind::Decode,
    Kind::Rename,
    Kind::Issue,
    Kind::Complete,
    Kind::Unit,
    Kind::Retire,
];

impl Kind {
    /// The actor of an action, and its kind.
    pub(crate) fn of(action: Action) -> (u8, Kind) {
        match action {
            Action::Fetch { actor } => (actor, Kind::Fetch),
            Action::Decode { actor, .. } => (actor, Kind::Decode),
            Action::Rename { actor, .. } => (actor, Kind::Rename),
            Action::Issue { actor } => (actor, Kind::Issue),
            Action::Complete { actor } => (actor, Kind::Complete),
            Action::Unit { actor } => (actor, Kind::Unit),
            Action::Retire { actor, .. } => (actor, Kind::Retire),
        }
    }

    /// The letter of its words.
    pub(crate) fn letter(self) -> u8
        ensures { result < 128 }
    {
        match self {
            Kind::Fetch => b'F',
            Kind::Decode => b'D',
            Kind::Rename => b'R',
            Kind::Issue => b'I',
            Kind::Complete => b'C',
            Kind::Unit => b'U',
            Kind::Retire => b'T',
        }
    }

    /// Whether it is made for one hart.
    pub(crate) fn is_for_a_hart(self) -> bool {
        matches!(self, Kind::Decode | Kind::Rename | Kind::Retire)
    }

    /// Whether a unit alone makes it.
    pub(crate) fn is_of_a_unit(self) -> bool {
        matches!(self, Kind::Issue | Kind::Complete | Kind::Unit)
    }
}
