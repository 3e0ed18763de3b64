ghost use Rattle.std.specs.Prelude.{◌≡◌};

use crate::effect::{Effect, Outcome};
use crate::kind::EventKind;
pub use numbers::{Phys, Seq};

/// One atomic step of the core. `actor` made it; `seq` is the instruction that it moves on.
#[derive(Clone, Copy, PartialEq, Eq, Drop)]
pub enum Event {
    Fetch {
        actor: u8,
        hart: u8,
        seq: Seq,
        pc: u32,
        word: Option<u32>,
        predicted: u32,
    },
    Decode {
        actor: u8,
        seq: Seq,
    },
    Rename {
        actor: u8,
        seq: Seq,
        phys: Option<Phys>,
    },
    Issue {
        actor: u8,
        seq: Seq,
    },
    Complete {
        actor: u8,
        seq: Seq,
        outcome: Outcome,
    },
    /// A unit hands back an instruction that was squashed meanwhile.
    Drop {
        actor: u8,
        seq: Seq,
    },
    Retire {
        actor: u8,
        seq: Seq,
        effect: Effect,
    },
    /// The word at the pc of a hart's oldest instruction isn't the one that was fetched: it is
    /// squashed with all younger ones, and the hart fetches there again.
    Refetch {
        actor: u8,
        seq: Seq,
    },
}

// A list of ten million events is to have room in half a gigabyte; a history's is smaller.
const _: () = prove!(size_of::<Event>() <= 44);

impl Event {
    ghost use Rattle.events.specs.Event.{actor_of, seq_of};
    ghost use Rattle.events.specs.Kind.{event_kind};

    /// What it does to its instruction.
    pub fn kind(&self) -> EventKind
        ensures { result ≡ event_kind self.now }
    {
        match self {
            Event::Fetch { .. } => EventKind::Fetch,
            Event::Decode { .. } => EventKind::Decode,
            Event::Rename { .. } => EventKind::Rename,
            Event::Issue { .. } => EventKind::Issue,
            Event::Complete { .. } => EventKind::Complete,
            Event::Drop { .. } => EventKind::Drop,
            Event::Retire { .. } => EventKind::Retire,
            Event::Refetch { .. } => EventKind::Refetch,
        }
    }

    /// The actor that made it, below `MOST_ACTORS`.
    pub fn actor(&self) -> u8
        ensures { result ≡ actor_of self.now }
    {
        match *self {
            Event::Fetch { actor, .. }
            | Event::Decode { actor, .. }
            | Event::Rename { actor, .. }
            | Event::Issue { actor, .. }
            | Event::Complete { actor, .. }
            | Event::Drop { actor, .. }
            | Event::Retire { actor, .. }
            | Event::Refetch { actor, .. } => actor,
        }
    }

    /// The number of the instruction that it moves on.
    pub fn seq(&self) -> Seq
        ensures { result ≡ seq_of self.now }
    {
        match *self {
            Event::Fetch { seq, .. }
            | Event::Decode { seq, .. }
            | Event::Rename { seq, .. }
            | Event::Issue { seq, .. }
            | Event::Complete { seq, .. }
            | Event::Drop { seq, .. }
            | Event::Retire { seq, .. }
            | Event::Refetch { seq, .. } => seq,
        }
    }
}
