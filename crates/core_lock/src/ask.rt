ghost use Rattle.std.specs.Prelude.{◌≡◌};
ghost use Rattle.core_lock.specs.Asks.{asked_of, event_in};

use events::Event;
use exec_units::{Done, Job};

/// One ask of a core. It may hold what a unit has done, so it can't be let go.
pub enum Ask {
    /// Fetch the next word of the hart to choose.
    Fetch,
    /// Decode this hart's oldest fetched instruction.
    Decode(u8),
    /// Rename this hart's oldest decoded instruction.
    Rename(u8),
    /// Issue the oldest ready instruction of the actor's kind of unit.
    Issue,
    /// Take back a job that was worked.
    Complete(Done),
    /// Retire this hart's oldest instruction in flight, or fetch it again.
    Retire(u8),
}

/// An ask without what it hands over.
#[derive(Clone, Copy, PartialEq, Eq, Drop)]
pub enum Asked {
    Fetch,
    Decode(u8),
    Rename(u8),
    Issue,
    Complete,
    Retire(u8),
}

/// What the core answers. A job must be worked or abandoned.
pub enum Said {
    /// The step was made, and the history has this event more.
    Event(Event),
    /// An issue was made: the job, and the event.
    Job(Job, Event),
    /// There is room in the history, and no such step can be made now.
    Idle,
    /// There is room in the history, and what was handed over isn't the actor's open job.
    Stranger,
    /// The history has as many events as it may have.
    Full,
}

impl Ask {
    /// The ask, without what it hands over.
    pub fn asked(&self) -> Asked
        ensures { result ≡ asked_of self.now }
    {
        match self {
            Ask::Fetch => Asked::Fetch,
            Ask::Decode(hart) => Asked::Decode(*hart),
            Ask::Rename(hart) => Asked::Rename(*hart),
            Ask::Issue => Asked::Issue,
            Ask::Complete(_) => Asked::Complete,
            Ask::Retire(hart) => Asked::Retire(*hart),
        }
    }
}

impl Said {
    /// The event of the step that was made; none where no step was made.
    pub fn event(&self) -> Option<Event>
        ensures { result ≡ event_in self.now }
    {
        match self {
            Said::Event(event) | Said::Job(_, event) => Some(*event),
            Said::Idle | Said::Stranger | Said::Full => None,
        }
    }
}
