ghost use Rattle.smt_core.specs.Following.{IsFollowed};

use crate::calls::Core;
use events::Event;

/// What a core answers that is given an event to follow.
#[derive(Clone, Copy, PartialEq, Eq, Drop)]
pub enum Followed {
    /// The event may come next, and the history has it more.
    Done,
    /// There is room in the history, and the event breaks this rule, the first of those that it
    /// breaks.
    Refused(u8),
    /// The history has as many events as it may have.
    Full,
}

impl Core {
    /// Takes the event as the next, where it may come next. It hands out no job.
    pub fn follow(&mut self, event: &Event) -> Followed
        ensures { IsFollowed self.old event.now result self.new }
    {
        if self.state.is_full() {
            return Followed::Full;
        }
        if let Err(rule) = self.state.follow(event) {
            return Followed::Refused(rule);
        }
        Followed::Done
    }
}
