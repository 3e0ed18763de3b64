ghost use Rattle.std.specs.Prelude.{◌≡◌, ◌<◌, replicate};
ghost use Rattle.numbers.specs.Sizes.{most_actors};
ghost use Rattle.core_lock.specs.Passes.{idle_after};

use crate::ask::Said;
use numbers::sizes::MOST_ACTORS;

/// How many asks of each actor that there may be a core behind a lock has answered `Said::Idle`, or
/// u64::MAX where it were more. It begins with the lock, counts as the core answers, and comes out
/// with the lock's end. Nobody else can make one, copy it or change it.
#[derive(Drop)]
pub struct IdleAsks {
    each: [u64; MOST_ACTORS],
}

impl IdleAsks {
    /// No asks.
    pub(crate) fn none() -> IdleAsks
        ensures { result.each ≡ replicate most_actors 0 }
    {
        IdleAsks {
            each: [0; MOST_ACTORS],
        }
    }

    /// Counts an ask of this actor, where it was answered idle.
    #[inline(always)]
    pub(crate) fn count(&mut self, actor: u8, said: &Said)
        requires { actor < most_actors }
        ensures { self.new.each ≡ idle_after actor said.now self.old.each }
    {
        match said {
            Said::Idle => {
                let actor = usize::from(actor);
                self.each[actor] = self.each[actor].saturating_add(1);
            }
            Said::Event(_) | Said::Job(_, _) | Said::Stranger | Said::Full => {}
        }
    }

    /// The numbers, each at its actor's place.
    pub fn each(&self) -> [u64; MOST_ACTORS]
        ensures { result ≡ self.now.each }
    {
        self.each
    }
}
