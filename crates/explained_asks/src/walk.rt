//! A core that is led through the history of another.

ghost use Rattle.std.specs.Prelude.{◌<◌, IfSome};

use crate::squash::{Cause, cause_of};
use events::{Event, History};
use numbers::Seq;
use reasons::{
    Reason, complete_reason, decode_reason, fetch_reason, issue_reason, rename_reason,
    retire_reason,
};
use retire_squash::Active;
use scripts::Action;
use smt_core::Core;

/// A core that has followed as many of these events as its history has.
#[derive(Drop)]
pub(crate) struct Walk<'a> {
    core: Core,
    made: &'a History,
}

/// How many instructions of which hart an event squashes, at least one, and why.
#[derive(Clone, Copy, PartialEq, Eq, Drop)]
pub(crate) struct Squash {
    pub(crate) count: usize,
    pub(crate) hart: u8,
    pub(crate) cause: Cause,
}

impl<'a> Walk<'a> {
    /// A walk from a core without a history.
    pub(crate) fn new(core: Core, made: &'a History) -> Self {
        Walk { core, made }
    }

    /// Why what an action asks can't be made now.
    pub(crate) fn reason_of(&self, action: Action) -> Option<Reason> {
        match action {
            Action::Fetch { actor } => fetch_reason(&self.core, actor),
            Action::Decode { actor, hart } => decode_reason(&self.core, actor, hart),
            Action::Rename { actor, hart } => rename_reason(&self.core, actor, hart),
            Action::Retire { actor, hart } => retire_reason(&self.core, actor, hart),
            Action::Issue { actor } | Action::Unit { actor } => issue_reason(&self.core, actor),
            Action::Complete { actor } => complete_reason(&self.core, actor),
        }
    }

    /// Follows the next event, if there is one, and tells what it squashes, if it does.
    pub(crate) fn follow(&mut self) -> Option<Squash>
        ensures { IfSome result (λ squash. 0 < squash.count) }
    {
        let event = self.made.get(self.followed())?;
        let squash = self.squash_of(&event);
        self.core.follow(&event);
        let (hart, cause, before) = squash?;
        let count = before.saturating_sub(self.live(hart));
        if count == 0 {
            return None;
        }
        Some(Squash { count, hart, cause })
    }

    /// How many events it has followed.
    fn followed(&self) -> usize {
        self.core.history().len()
    }

    /// The hart of which an event squashes what there is, why, and how many of its instructions there are beside
    /// the one that retires.
    fn squash_of(&self, event: &Event) -> Option<(u8, Cause, usize)> {
        let (hart, active) = self.in_flight(event.seq())?;
        let memory = &self.core.parts().0.memory;
        let cause = cause_of(event, &active, memory, self.made, self.followed())?;
        let leaves = matches!(event, Event::Retire { .. });
        Some((
            hart,
            cause,
            self.live(hart).saturating_sub(usize::from(leaves)),
        ))
    }

    /// The hart that has an instruction in flight, and how it stands there.
    fn in_flight(&self, seq: Seq) -> Option<(u8, Active)> {
        for hart in 0..self.core.harts() {
            if let Some(active) = self.active_of(hart, seq) {
                return Some((hart, active));
            }
        }
        None
    }

    fn active_of(&self, hart: u8, seq: Seq) -> Option<Active> {
        let state = self.core.parts().0.harts.as_slice().get(usize::from(hart))?;
        state.active.find(seq)
    }

    /// How many instructions of a hart are fetched, and neither retired nor squashed.
    fn live(&self, hart: u8) -> usize {
        match self.core.parts().0.harts.as_slice().get(usize::from(hart)) {
            Some(state) => {
                state.decode_latch.len() + state.rename_latch.len() + state.active.len()
            }
            None => 0,
        }
    }
}
