//! The goal of the search: an end with an outcome that is asked for.

use crate::collecting::outcome_of;
use crate::until::Until;
use condensed_machine::{CondensedMachine, State};
use searches::Goal;
use std::alloc::{AllocError, Global};
use watched_outcomes::Watch;

/// An end meets it where its outcome is asked for.
#[derive(Drop)]
pub(crate) struct EndingGoal<'a, U: Until> {
    pub(crate) watch: &'a Watch,
    pub(crate) until: &'a U,
    pub(crate) alloc: Global,
}

impl<U: Until> Goal<CondensedMachine> for EndingGoal<'_, U> {
    ghost use Rattle.outcomes.specs.{Collected.IsAskedAt, Goals.IsWatchedIn, Goals.still_watched};

    ghost Fits = { λ goal machine. IsWatchedIn goal.watch.now machine };

    ghost Meets = { λ goal machine state. IsAskedAt (U.Asks goal.until.now) machine goal.watch.now state };

    fn is_met(&self, machine: &CondensedMachine, end: State) -> Result<bool, AllocError> {
        let outcome = outcome_of(machine, end, self.watch, self.alloc)?;
        Ok(self.until.is_asked(&outcome))
    }

    ghost still_fits = { λ goal m n grows fits. still_watched goal.watch.now m n grows fits };
}
