//! When numbers have been gathered often enough.

use crate::written::zeros;
use std::alloc::{AllocError, Global};

/// In which round each location got its last new number; 0 where it has none yet.
#[derive(Drop)]
pub struct Growth {
    last: Vec<usize>,
    round: usize,
}

impl Growth {
    /// Of so many locations, before the first round.
    pub fn new(locations: usize, alloc: Global) -> Result<Growth, AllocError> {
        Ok(Growth {
            last: zeros(locations, alloc)?,
            round: 0,
        })
    }

    /// One more round begins.
    pub fn begin(&mut self) {
        self.round = self.round.saturating_add(1);
    }

    /// In this round a location has got a new number.
    pub fn note(&mut self, location: usize) {
        if let Some(last) = self.last.get_mut(location) {
            *last = self.round;
        }
    }

    /// Whether no execution reads what is new in this round. A write of such a number stands behind a read of one that
    /// was new in the round before, and so on: as many writes of one execution as rounds are looked back on, each of a
    /// location with new numbers there. Where those locations aren't written so often, there is no such execution.
    /// `most` is how often each location is written at most in one execution.
    pub fn is_over(&self, most: &[usize]) -> bool {
        for rounds in 1..=self.round {
            if self.count_writes(rounds, most) < rounds {
                return true;
            }
        }
        false
    }

    /// How often those locations are written at most that have got new numbers in so many last rounds.
    fn count_writes(&self, rounds: usize, most: &[usize]) -> usize {
        let before = self.round.saturating_sub(rounds);
        let mut sum = 0_usize;
        for (last, most) in self.last.iter().zip(most.iter()) {
            if *last > before {
                sum = sum.saturating_add(*most);
            }
        }
        sum
    }
}
