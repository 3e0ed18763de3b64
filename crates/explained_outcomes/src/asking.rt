//! What a condition asks for.

use crate::untold::Untold;
use outcome_queries::{Condition, Relation, Term, Watched};
use std::alloc::{AllocError, Global};
use watched_outcomes::WatchedBytes;

/// The greatest number that is compared by `<` or `>=`.
pub(crate) const GREATEST_COMPARED: u32 = 64;

/// What is asked for in all terms of a condition.
#[derive(Drop)]
pub(crate) struct Asking {
    /// What is asked for in memory, in the order of the terms.
    pub bytes: Vec<WatchedBytes>,
    /// What is asked for that can't be told.
    pub untold: Option<Untold>,
}

impl Asking {
    pub fn of(condition: &Condition<'_>, alloc: Global) -> Result<Asking, AllocError> {
        let mut asking = Asking {
            bytes: Vec::new(alloc),
            untold: None,
        };
        asking.add(condition)?;
        Ok(asking)
    }

    fn add(&mut self, condition: &Condition<'_>) -> Result<(), AllocError> {
        match condition {
            Condition::Holds(term) => self.add_term(term),
            Condition::Not(inner) | Condition::Grouped(inner) => self.add(inner),
            Condition::Joined(_, first, others) => {
                self.add(first)?;
                self.add(others)
            }
        }
    }

    fn add_term(&mut self, term: &Term<'_>) -> Result<(), AllocError> {
        match term {
            Term::Ended {
                relation,
                number,
                ..
            } => self.compare(*relation, *number),
            Term::Stopped { .. } => {}
            Term::Put { .. } => self.untold = Some(Untold::Output),
            Term::Holds {
                asked,
                relation,
                value,
            } => {
                self.compare(*relation, *value);
                if let Watched::Bytes(bytes) = asked.watched {
                    self.bytes.push(bytes)?;
                }
            }
        }
        Ok(())
    }

    fn compare(&mut self, relation: Relation, number: u32) {
        let is_compared = matches!(relation, Relation::Below | Relation::AtLeast);
        if is_compared && number > GREATEST_COMPARED {
            self.untold = Some(Untold::Numbers);
        }
    }
}
