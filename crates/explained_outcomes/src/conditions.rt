//! A condition over the registers at the end of each way and over what the locations hold then.

use crate::asking::GREATEST_COMPARED;
use litmus_tests::{Condition as Asked, Observed, Term as AskedTerm, Value, Width};
use outcome_queries::{Condition, Harts, Joint, Relation, Term, Watched};
use program_ways::{ENDED, stopped_for};
use std::alloc::{AllocError, Global};
use watched_outcomes::WatchedBytes;

/// The register by which a hart says its status as it ends.
const STATUS_REGISTER: u8 = 10;

/// The one that says how it has ended.
const HOW_REGISTER: u8 = 0;

/// How a hart has ended, as a term says.
#[derive(Clone, Copy, Drop)]
enum How {
    /// With a number that is so related to this one.
    Ended(Relation, u32),
    /// By a stop, for this cause where one is said; or not so.
    Stopped(Relation, Option<u8>),
}

fn how_ended(hart: u8) -> Observed {
    Observed::Register {
        hart,
        register: HOW_REGISTER,
    }
}

/// What terms are made of.
#[derive(Clone, Copy, Drop)]
pub(crate) struct Terms<'bytes> {
    pub harts: u8,
    /// What is asked for in memory: a location of the condition is its index.
    pub bytes: &'bytes [WatchedBytes],
    pub alloc: Global,
}

impl Terms<'_> {
    /// What a condition asks for.
    pub fn condition(&self, condition: &Condition<'_>) -> Result<Asked, AllocError> {
        match condition {
            Condition::Holds(term) => self.term(term),
            Condition::Not(inner) => self.not(self.condition(inner)?),
            Condition::Grouped(inner) => self.condition(inner),
            Condition::Joined(joint, first, others) => {
                let (first, others) = (self.condition(first)?, self.condition(others)?);
                match joint {
                    Joint::And => self.both(first, others),
                    Joint::Or => self.either(first, others),
                }
            }
        }
    }

    fn term(&self, term: &Term<'_>) -> Result<Asked, AllocError> {
        match term {
            Term::Ended {
                harts,
                relation,
                number,
            } => self.of_harts(*harts, How::Ended(*relation, *number)),
            Term::Stopped {
                harts,
                relation,
                cause,
            } => self.of_harts(*harts, How::Stopped(*relation, *cause)),
            Term::Holds {
                asked,
                relation,
                value,
            } => match asked.watched {
                Watched::Register { hart, register } => {
                    let observed = Observed::Register { hart, register };
                    self.compared(observed, Width::Word, *relation, *value)
                }
                Watched::Bytes(bytes) => {
                    let observed = Observed::Location(self.location(bytes));
                    self.compared(observed, bytes.width, *relation, *value)
                }
            },
            // Nothing is told of what is put out.
            Term::Put { .. } => Ok(Asked::Always),
        }
    }

    /// That a hart has ended so, or each has.
    fn of_harts(&self, harts: Harts, how: How) -> Result<Asked, AllocError> {
        match harts {
            Harts::One(hart) => self.of_hart(hart, how),
            Harts::Each => {
                let mut all = Asked::Always;
                for hart in 0..self.harts {
                    all = self.both(all, self.of_hart(hart, how)?)?;
                }
                Ok(all)
            }
        }
    }

    fn of_hart(&self, hart: u8, how: How) -> Result<Asked, AllocError> {
        match how {
            How::Ended(Relation::Other, number) => {
                self.not(self.ended(hart, Relation::Equal, number)?)
            }
            How::Ended(relation, number) => self.ended(hart, relation, number),
            How::Stopped(Relation::Equal, cause) => self.stopped(hart, cause),
            How::Stopped(Relation::Other, cause) => self.not(self.stopped(hart, cause)?),
            How::Stopped(Relation::Below | Relation::AtLeast, _) => self.not(Asked::Always),
        }
    }

    /// That a hart has ended with a number, which is so related to this one.
    fn ended(&self, hart: u8, relation: Relation, number: u32) -> Result<Asked, AllocError> {
        let observed = Observed::Register {
            hart,
            register: STATUS_REGISTER,
        };
        let ended = self.equals(how_ended(hart), Width::Word, ENDED)?;
        self.both(
            ended,
            self.compared(observed, Width::Word, relation, number)?,
        )
    }

    /// That it has stopped, for this cause where one is said.
    fn stopped(&self, hart: u8, cause: Option<u8>) -> Result<Asked, AllocError> {
        match cause {
            Some(cause) => self.equals(how_ended(hart), Width::Word, stopped_for(cause)),
            None => self.not(self.equals(how_ended(hart), Width::Word, ENDED)?),
        }
    }

    fn location(&self, wanted: WatchedBytes) -> usize {
        self.bytes
            .iter()
            .position(|bytes| *bytes == wanted)
            .unwrap_or(0)
    }

    /// That what is looked at is related to a number.
    fn compared(
        &self,
        observed: Observed,
        width: Width,
        relation: Relation,
        number: u32,
    ) -> Result<Asked, AllocError> {
        match relation {
            Relation::Equal => self.equals(observed, width, number),
            Relation::Other => self.not(self.equals(observed, width, number)?),
            Relation::Below => self.below(observed, width, number),
            Relation::AtLeast => self.not(self.below(observed, width, number)?),
        }
    }

    /// That it is this number; never, where so many bits don't hold it.
    fn equals(&self, observed: Observed, width: Width, number: u32) -> Result<Asked, AllocError> {
        let is_too_great = match width {
            Width::Byte => number > 0xff,
            Width::Half => number > 0xffff,
            Width::Word => false,
        };
        if is_too_great {
            return self.not(Asked::Always);
        }
        Ok(Asked::Holds(AskedTerm {
            observed,
            value: Value::Number(number),
            width,
        }))
    }

    /// That it is one of the numbers below.
    fn below(&self, observed: Observed, width: Width, number: u32) -> Result<Asked, AllocError> {
        let mut all = self.not(Asked::Always)?;
        for smaller in 0..number.min(GREATEST_COMPARED) {
            all = self.either(all, self.equals(observed, width, smaller)?)?;
        }
        Ok(all)
    }

    fn not(&self, condition: Asked) -> Result<Asked, AllocError> {
        Ok(Asked::Not(Box::new(self.alloc, condition)?))
    }

    fn both(&self, first: Asked, second: Asked) -> Result<Asked, AllocError> {
        Ok(Asked::Both(Box::new(self.alloc, first)?, Box::new(self.alloc, second)?))
    }

    fn either(&self, first: Asked, second: Asked) -> Result<Asked, AllocError> {
        Ok(Asked::Either(Box::new(self.alloc, first)?, Box::new(self.alloc, second)?))
    }
}
