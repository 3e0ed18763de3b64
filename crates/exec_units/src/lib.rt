//! What a unit does with an instruction: a job is lent to it, with the operands, and it hands back
//! the job done.
//!
//! Read in this order: `job` (what is lent and what is handed back), `unit` (the work), `outcome`
//! (which of it a completion says). What an instruction computes stands in the crate `rv_execute`.
#![tactic(auto)]

mod job;
mod outcome;
mod unit;

pub use job::{Done, Job};
pub use unit::work;
