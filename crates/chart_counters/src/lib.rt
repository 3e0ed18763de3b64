//! The numbers behind the events of a history: how full the parts of a core are.
//!
//! Read in this order: `counters` (the numbers), `reading` (those of a core), `following` (those behind each event
//! from one place of a history to another).
#![tactic(auto)]

mod counters;
mod following;
mod reading;

pub use counters::{Counters, Waiting};
pub use following::counters_of;
