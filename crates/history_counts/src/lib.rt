//! The numbers of a history: how many of its events, of its instructions and of its records are of
//! which kind.
//!
//! Read in this order: `kinds` (events by kind), `instructions` (which were mispredicted, replayed or
//! squashed, and for what), `counts` (all of it, of one history), `records` (the retired instructions,
//! by hart and unit).
#![tactic(auto)]

mod counts;
mod instructions;
mod kinds;
mod records;

pub use counts::{Counts, counts_of};
pub use instructions::Reason;
pub use records::count_retired;
