//! Litmus tests: a few harts on a few words of memory, each with a few instructions, and a question about
//! the states in which they can end (Alglave, Maranget and Tautschnig, "Herding Cats", 2014).
//!
//! Read in this order: `value` (a number, or an address in the locations), `number_type` (bytes, halves and words, with a
//! sign or without), `fence` (what one orders), `step` (what a hart executes), `condition` (what is asked of a final
//! state), `location` (what is named in memory), `test` (all of it, and how much of each there may be).
#![tactic(auto)]

pub mod condition;
pub mod fence;
pub mod location;
pub mod number_type;
pub mod step;
pub mod test;
pub mod value;

pub use condition::{Condition, Observed, Quantifier, Term};
pub use fence::{AccessSet, Fence};
pub use location::{Element, Location, beginning_at, type_of};
pub use number_type::{INT, NumberType, narrowed};
pub use step::LitmusStep;
pub use test::{LitmusTest, RegisterStart, Thread};
pub use value::Value;
pub use watched_outcomes::Width;
