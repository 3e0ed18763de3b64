//! The text of a litmus test's final states, as herd prints them (Alglave, Maranget and Tautschnig, "Herding
//! Cats", 2014): a line a state, whether they are as the test asks, and of how many its condition holds.
//!
//! Read in this order: `value` (numbers, and what is looked at), `condition`, `state` (the line of a state),
//! `summary` (what is said of all of them), `states` (the whole text), `verdict` (what is said of them, in numbers).
#![tactic(auto)]

mod condition;
mod state;
mod states;
mod summary;
mod value;
mod verdict;

pub use condition::write_condition;
pub use state::write_state;
pub use states::{holds_of_any, write_states};
pub use verdict::{StatesVerdict, verdict_of};
