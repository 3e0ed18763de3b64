//! Hints: what stands behind the line of a fault for a person, or for a program that reads JSON.
//!
//! Read in this order: `part` (what a part of a hint says), `shown` (a text as it stands in one: cut, and
//! without control characters), `hint` (the parts put together, as lines or as one JSON object).
#![tactic(auto)]

mod hint;
mod part;
mod shown;

pub use hint::{Form, Hint};
pub use part::Part;
