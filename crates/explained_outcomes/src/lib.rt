//! Why a condition holds of no outcome of a program: the cycle that each execution with such an end would have, as of a
//! litmus test, for programs of few accesses. Else it is said what there is too much of.
//!
//! Read in this order: `untold` (why nothing is told), `asking` (what a condition asks for), `conditions` (the condition
//! over the locations), `reasons` (what is told), `program_names` (how it is called), `telling` (its lines and its
//! picture). It is only tested.
#![tactic(auto)]

mod asking;
mod conditions;
mod program_names;
mod reasons;
mod telling;
mod untold;

pub use reasons::{Reasons, Unexplained, reasons_of};
pub use telling::{draw_reasons, write_reasons};
pub use untold::{Untold, write_instead};
