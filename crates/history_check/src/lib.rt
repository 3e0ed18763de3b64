//! Traces judged, and run again: whether a list of events is a history of a core, and what a core
//! has retired, run on the plain machine.
//!
//! Read in this order: `checking` (which events a core can follow), `rerun` (the plain machine, run in
//! the order in which a core has retired). The program judges traces, and tells the story of that order; only tests
//! run an order again.
#![tactic(auto)]

pub mod checking;
mod rerun;

pub use checking::{CheckRefused, Checked, Stopped, Unfollowed, check, follow_until};
pub use rerun::{retirement_order, run_again};
