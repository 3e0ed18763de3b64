//! Whole runs of the plain machine: the steps of an order of harts, and what they leave.
//!
//! Read in this order: `stopped` (why there is no run), `finished` (what a run leaves), `order`
//! (the steps of an order). That a core leaves this too says `history_check`.
#![tactic(auto)]

mod finished;
mod order;
mod stopped;

pub use finished::PlainRun;
pub use order::{run_order, statuses_of};
pub use stopped::OrderStopped;
