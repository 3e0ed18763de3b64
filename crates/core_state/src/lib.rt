//! The core's state: the parts that its steps move instructions through, kept in agreement with the
//! history of the core's events.
//!
//! Read in this order: `sizes` (which configurations are a core's), and `state`, which holds the
//! parts and writes the history by `log`.
#![tactic(auto)]

mod log;
mod refused;
mod sizes;
mod state;

pub use core_steps::FetchPoint;
pub use refused::CoreRefused;
pub use sizes::is_core;
pub use state::State;
