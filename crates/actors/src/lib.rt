//! The actors of a run, as threads: fetchers, front ends, units and retirers, which all ask one
//! core behind one lock.
//!
//! Read in this order: `gate` (what each actor asks whether it may go on), `refused` (why there is no
//! run), `static_predictor` (the program's predictor), `turn_outcome` (what the asks of a turn come
//! to), `turns` (what an actor asks in one turn), `patience` (how it waits where it finds nothing to
//! do), `desk` (the board and its seats, under one name), `actor` (the turns of one actor), `start` (the
//! threads), `roles` (which roles a run needs), `running` (a run).
#![tactic(auto)]

mod actor;
mod desk;
pub mod gate;
mod patience;
pub mod refused;
mod roles;
pub mod running;
mod start;
pub mod static_predictor;
mod turn_outcome;
mod turns;

pub use core_lock::{IdleAsks, Unlocked};
pub use gate::{Gate, Open, Point};
pub use refused::RunRefused;
pub use running::{run, run_counted};
pub use static_predictor::StaticPredictor;
