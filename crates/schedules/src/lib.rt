//! The script of an order of harts: by it a core retires, in this order, what the plain machine
//! does in this order.
//!
//! Read in this order: `refused` (why there is none), `making` (the run, the units and the room
//! that it takes), `running` (the run and its turns), `units` (which actors do the work),
//! `schedule` (its lines, and how they are written). Then the laws, of functions that do nothing:
//! `laws` (a completion without a job),
//! `replies` (the history that the asks of any script leave), `retiring` (that a core which is
//! asked by a schedule retires its order).
#![tactic(auto)]

pub mod laws;
mod making;
mod refused;
pub mod replies;
pub mod retiring;
mod running;
mod schedule;
mod units;

pub use making::make_schedule;
pub use refused::ScheduleRefused;
pub use schedule::Schedule;
