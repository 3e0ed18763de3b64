//! The parts of the core that its steps move instructions through: when they agree with a picture of
//! the history, and how a squash leaves them. The steps are `core_steps`.
//!
//! Read in this order: `slot` (an instruction before it is renamed), `hart` (what each hart has of
//! its own), `register_file` (the numbers in the physical registers), `parts` (what all harts share),
//! `squash`, which a completion and a retirement make, and `place` (where an instruction is).
#![tactic(auto)]

mod hart;
mod parts;
mod place;
mod register_file;
mod slot;
mod squash;

pub use hart::HartState;
pub use parts::{Parts, count_jobs, give_back, registers_in};
pub use register_file::RegisterFile;
pub use slot::{OpenJob, Slot};
