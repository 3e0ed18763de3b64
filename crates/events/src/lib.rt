//! What the core does, one event a step: the events, what a retired instruction did, and the
//! history that grows by them.
//!
//! Read in this order: `effect` (results and records), `kind`, `event`, `history`; `role` (what the
//! actor of an event is, and whether it is a unit).
#![tactic(auto)]

pub mod effect;
pub mod event;
pub mod history;
pub mod kind;
pub mod role;

pub use effect::{Cause, Effect, Next, Outcome, Record, Written};
pub use event::{Event, Phys, Seq};
pub use history::{Events, Full, History};
pub use kind::EventKind;
pub use role::{Role, copied_roles};
