//! The instructions of one hart that are in flight, in program order: appended as they are renamed,
//! retired from the old end, and squashed from the young end where the hart was mispredicted.
//!
//! Read in this order: `active` (an instruction in flight), `ring` (the places where they stand),
//! `active_list`. A core keeps one list for each hart.
#![tactic(auto)]

pub mod active;
pub mod active_list;
mod ring;

pub use active::{Active, Stage};
pub use active_list::ActiveList;
