//! The registers of the instructions of a history: which physical ones each was given and has read as it was renamed,
//! and who wrote these.
//!
//! Read in this order: `registers` (what an instruction has found), `finding` (that, in a core), `table` (that of each
//! instruction of a history).
#![tactic(auto)]

mod finding;
mod registers;
mod table;

pub use registers::{Destination, Registers, Source};
pub use table::registers_of;
