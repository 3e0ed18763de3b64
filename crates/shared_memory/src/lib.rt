//! Memory as the harts share it, as the retired instructions leave it.
//!
//! Read in this order: `access` (reads and writes), `bytes` (numbers in a list of bytes), `laid`
//! (which bytes of RAM are in the list), `reservations`, `memory` (a byte for each address of RAM,
//! little-endian, and one reservation a hart), `accesses` (why the access of an instruction faults,
//! and what it reads), `commits` (what a retirement does with memory), `sharing` (which accesses
//! share a byte).
#![tactic(auto)]

mod access;
mod accesses;
mod bytes;
mod commits;
mod laid;
mod memory;
mod reservations;
mod sharing;

pub use access::AccessKind;
pub use accesses::{fault, read};
pub use commits::commit_access;
pub use memory::Memory;
pub use reservations::{Reservations, end_on_word, held_by, is_on_word};
pub use sharing::touches;
