//! What the harts of a plain machine share, told as its difference from the start of the image: the
//! bytes of memory that have changed, the reservations, and the bytes put out.
//!
//! It is for a search, which keeps thousands of states of one program: each needs room for what it
//! has changed alone. What it does is what `shared_memory::Memory` does with a whole memory.
//!
//! Read in this order: `change` (a byte that has changed), `changes` (a list of them), `reserving`
//! (what an instruction does with the reservations), `shared` (the state), `effect` (what an
//! instruction finds there), `advance` (what it changes there), `keeping` (which instructions
//! change nothing there), `laws` (equal memories are equal lists).
#![tactic(auto)]

mod advance;
mod change;
mod changes;
mod effect;
mod keeping;
pub mod laws;
mod reserving;
mod shared;

pub use change::Change;
pub use keeping::keeps_shared;
pub use shared::SharedState;
