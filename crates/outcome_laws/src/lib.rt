//! What the search for all outcomes of a program stands on: which steps of the plain machine may go
//! first, and which registers and reservations no hart uses any more.
//!
//! There is no code here. The statements stand in `specs`, to be read in this order: `Paths` (states
//! and orders without records), `Tables` (what is known ahead of each step, and how it is checked),
//! `Local` (steps that no other hart sees), `Live` (states that differ in nothing that matters), `Search`
//! (which states are enough).
#![tactic(auto)]

pub mod laws;
