//! What holds in every legal history of the core, and what such a history amounts to: an execution of
//! the plain machine, one instruction at a time.
//!
//! There is no code here. The statements stand in `specs`, to be read in this order: `Histories`,
//! `Untouched`, `Sequential`, `Chain`, `Execution`, `Code`, `Shown`, `Scripts`, `PlainLaws`.
#![tactic(auto)]

pub mod histories;
pub mod laws;
pub mod shown;
