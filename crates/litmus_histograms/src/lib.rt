//! The histogram of a litmus test's runs on the core, as litmus7 prints it (Alglave, Maranget, Sarkar and Sewell,
//! "Litmus: Running Tests Against Hardware", 2011): for each final state how many runs have ended so.
//!
//! Read in this order: `kinds` (how a run stands to the test), `counting` (how many runs do), `bars` (the line of a
//! state), `summary` (what is said of all runs together), `histogram` (the whole text). Who makes the runs is
//! `core_commands`.
#![tactic(auto)]

mod bars;
mod counting;
mod histogram;
mod kinds;
mod summary;

pub use counting::runs_of_kind;
pub use histogram::write_histogram;
pub use kinds::RunKind;
