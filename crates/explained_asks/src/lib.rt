//! The lines of a script's asks, explained: before each its ask, and behind it why no step was
//! made, or what it has squashed. At the end stands how often each reason came.
//!
//! What is named is what `reasons` names of a core that is led through the same history. The words
//! here are only tested.
//!
//! Read in this order: `squash` (what an event squashes, and why), `tally` (how often what came),
//! `walk` (a core that is led through a history), `explaining` (the text of it all).
#![tactic(auto)]

mod explaining;
mod squash;
mod tally;
mod walk;

pub use explaining::explain;
