//! All ends of a program on the plain machine: every outcome, each with an order of harts that leads to it; or some of
//! them, where there are more states than may be visited, or only a first one is asked for.
//!
//! Read in this order: `refused`, `until` (which outcome ends the search) and `ending_goal` (the same of states),
//! `listed` (the outcomes of some states, each once, in their order), `collecting` (those of a search's ends),
//! `unwritten` (what is watched for nothing), `ends` (what is told of a search), `outcomes` (what was found),
//! `first_jumps` (where harts jump by registers, as far as a few orders show it), `unfound` (why a pass has no outcomes),
//! `finding` (the call that finds them, in passes). What is watched, and what one outcome says, stand in
//! `watched_outcomes`.
#![tactic(auto)]

mod collecting;
mod ending_goal;
mod ends;
mod finding;
mod first_jumps;
mod listed;
mod ordering;
mod outcomes;
mod refused;
mod unfound;
mod until;
mod unwritten;

pub use finding::find_outcomes;
pub use outcomes::Outcomes;
pub use refused::OutcomesRefused;
pub use searches::{Extent, Onlooker};
pub use until::Until;
