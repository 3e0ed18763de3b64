//! A breadth-first search over the states of a machine of several harts, in which each step of the
//! machine is the next step of one of them. It knows nothing of what a hart is.
//!
//! Read in this order: `machine` (what is searched), `step` (a hart's step) and `unmade` (why it isn't
//! made), `extent` (how far a search has come), `onlooker` (who is told how far it is), `goal` (with
//! which end it ends early), `search` (what one found, with `moves`, and with its extent `explored`) and
//! `ending` (from where no end can be reached), `exploring` (the search itself), over `sweep` (what it
//! has so far) and `origin` (how a state was found), and `diving` (how it goes on where it has met its
//! budget), by `turn` and `taking_turns`.
#![tactic(auto)]

mod diving;
mod ending;
mod explored;
mod exploring;
mod extent;
mod goal;
mod machine;
mod moves;
mod onlooker;
mod origin;
mod search;
mod step;
mod sweep;
mod taking_turns;
mod turn;
mod unmade;

pub use explored::Explored;
pub use exploring::explore;
pub use extent::Extent;
pub use goal::Goal;
pub use machine::Machine;
pub use moves::Move;
pub use onlooker::Onlooker;
pub use search::Search;
pub use step::Step;
pub use unmade::Unmade;
