//! Long runs of the plain machine: the harts take turns, and no order of them is kept.
//!
//! Read in this order: `rules` (what says whose turns there are), `next` (whose turn comes), `observer`
//! (who looks on), `turn` (the steps of one turn), `stopped` (why there is no run), `running` (turn after
//! turn, and what is left).
#![tactic(auto)]

mod next;
mod observer;
mod rules;
mod running;
mod stopped;
mod turn;

pub use next::count_going;
pub use observer::{StepObserver, Unobserved};
pub use rules::Rounds;
pub use running::{RoundsRun, run_rounds};
pub use stopped::RoundsStopped;
