//! The core: six calls that each make one step of the pipeline or say why there is none.
//!
//! Read in this order: `predict` (what a branch predictor is), `answer` (what the calls answer),
//! `calls`, `follow` (a core that is given its events); then `shown` (what holds of each core that is
//! shown) and `finished` (what is left of a core when nobody asks it any more). What a history comes
//! to, `Account`, stands in `smt_laws`.
#![tactic(auto)]

pub mod answer;
pub mod calls;
pub mod finished;
pub mod follow;
pub mod predict;
mod shown;

pub use answer::{Answer, CompleteAnswer, IssueAnswer};
pub use calls::Core;
pub use core_state::CoreRefused;
pub use exec_units::{Done, Job, work};
pub use finished::Finished;
pub use follow::Followed;
pub use predict::Predict;
pub use shown::show;
pub use smt_model::{Account, Config, Role, Status};
