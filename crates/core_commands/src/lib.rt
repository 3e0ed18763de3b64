//! The commands over cores and their histories.
//!
//! Read in this order: `wanted` (what is wanted of a core), `core_story` (the story of one), `account` (what is
//! reported of one), then a module a command: `step`, `prompt` (the same of a script that is typed), `run`, `watching`
//! (what is watched of many runs), `making` (one of many runs), `stress` (many runs), `test_runs` (many runs of
//! a litmus test), `check`, `script`, `chart` (with `chart_ends`, from where to where one is drawn, `chart_columned`
//! and `chart_told`, what stands in which column, and what beside the rows, and `drawing`, what is drawn) and `migrate`. What each command comes to, and when each of its refusals comes, stands in `specs` under the
//! command's name.
#![tactic(auto)]

mod account;
mod chart;
mod chart_columned;
mod chart_ends;
mod chart_told;
mod check;
mod core_story;
mod drawing;
mod judgement;
mod making;
mod migrate;
mod named_asks;
mod prompt;
mod run;
mod script;
mod step;
mod stress;
mod test_runs;
mod wanted;
mod watching;
mod why;

pub use chart::perform_chart;
pub use check::perform_check;
pub use judgement::perform_judgement;
pub use making::make_run;
pub use migrate::perform_migrate;
pub use prompt::perform_prompt;
pub use run::{RunReport, perform_run, run_bytes};
pub use script::perform_script;
pub use step::{perform_step, step_bytes};
pub use stress::perform_stress;
pub use test_runs::perform_test_runs;
pub use wanted::{CoreStory, Wanted};
