//! The simulator as its program uses it: what a line asks for, done once its files are read.
//!
//! Read in this order: `explain` and `list` (the commands that run nothing), `explain_beside` (what `explain` says of a
//! script, an order or a trace), `two_cores` (harts beside a trace that names its core), `settings` (the harts of a
//! line over those of its file), `explain_line` (a line of `explain`), `naming` (the names of a program, where a
//! command wants them), `labelling` (what stands beside addresses), `runs` (one run or many), `tested` (a litmus test,
//! listed or run), `performing` (all of it: the files taken in their order, the command, the exit status), `typed` (the
//! same of a script that is typed), and `suites` (many litmus tests). What a line comes to, and when each of its
//! refusals comes, stands in `specs/Perform`; what a command of a program does, in `specs/Commands`. The commands
//! themselves are in `core_commands` and `plain_commands`.
#![tactic(auto)]

mod explain;
mod explain_beside;
mod explain_line;
mod labelling;
mod list;
mod naming;
mod performing;
mod runs;
mod settings;
mod suites;
mod tested;
mod two_cores;
mod typed;

pub use explain::perform_explain;
pub use list::perform_list;
pub use performing::perform;
pub use suites::{SuiteRefused, perform_suite_line};
pub use typed::perform_typed;
