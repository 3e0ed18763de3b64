//! How the runs of a program end, and how often each end comes.
//!
//! Read in this order: `end` (how a run has ended, with what is watched), `tally` (the ends that came, and how often),
//! `table` (what is printed of them), `answers` (what they answer to a question); `order` (the text of an order of
//! harts), `keeping` (the files of a run that shows an end, and of any command that writes one), `finishing` (what goes
//! into one file whole). Who makes the runs is `commands`.
#![tactic(auto)]

mod answers;
mod end;
mod finishing;
pub mod keeping;
mod order;
mod table;
pub mod tally;

pub use answers::{report_answer, sampled_answer};
pub use finishing::{put_file, put_trace_file};
pub use keeping::{EndFiles, Part, keep_end};
pub use table::report_tally;
pub use tally::{Row, Tally};
