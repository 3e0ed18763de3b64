//! Suites of litmus tests: the line of each in a summary, and the lines of one that was printed before.
//!
//! Read in this order: `no_test` (why a name comes to none), `status` (the exit status of several), `verdict` (what is said
//! of a test in a line, and that line), `summary_lines` (lines that were printed before, read), `expectation` (what tests
//! are held against), `counts` (the last line).
#![tactic(auto)]

mod counts;
mod expectation;
mod no_test;
mod status;
mod summary_lines;
mod verdict;

pub use counts::{Counts, Differences};
pub use expectation::{Expectation, Met};
pub use no_test::{ListFault, NoTest};
pub use status::worse;
pub use summary_lines::SummaryRefused;
pub use verdict::{TestLine, Verdict, VerdictText};
