//! What goes out of a simulation: the report, a line for each record, the listing of an image, and
//! the tables and the trace of a core. Why there is no report says `commands`.
//!
//! Read in this order: `form` (a number under its word), `reporting` (the report), `counts` (the numbers
//! of a history), `idle` (how many asks were answered idle), `json` (all of these as an object), `ends`
//! (why each hart stands where it does), `looks` (how many loads looked again), `listing`, `tables`,
//! `traces`.
#![tactic(auto)]

mod counts;
mod ends;
mod form;
mod idle;
mod json;
mod listing;
mod looks;
mod reporting;
mod tables;
mod traces;

pub use counts::report_counts;
pub use ends::{RunEnd, report_ends};
pub use idle::report_idle;
pub use json::report_json;
pub use listing::list;
pub use looks::report_looks;
pub use reporting::{report, report_plain};
pub use tables::write_tables;
pub use traces::put_trace;
