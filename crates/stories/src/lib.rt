//! Stories: what the steps of an order of harts, run on the plain machine, show to other harts.
//!
//! A story is told as the machine goes, a row for each step that others can see, and no more than its last 256 rows are
//! kept. Whoever tells it asks for each step before the machine makes it.
//!
//! Read in this order: `deed` (what a step shows), `step` (a step before it is made), `row` (one of a story), `teller`
//! (who took a reservation), `span` (the bytes that a step accesses), `recent` (lost updates and ABAs, by the last
//! rows), `laws` (that a story says what the records say).
#![tactic(auto)]

mod deed;
pub mod laws;
mod recent;
mod row;
mod span;
mod step;
mod teller;

pub use deed::Deed;
pub use recent::{Note, Recent};
pub use row::{Row, row_of};
pub use span::{Span, read_span, written_span};
pub use step::{Step, deed_of, step_of};
pub use teller::Teller;
