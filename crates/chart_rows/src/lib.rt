//! The rows of a chart: an instruction each, with the places of its events, what stands in a row under an event, and
//! which rows and columns are drawn.
//!
//! Read in this order: `cause` (why instructions are squashed), `row` (at which event an instruction moved on, and which event squashed it),
//! `rows` (the rows of a history); `cell` (what stands in a row under an event), `view` (what is
//! drawn), `band` (columns that stand side
//! by side); `looks` (which store a load looks again for).
#![tactic(auto)]

mod band;
mod cause;
mod cell;
mod looks;
mod row;
mod rows;
mod view;

pub use band::Band;
pub use cause::Cause;
pub use cell::Cell;
pub use looks::store_between;
pub use row::{Row, Squash};
pub use rows::rows_of;
pub use view::{View, first_left};
