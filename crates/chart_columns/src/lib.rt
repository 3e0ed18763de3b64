//! The columns of a chart: each event in one of its own, or as many in one as can stand in it without hiding a letter.
//!
//! Read in this order: `marks` (where a row has letters), `limits` (how far back a round may reach), `rounds` (the
//! column of each event), `table` (what is asked of the columns).
#![tactic(auto)]

mod limits;
mod marks;
mod rounds;
mod table;

pub use table::ColumnTable;
