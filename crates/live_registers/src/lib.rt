//! Which registers may be read yet at each word of a code, and where a reservation may be used yet: a table that is
//! computed by any means and then checked.
//!
//! Read in this order: `targets` (where jumps by registers go on), `onward` (where an instruction may go on),
//! `table` (a row for each word), `checking` (when a table is good), `filling` (how one is found).
#![tactic(auto)]

mod checking;
mod filling;
mod onward;
mod table;
mod targets;

pub use table::LiveTable;
pub use targets::{Jump, Targets};
