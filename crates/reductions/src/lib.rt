//! The reductions of the search for all outcomes, and which of them a search leaves out. Whoever reads a command line, or
//! searches, speaks of these.
//!
//! Read in this order: `reduction` (what there is), `without` (what is left out), `list` (a list of names, as read).
#![tactic(auto)]

mod list;
mod reduction;
mod without;

pub use list::read_list;
pub use reduction::Reduction;
pub use without::Without;
