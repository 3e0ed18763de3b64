//! What stands behind a line beside an address in it: the name of the code there, and the line of its source.
//!
//! Read in this order: `labels` (what is wanted beside addresses), `writing` (what stands there), `measuring` (how wide
//! it is).
#![tactic(auto)]

mod labels;
mod measuring;
mod writing;

pub use labels::Labels;
pub use measuring::label_width;
pub use writing::{Form, write_labels};
