//! What all commands share.
//!
//! Read in this order: `refused` (why there is no report, and the exit status that goes with it), `inputs` (the
//! files of a line as they were read, and what is made of the first two), `context` (what a command is
//! performed with), `writing` (a text that is put into a file whole, or two into two).
#![tactic(auto)]

mod context;
mod inputs;
mod refused;
mod writing;

pub use context::Context;
pub use inputs::{Inputs, image_of, lines_where, names_in, settings_of};
pub use refused::{ChartOption, Refused, Unread, refuse};
pub use writing::{put_text, put_two_texts};
