//! The prompt: a script that is typed a line at a time, and asked as it comes.
//!
//! Read in this order: `command` (the words of the prompt itself), `typed` (the lines, as they are
//! read), `simulation` (the core that some lines come to), `session` (the lines that are kept, and
//! what each line is answered), `prompting` (one line after another).
#![tactic(auto)]

mod command;
mod prompting;
mod session;
mod simulation;
mod typed;

pub use command::Command;
pub use prompting::{Ended, PromptRefused, Prompted, prompt};
pub use session::{Complaint, MOST_BYTES};
pub use simulation::Simulation;
