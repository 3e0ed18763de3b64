//! What is watched of the ends of a program, and what one of them shows. Whoever asks for outcomes, finds
//! them or prints them speaks of these, and needs no search for that.
#![tactic(auto)]

mod outcome;
mod watch;

pub use outcome::Outcome;
pub use watch::{MOST_WATCHED, Watch, WatchedBytes, WatchedRegister, Width};
