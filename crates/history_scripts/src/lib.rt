//! The script of a history: by it a core makes this history again, event for event.
//!
//! Read in this order: `refused` (why there is none), `making` (the history checked, and what the
//! rules leave open in it), `deciding` (one event of it), `harts` (whose each instruction is),
//! `script` (its lines, and how they are written), `laws` (that it makes the history again).
#![tactic(auto)]

mod deciding;
mod harts;
pub mod laws;
mod making;
mod refused;
mod script;

pub use making::make_script;
pub use refused::ScriptRefused;
pub use script::HistoryScript;
