//! The script of asks: which actor asks the core for which step, one ask after another, and what
//! the core replies to them. And the order of harts: which hart of the plain machine makes the next
//! step.
//!
//! Read in this order: `script` (the whole text), `actions` (what is asked for), `spelling` (how
//! one word is read), `splitting` and `fields` (its parts); `printing` (how words are printed) and
//! `laws` (that they are read again); `order` (the whole text of an order); `comments` (what is blanked
//! out of a text before it is read); `session` (the asks of a
//! script's words, made of a core), and of its parts `asked_core` (a core and the passes of all its
//! actors), `hands` (what the actors hold), `lines` (the lines that are held back), `replies` (the
//! line of a reply), `asks` (one ask each).
#![tactic(auto)]

mod actions;
mod comments;
mod fields;
pub mod laws;
mod order;
mod printing;
mod script;
mod session;
mod spelling;
mod splitting;

pub use actions::{Action, ScriptWord};
pub use comments::blank_comments;
pub use order::{OrderRefused, read_order};
pub use printing::write_line;
pub use script::{ScriptRefused, read_script};
pub use session::{Unwritten, run_script};
