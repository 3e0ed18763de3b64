//! What a script asks of a core, or an order of the plain machine, and which of its words come to nothing, in lines
//! for a person. Or which word of it is refused, and what is meant by it.
//!
//! Read in this order: `placed` (the words of a text, with their places), `shown` (a word as it is shown),
//! `listing` (words that come to nothing, the first of them); of scripts `kind` and `asked` (who asks for what),
//! `never` (what no core of a configuration follows), `trial` (a core that makes the asks), `misspelled` and `meant`
//! (what is said of a refused word), `script` (all of it); and `order`.
#![tactic(auto)]

mod asked;
mod kind;
mod listing;
mod meant;
mod misspelled;
mod never;
mod order;
mod placed;
mod script;
mod shown;
mod trial;

pub use order::{OrderExplained, OrderFault, explain_order};
pub use script::{ScriptExplained, explain_script};
