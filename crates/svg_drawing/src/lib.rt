//! What SVG pictures have in common: how a file begins and ends, and the texts in it.
//!
//! Read in this order: `page` (the file), `text` (a text, and one of an input as it is shown).
#![tactic(auto)]

mod page;
mod text;

pub use page::{write_begin, write_end, write_style};
pub use text::{write_drawn_name, write_label, write_shown_text};
