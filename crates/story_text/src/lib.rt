//! The text of a story: time goes down, and each hart has a column; a row for each step that other harts can see.
//!
//! A story is written as it goes. Whoever has a plain machine writes the head, tells each step before the machine makes
//! it, and ends the story behind the last one; `tell_order` does all of it.
//!
//! Read in this order: `form` (how a story is told), `fields` (numbers and columns), `names` (what steps are called),
//! `places` (where something is in memory), `deeds` (what a step shows), `line` (a row), `telling` (a step as it is
//! told), `order` (a whole order).
#![tactic(auto)]

mod deeds;
mod fields;
mod form;
mod line;
mod names;
mod order;
mod places;
mod telling;

pub use deeds::write_deed;
pub use fields::write_number;
pub use form::StoryForm;
pub use line::write_head;
pub use names::name_of;
pub use order::{Untold, tell_order};
pub use telling::Telling;
