//! The picture of a story: an SVG file in which time goes down. Each hart has a lane and each row a box in it, an arrow
//! leads from each write to each read that found something of it, and a write that nobody read before it was gone is
//! marked. Beside a box stands what earlier rows make of its row.
//!
//! Read in this order: `form` (how a story is drawn), `accesses` (the bytes that a row reads and writes), `relations`
//! (which read found which write, and what was overwritten), `notes` (lost updates, ABAs, and who took a reservation),
//! `geometry` (where things stand), `words` (the text of a row), `elements` (parts of the file), `arrows`, `boxes`,
//! `foot` (the text below the lanes), `style`, `picture` (the whole), `order` (the rows of an order).
#![tactic(auto)]

mod accesses;
mod arrows;
mod boxes;
mod elements;
mod foot;
mod form;
mod geometry;
mod notes;
mod order;
mod picture;
mod relations;
mod style;
mod words;

pub use form::{MOST_ROWS, PictureForm, Theme, theme_or};
pub use notes::notes_are_told;
pub use order::{Undrawn, rows_of_order};
pub use picture::write_story_picture;
pub use relations::{is_overwritten, is_stuck, reads_from};
