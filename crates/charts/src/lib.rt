//! Charts: the pipeline as a person draws it, a row for each instruction, a column for each event or for several.
//!
//! Read in this order: `registers`, `label` (the names of rows); then what is drawn: `text`; `chart` (what the others are
//! made of), `svg` and `kanata`.
#![tactic(auto)]

mod chart;
mod kanata;
mod label;
mod registers;
mod svg;
mod text;

pub use chart::Chart;
pub use kanata::write_kanata;
pub use svg::{MOST_PICTURED, PictureForm, Theme, last_pictured, write_svg};
pub use text::{TextChart, write_text};
