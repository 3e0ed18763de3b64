//! Why a final state of a litmus test can't come, or how one comes, as it is told: as lines of text, and as a picture
//! in which each access is a box and each relation an arrow.
//!
//! Read in this order: `names` (what has names), `naming` (how events, relations and numbers are called), `verdict` (the sentence above all),
//! `writing` (the lines), `scene` (what a picture shows), `cycle_scene` and `execution` (that of an explanation, and
//! of the rows of a story), `drawing` (the picture, over `svg_drawing`). It is only tested.
#![tactic(auto)]

mod cycle_scene;
mod drawing;
mod execution;
mod names;
mod naming;
mod picturing;
mod scene;
mod verdict;
pub mod writing;

pub use names::Naming;
pub use naming::write_spelling;
pub use picturing::{draw_execution, draw_explanation};
pub use writing::write_explanation;
