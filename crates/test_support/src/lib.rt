//! What the crates of tests share: the files of the programs that they run, predictors, and the events of
//! each actor beside what its pass has counted. It stands here once, since no crate of tests stands on
//! another.
#![tactic(auto)]

mod counting;
mod files;
mod predictors;

pub use counting::{Miscount, first_miscount};
pub use files::{EXIT_WITH_5, PATCHED, file_of, image_of, push_words, writable_file_of};
pub use predictors::{Always, Behind};
