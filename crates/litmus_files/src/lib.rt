//! The file of a litmus test's image, an ELF file in which the test's locations have names.
//!
//! Read in this order: `names` (the names, and the table of symbols that go by them), `sections` (where these lie),
//! `file` (all of it).
#![tactic(auto)]

mod file;
mod names;
mod sections;

pub use file::file_of;
