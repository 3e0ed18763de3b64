//! The program as far as its system goes: the words of its command line, the files that they name, the
//! files that are written, and how far a run is, on a terminal. What a command does once its files are
//! read stands in `commands`, and how a line is read of words in `sim_inputs`.
//!
//! Read in this order: `streams` (what stands in place of closed standard streams), `words` (how the words are taken,
//! and what is said of those that are refused), `files` (what is read, whole and no longer than a file may be),
//! `read_files` (which files are spared), `read_inputs` (what those hold that a line names), `output_name` and
//! `output_file` (how one file is written), `two_files` (how two are at once), `output_files` (all that a line writes, as
//! a sink), `test_names` (the tests of a line by their names: `test_folder` and `test_list` have those in a folder and in
//! a list), `test_files` (their texts), `suite` (a line of several tests), `noting` (a writer that keeps its failure), `hinting` (the hint behind a
//! fault), `performing` (all that the program does with its words), `progress` (the gate of the program's runs).
#![tactic(auto)]

mod files;
mod hinting;
mod noting;
mod output_file;
mod output_files;
mod output_name;
mod performing;
mod progress;
mod read_files;
mod read_inputs;
mod streams;
mod suite;
mod test_files;
mod test_folder;
mod test_list;
mod test_names;
mod two_files;
mod words;

pub use files::{ReadRefused, read_file, read_to_end};
pub use output_files::{OutputFiles, Places};
pub use performing::{Performed, Program, perform_words, refuse_unopened};
pub use progress::Progress;
pub use read_files::ReadFiles;
pub use streams::{HeldStreams, hold_closed_streams};
