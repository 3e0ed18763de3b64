//! The text of what a search for outcomes has found: a line for each outcome, how many there are and how
//! many states were looked at, whether each state can go on to an end, which places in memory are watched for
//! nothing; and what is answered to a question about all of them.
//!
//! Read in this order: `line` (the line of an outcome), `unwritten` (the places in memory that are watched for
//! nothing), `how` (how many states searches have found), `listing` (the whole text), `answers` (what is answered to a
//! question).
#![tactic(auto)]

mod answers;
mod how;
mod line;
mod listing;
mod unwritten;

pub use answers::{
    answer_of, answer_words, names_lines, question_words, settled, settles, write_answer,
    write_place,
};
pub use how::{How, StateCount, count_of};
pub use line::{write_line, write_watched};
pub use listing::{ends_text, write_incomplete, write_outcomes};
