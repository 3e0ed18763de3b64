//! What stands in the hint behind a fault: the place and the cause, and what may stand there.
//!
//! Read in this order: `file_fault` (why a file can't be read or written), `line_fault` (a fault of a line, and
//! all that its hint is made of), `named_files` (which of several files it is), `inside_text` (a word or a line
//! of a text), `script_words` and `order_words` (one that isn't followed), `trace_lines` and `event_rules` (one
//! that is refused), `explained` (what `explain` says first), `named` (names of the program), `asked` (what options
//! ask for), `chart_names` (what those of a chart name, and source lines), `litmus_instead` and
//! `litmus_faults` (what is no litmus test, and what to write in its place), `suite_faults` (what comes to no test, and
//! what is no summary), `telling` (all of it); `words_fault` (why words come to no line).
#![tactic(auto)]

mod asked;
mod chart_names;
mod event_rules;
mod explained;
mod file_fault;
mod inside_text;
mod line_fault;
mod litmus_faults;
mod litmus_instead;
mod named;
mod named_files;
mod order_words;
mod script_words;
mod suite_faults;
mod telling;
mod trace_lines;
mod words_fault;

pub use chart_names::why_nameless;
pub use file_fault::FileFault;
pub use line_fault::{FileFaults, LineFault};
pub use suite_faults::{add_absent_test, add_summary_fault};
pub use telling::add_line_fault;
pub use words_fault::{WordsFault, add_words_fault};
