//! Texts of an input, as they are shown to a person: what would move a terminal's cursor, change its
//! colours or begin a line of its own is spelled out; and names of files, as they are typed.
//!
//! Read in this order: `shown` (a text to be read), `shell` (a name to be typed).
#![tactic(auto)]

mod shell;
mod shown;

pub use shell::write_file_name;
pub use shown::{write_name, write_shown};
