//! Why words come to no line, or their help isn't printed.

use crate::file_fault::{Doing, FileFault, add_cause};
use hints::{Hint, Part};
use sim_inputs::add_refused_words;
use std::alloc::{AllocError, Global};
use std::io::ErrorKind;

/// Why words come to no line, or their help isn't printed.
#[derive(Clone, Copy, PartialEq, Eq, Drop)]
pub enum WordsFault {
    /// One of them is no text.
    Unread,
    /// They are a wrong command line.
    Refused,
    /// There isn't enough memory for them.
    Memory,
    /// Standard output took no help, for this.
    Output(Option<ErrorKind>),
}

impl WordsFault {
    /// The fault as its line says it.
    pub fn text(self) -> &'static str {
        match self {
            WordsFault::Unread | WordsFault::Refused => "command line",
            WordsFault::Memory => "memory",
            WordsFault::Output(_) => "file",
        }
    }

    /// The exit status: 2 for a wrong command line, 5 for memory and files.
    pub fn exit_status(self) -> u8 {
        match self {
            WordsFault::Unread | WordsFault::Refused => 2,
            WordsFault::Memory | WordsFault::Output(_) => 5,
        }
    }
}

/// Adds to a hint what there is to say of words that are refused. Fails only for want of memory.
pub fn add_words_fault(
    fault: WordsFault,
    words: &[&str],
    hint: &mut Hint,
    alloc: Global,
) -> Result<(), AllocError> {
    match fault {
        WordsFault::Unread => hint.add(Part::Error, b"a word that isn't UTF-8"),
        WordsFault::Refused => add_refused_words(words, hint, alloc),
        WordsFault::Memory => hint.add(Part::For, b"the words of the command line"),
        WordsFault::Output(why) => {
            hint.add(Part::File, b"standard output")?;
            match why {
                Some(kind) => add_cause(FileFault::System(kind), Doing::Printing, hint, alloc),
                None => Ok(()),
            }
        }
    }
}
