//! A list of the names of tests, read a name at a time.

ghost use Rattle.std.specs.Prelude.{◌≡◌, None, Ok, false, true};

use crate::test_names::{Absent, TestName};
use litmus_suites::{ListFault, NoTest};
use std::alloc::{AllocError, Global};
use text_fields::split_field;

/// A list of names that isn't read to its end.
#[derive(Drop)]
pub(crate) struct TestList {
    path: String,
    text: Vec<u8>,
    /// Where the next line begins.
    at: usize,
    /// The number of the line that was read last; 0 before the first.
    line: usize,
    /// Whether no line so far has a name, and that isn't told yet.
    is_empty: bool,
}

impl TestList {
    /// The list with this text, at this path.
    pub(crate) fn new(path: String, text: Vec<u8>) -> Self
        ensures { result.is_empty ≡ true }
    {
        TestList {
            path,
            text,
            at: 0,
            line: 0,
            is_empty: true,
        }
    }

    pub(crate) fn path(&self) -> &str {
        self.path.as_str()
    }

    /// The line that was read last, which is refused for this.
    pub(crate) fn refused(&self, fault: ListFault, alloc: Global) -> Absent {
        let why = NoTest::List(self.line, fault);
        Absent::at(self.path.as_bytes(), why, None, alloc)
    }

    /// The next name; none behind the last. A list without a name is refused.
    pub(crate) fn next_name(&mut self, alloc: Global) -> Result<Option<TestName>, Absent>
        ensures { result ≡ Ok None → self.old.is_empty ≡ false }
    {
        match self.next_word(alloc) {
            Err(AllocError) => Err(Absent::for_memory(alloc)),
            Ok(Some(word)) => match self.name_of(word.as_slice(), alloc) {
                Ok(name) => Ok(Some(name)),
                Err(absent) => Err(absent),
            },
            Ok(None) if self.is_empty => {
                self.is_empty = false;
                Err(Absent::at(self.path.as_bytes(), NoTest::Empty, None, alloc))
            }
            Ok(None) => Ok(None),
        }
    }

    /// What stands in the next line that has a word: without its comment, and without blanks at its ends.
    fn next_word(&mut self, alloc: Global) -> Result<Option<Vec<u8>>, AllocError>
        ensures { result ≡ Ok None → self.new.is_empty ≡ self.old.is_empty }
    {
        for _turn in 0..u64::MAX {
            let Some(left) = self.text.as_slice().get(self.at..) else {
                return Ok(None);
            };
            if left.is_empty() {
                return Ok(None);
            }
            let (line, behind) = split_field(left, b'\n');
            let word = split_field(line, b'#').0.trim_ascii();
            let copied = Vec::from_slice(alloc, word);
            self.at = self.text.len().saturating_sub(behind.len());
            self.line = self.line.saturating_add(1);
            // Behind this line also where there is no memory for it.
            let word = copied?;
            if !word.is_empty() {
                self.is_empty = false;
                return Ok(Some(word));
            }
        }
        Ok(None)
    }

    /// The name that a word of the list is. A dash is no standard input here.
    fn name_of(&self, word: &[u8], alloc: Global) -> Result<TestName, Absent> {
        let Ok(word) = str::from_utf8(word) else {
            return Err(self.refused(ListFault::NoText, alloc));
        };
        match TestName::in_list(word, folder_of(self.path.as_str()), alloc) {
            Ok(name) => Ok(name),
            Err(AllocError) => Err(Absent::for_memory(alloc)),
        }
    }
}

/// The folder in which a list lies, with the slash behind it.
fn folder_of(path: &str) -> &str {
    match path.rsplit_once('/') {
        Some((folder, _)) => &path[..folder.len() + 1],
        None => "",
    }
}
