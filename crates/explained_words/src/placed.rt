//! The words of a text, with their places.

/// A word of a text, and the line and the column, both from 1, at which it stands. A column counts characters.
#[derive(Clone, Copy, Drop)]
pub(crate) struct Placed<'a> {
    pub(crate) word: &'a [u8],
    pub(crate) line: usize,
    pub(crate) column: usize,
}

/// The words of a text, one after another.
#[derive(Clone, Copy, Drop)]
pub(crate) struct Words<'a> {
    rest: &'a [u8],
    line: usize,
    column: usize,
}

impl<'a> Words<'a> {
    /// All words of a text.
    pub(crate) fn of(text: &'a [u8]) -> Self {
        Words {
            rest: text,
            line: 1,
            column: 1,
        }
    }

    /// The next word, which is empty behind the last.
    pub(crate) fn next_word(&mut self) -> Placed<'a> {
        self.pass(separators_before(self.rest));
        let (line, column) = (self.line, self.column);
        let word = self.pass(length_of_word(self.rest));
        Placed { word, line, column }
    }

    /// The word that stands behind this many others.
    pub(crate) fn nth_word(&mut self, others: usize) -> Placed<'a> {
        for _other in 0..others {
            self.next_word();
        }
        self.next_word()
    }

    /// Goes behind so many bytes, and answers them.
    fn pass(&mut self, count: usize) -> &'a [u8] {
        let count = count.min(self.rest.len());
        let (passed, rest) = self.rest.split_at(count);
        for byte in passed {
            if *byte == b'\n' {
                self.line = self.line.saturating_add(1);
                self.column = 1;
            } else if !is_continued(*byte) {
                self.column = self.column.saturating_add(1);
            }
        }
        self.rest = rest;
        passed
    }
}

/// How many separators a text begins with.
fn separators_before(text: &[u8]) -> usize {
    text.iter()
        .position(|byte| !is_separator(*byte))
        .unwrap_or(text.len())
}

/// How many bytes of a word it begins with.
fn length_of_word(text: &[u8]) -> usize {
    text.iter()
        .position(|byte| is_separator(*byte))
        .unwrap_or(text.len())
}

/// Whether a byte separates words.
fn is_separator(byte: u8) -> bool {
    byte == b' ' || byte == b'\n'
}

/// Whether a byte of UTF-8 is a further one of its character.
pub(crate) fn is_continued(byte: u8) -> bool {
    byte & 0xc0 == 0x80
}
