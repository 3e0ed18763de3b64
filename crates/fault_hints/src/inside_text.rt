//! Words and lines of a text, and where they stand.

use hints::{Hint, Part};
use std::alloc::{AllocError, Global};

/// A word of a text, and where it begins: line and column from 1, a column counts bytes.
#[derive(Clone, Copy, Drop)]
pub(crate) struct WordAt<'a> {
    pub word: &'a [u8],
    pub line: usize,
    pub column: usize,
}

impl WordAt<'_> {
    /// Adds where it stands, and the word.
    pub(crate) fn add(&self, hint: &mut Hint, alloc: Global) -> Result<(), AllocError> {
        let (line, column) = (self.line, self.column);
        let place = format!(in alloc; "line {line}, column {column}")?;
        hint.add(Part::Place, place.as_bytes())?;
        hint.add(Part::Word, self.word)
    }
}

fn is_separator(byte: u8) -> bool {
    byte == b' ' || byte == b'\n'
}

/// The word of a text with this number, from 0; words are apart by spaces or newlines.
pub(crate) fn word_at(text: &[u8], number: usize) -> Option<WordAt<'_>> {
    let (mut line, mut line_begin, mut words) = (1_usize, 0, 0_usize);
    let mut is_behind_separator = true;
    for (at, byte) in text.iter().enumerate() {
        if *byte == b'\n' {
            line = line.saturating_add(1);
            line_begin = at.saturating_add(1);
        } else if is_behind_separator && !is_separator(*byte) {
            if words == number {
                let column = at.saturating_sub(line_begin).saturating_add(1);
                let word = first_word(text.get(at..)?);
                return Some(WordAt { word, line, column });
            }
            words = words.saturating_add(1);
        }
        is_behind_separator = is_separator(*byte);
    }
    None
}

/// A text up to its first space or newline.
fn first_word(text: &[u8]) -> &[u8] {
    match text.iter().position(|byte| is_separator(*byte)) {
        Some(end) => &text[..end],
        None => text,
    }
}

/// The line of a text with this number, from 1, without its newline.
pub(crate) fn line_at(text: &[u8], number: usize) -> Option<&[u8]> {
    let mut rest = text;
    for _ in 1..number {
        let end = rest.iter().position(|byte| *byte == b'\n')?;
        rest = rest.get(end.checked_add(1)?..)?;
    }
    match rest.iter().position(|byte| *byte == b'\n') {
        Some(end) => Some(&rest[..end]),
        None => Some(rest),
    }
}

/// Adds a line of a text by its number, and what stands there.
pub(crate) fn add_line(
    text: &[u8],
    number: usize,
    hint: &mut Hint,
    alloc: Global,
) -> Result<(), AllocError> {
    let place = format!(in alloc; "line {number}")?;
    hint.add(Part::Place, place.as_bytes())?;
    match line_at(text, number) {
        Some(line) => hint.add(Part::Line, line),
        None => Ok(()),
    }
}
