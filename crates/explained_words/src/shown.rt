//! A word as it is shown.

use crate::placed::{Placed, is_continued};
use shown_text::write_shown;
use std::io;
use std::io::Write;

/// How many bytes of a word are shown.
const MOST_SHOWN: usize = 40;

/// Writes where a word stands, and the word: `line 3, column 1: ` and the word in backquotes.
pub(crate) fn write_placed<W: Write>(placed: &Placed<'_>, out: &mut W) -> io::Result<()> {
    let (line, column) = (placed.line, placed.column);
    write!(out, "line {line}, column {column}: ")?;
    write_word(placed.word, out)
}

/// Writes a word in backquotes, a longer one cut, with how many bytes of it aren't shown.
pub(crate) fn write_word<W: Write>(word: &[u8], out: &mut W) -> io::Result<()> {
    let shown = cut(word);
    out.write_all(b"`")?;
    write_shown(shown, out)?;
    out.write_all(b"`")?;
    if shown.len() < word.len() {
        let others = word.len().saturating_sub(shown.len());
        write!(out, " and {others} more bytes")?;
    }
    Ok(())
}

/// What is shown of a word: all of it, or its first characters, of which none is cut.
fn cut(word: &[u8]) -> &[u8] {
    if word.len() <= MOST_SHOWN {
        return word;
    }
    for back in 0..3 {
        let end = MOST_SHOWN - back;
        if !is_continued(word[end]) {
            return word.get(..end).unwrap_or(word);
        }
    }
    word.get(..MOST_SHOWN - 3).unwrap_or(word)
}
