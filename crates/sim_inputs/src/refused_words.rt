//! Why words are a wrong command line, for a person: what `clap` says of them, and what is refused behind it.
//! Each control character of a word is spelled out before `clap` sees it, so that its lines stay its own.

use crate::description::describe;
use crate::refused_options::add_refused_options;
use clap::error::ErrorKind;
use hints::{Hint, Part};
use shown_text::write_shown;
use std::alloc::{AllocError, Global};

/// The most bytes of a word that are shown to `clap`.
const MOST_SHOWN: usize = 100;

/// Adds to a hint why these words, the program's name first, are a wrong command line. Fails only for want of
/// memory.
pub fn add_refused_words(words: &[&str], hint: &mut Hint, alloc: Global) -> Result<(), AllocError> {
    let shown = shown_words(words, alloc)?;
    let mut texts = Vec::new(alloc);
    for word in &shown {
        texts.push(word.as_str())?;
    }
    let command = describe(alloc)?;
    match command.try_get_matches_from(texts.as_slice()) {
        Ok(matches) => add_refused_options(&matches, hint, alloc),
        Err(error) if error.kind() == ErrorKind::OutOfMemory => Err(AllocError),
        Err(error) => {
            let said = error.to_string(alloc)?;
            add_said(said.as_str(), hint, alloc)
        }
    }
}

/// The words as they are shown, each cut behind a hundred bytes.
fn shown_words(words: &[&str], alloc: Global) -> Result<Vec<String>, AllocError> {
    let mut all = Vec::new(alloc);
    for word in words {
        all.push(shown_word(word, alloc)?)?;
    }
    Ok(all)
}

fn shown_word(word: &str, alloc: Global) -> Result<String, AllocError> {
    let (begin, is_cut) = beginning(word);
    let mut shown = Vec::new(alloc);
    if write_shown(begin.as_bytes(), &mut shown).is_err() {
        return Err(AllocError);
    }
    if is_cut {
        shown.extend_from_slice(b"...")?;
    }
    match String::from_utf8(shown) {
        Ok(shown) => Ok(shown),
        Err(_) => Err(AllocError),
    }
}

/// As much of a word as is shown, in whole characters, and whether there is more of it.
fn beginning(word: &str) -> (&str, bool) {
    // Of the last four bytes of a longer word one begins a character.
    for less in 0..4 {
        if let Some(begin) = word.get(..MOST_SHOWN - less) {
            return (begin, begin.len() < word.len());
        }
    }
    (word, false)
}

/// Adds the lines that `clap` says: one that begins with none of its words goes on with the one before.
fn add_said(said: &str, hint: &mut Hint, alloc: Global) -> Result<(), AllocError> {
    let mut part = Part::Error;
    let mut text = String::new(alloc);
    for line in said.split('\n') {
        let line = line.trim();
        if line.is_empty() {
            continue;
        }
        let Some((next, rest)) = begun(line) else {
            text.push_str(" ")?;
            text.push_str(line)?;
            continue;
        };
        if !text.is_empty() {
            hint.add(part, text.as_bytes())?;
        }
        part = next;
        text.clear();
        text.push_str(rest)?;
    }
    hint.add(part, text.as_bytes())
}

/// Which part a line of `clap` begins, and what it says.
fn begun(line: &str) -> Option<(Part, &str)> {
    if let Some(rest) = line.strip_prefix("error: ") {
        return Some((Part::Error, rest));
    }
    if let Some(rest) = line.strip_prefix("tip: ") {
        return Some((Part::Tip, rest));
    }
    if let Some(rest) = line.strip_prefix("Usage: ") {
        return Some((Part::Usage, rest));
    }
    let rest = line.strip_prefix("For more information, ")?;
    Some((Part::More, rest))
}
