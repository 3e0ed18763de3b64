//! A word of a script that says nothing.

use crate::inside_text::word_at;
use crate::line_fault::LineFault;
use crate::named_files::add_second;
use hints::{Hint, Part};
use numbers::sizes::{MOST_ACTORS, MOST_HARTS};
use scripts::read_script;
use std::alloc::{AllocError, Global};

/// The most bytes of a word for which another one is looked for.
const MOST_BYTES: usize = 32;

/// Adds the word of the script with this number, from 1.
pub(crate) fn add_script_word(
    number: usize,
    fault: &LineFault<'_, '_>,
    hint: &mut Hint,
    alloc: Global,
) -> Result<(), AllocError> {
    add_second(fault, hint, alloc)?;
    let Ok(text) = fault.inputs.second else {
        return Ok(());
    };
    let Some(found) = word_at(text, number.saturating_sub(1)) else {
        return Ok(());
    };
    found.add(hint, alloc)?;
    let (actor, hart) = (MOST_ACTORS - 1, MOST_HARTS - 1);
    let expected = format!(in alloc;
        "F0, I3, C3, U3 by an actor 0 to {actor}, or D1.0, R1.0, T2.0 for a hart 0 to {hart} too; *n behind"
    )?;
    hint.add(Part::Expected, expected.as_bytes())?;
    match meant(found.word, alloc)? {
        Some(meant) => hint.add(Part::Meant, meant.as_slice()),
        None => Ok(()),
    }
}

/// Which word was meant, probably: the same in upper case, without a comma or semicolon behind it, with a
/// comma as a point, for hart 0, or without a hart. The first of these that says something.
fn meant(word: &[u8], alloc: Global) -> Result<Option<Vec<u8>>, AllocError> {
    if word.len() > MOST_BYTES {
        return Ok(None);
    }
    let mut upper = Vec::new(alloc);
    for byte in ended(word) {
        upper.push(byte.to_ascii_uppercase())?;
    }
    if is_word(&upper, alloc) {
        return Ok(Some(upper));
    }
    let mut pointed = Vec::new(alloc);
    for byte in &upper {
        pointed.push(if *byte == b',' { b'.' } else { *byte })?;
    }
    if is_word(&pointed, alloc) {
        return Ok(Some(pointed));
    }
    let mut of_hart = Vec::new(alloc);
    of_hart.extend_from_slice(&upper)?;
    of_hart.extend_from_slice(b".0")?;
    if is_word(&of_hart, alloc) {
        return Ok(Some(of_hart));
    }
    let mut without = Vec::new(alloc);
    without.extend_from_slice(up_to_point(&upper))?;
    if is_word(&without, alloc) {
        return Ok(Some(without));
    }
    Ok(None)
}

/// A word without what ends it in a list.
fn ended(word: &[u8]) -> &[u8] {
    match word.split_last() {
        Some((b',' | b';', rest)) => rest,
        _ => word,
    }
}

fn up_to_point(word: &[u8]) -> &[u8] {
    match word.iter().position(|byte| *byte == b'.') {
        Some(point) => &word[..point],
        None => word,
    }
}

/// Whether a text is one word of a script that says something.
fn is_word(text: &[u8], alloc: Global) -> bool {
    match read_script(text, alloc) {
        Ok(words) => words.len() == 1,
        Err(_) => false,
    }
}
