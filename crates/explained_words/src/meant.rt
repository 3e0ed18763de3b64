//! Which word of a script was meant by one that says nothing.

use crate::kind::{EVERY_KIND, Kind};
use crate::never::is_unit;
use arrayvec::ArrayString;
use explanations::no_memory;
use smt_model::Config;
use std::alloc::{AllocError, Global};
use std::io::Write;
use std::{io, str};
use strsim::osa_distance;
use text_fields::{push_ascii, push_small_number};

/// A word without a repetition.
type Word = ArrayString<8>;

/// How many bytes a word may have that was meant as another one.
const MOST_BYTES: usize = 12;

/// Writes the word that is the nearest to another one among those that this core may follow, if one is near: at
/// most a third of the letters of the longer one, rounded up, are other, missing, exchanged or too many. Where the
/// first letter is one of an ask, large or small, it is that of the other one. Of a word at whose repetition alone
/// something is wrong, nothing is written.
pub(crate) fn write_meant<W: Write>(
    word: &[u8],
    config: &Config,
    out: &mut W,
    alloc: Global,
) -> io::Result<()> {
    let Some(text) = without_repetition(word) else {
        return Ok(());
    };
    match nearest(text, config, alloc) {
        Ok(Some(near)) if near.distance > 0 => {
            writeln!(out, "`{text}`: did you mean `{}`?", near.word.as_str())
        }
        Ok(_) => Ok(()),
        Err(AllocError) => Err(no_memory()),
    }
}

/// What stands before the asterisk of a short word, or all of it; none where it isn't spelled in printable ASCII.
fn without_repetition(word: &[u8]) -> Option<&str> {
    let text = match word.iter().position(|byte| *byte == b'*') {
        Some(end) => word.get(..end)?,
        None => word,
    };
    if text.is_empty()
        || text.len() > MOST_BYTES
        || !text.iter().all(|byte| byte.is_ascii_graphic())
    {
        return None;
    }
    str::from_utf8(text).ok()
}

/// A word, and how near it is to another one.
#[derive(Drop)]
struct Near {
    word: Word,
    /// How many letters are other, missing, too many or exchanged.
    distance: usize,
    /// How many the two begin with alike.
    alike: usize,
}

/// The word of an actor and a hart of the core that is the nearest, if one is near: of equally near ones the one that
/// begins most alike, and of these the first.
fn nearest(text: &str, config: &Config, alloc: Global) -> Result<Option<Near>, AllocError> {
    let mut nearest: Option<Near> = None;
    let first = kind_of(text);
    for kind in EVERY_KIND {
        if first.is_some_and(|first| first != kind) {
            continue;
        }
        for actor in 0..config.roles.len() as u8 {
            for hart in 0..words_of(kind, actor, config) {
                if let Some(near) = near_word(text, kind, actor, hart, alloc)? {
                    if is_nearer(&near, &nearest) {
                        nearest = Some(near);
                    }
                }
            }
        }
    }
    Ok(nearest)
}

/// The kind by the letter, large or small, that a text begins with.
fn kind_of(text: &str) -> Option<Kind> {
    let first = *text.as_bytes().first()?;
    EVERY_KIND
        .iter()
        .copied()
        .find(|kind| kind.letter().eq_ignore_ascii_case(&first))
}

/// A word, if it is near.
fn near_word(
    text: &str,
    kind: Kind,
    actor: u8,
    hart: u8,
    alloc: Global,
) -> Result<Option<Near>, AllocError> {
    let word = spelled(kind, actor, hart);
    let distance = osa_distance(alloc, text, word.as_str())?;
    if distance > word.len().max(text.len()).div_ceil(3) {
        return Ok(None);
    }
    let alike = alike_start(text.as_bytes(), word.as_bytes());
    Ok(Some(Near {
        word,
        distance,
        alike,
    }))
}

/// Whether a word is nearer than the nearest so far.
fn is_nearer(near: &Near, nearest: &Option<Near>) -> bool {
    match nearest {
        Some(other) if near.distance == other.distance => near.alike > other.alike,
        Some(other) => near.distance < other.distance,
        None => true,
    }
}

/// How many bytes two texts begin alike with.
fn alike_start(one: &[u8], other: &[u8]) -> usize {
    let both = one.len().min(other.len());
    one.iter()
        .zip(other.iter())
        .position(|(a, b)| a != b)
        .unwrap_or(both)
}

/// How many words of a kind and an actor there are: one for each hart, or one, and of a unit's kind none for an actor
/// that is no unit.
fn words_of(kind: Kind, actor: u8, config: &Config) -> u8 {
    if kind.is_for_a_hart() {
        return config.harts;
    }
    if kind.is_of_a_unit() && !is_unit(actor, config) {
        return 0;
    }
    1
}

/// A word of a script.
fn spelled(kind: Kind, actor: u8, hart: u8) -> Word {
    let mut word = Word::new();
    push_ascii(&mut word, kind.letter());
    push_small_number(&mut word, actor);
    if kind.is_for_a_hart() {
        push_ascii(&mut word, b'.');
        push_small_number(&mut word, hart);
    }
    word
}
