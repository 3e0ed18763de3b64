//! A text cut into words. Blanks, line ends and comments stand between them.

ghost use Rattle.std.specs.Prelude.{◌≡◌, ◌+◌, ◌≤◌, ◌<◌, ℕ, true, false, List, length, slice_index, slice_range};
ghost use Rattle.std.specs.Prelude.{All, IfErr, IfNone, IfOk, IfSome};
ghost use Rattle.std.specs.Char.{is_ascii_digit};
ghost use Rattle.litmus_words.specs.declared.word.Mark.{Mark as AnyMark};
ghost use Rattle.litmus_words.specs.declared.word.Word.{Word as AnyWord};
ghost use Rattle.litmus_words.specs.Answered.{Gives, GivesOrMemory};
ghost use Rattle.litmus_words.specs.Comments.{IsRestOf, Opens};
ghost use Rattle.litmus_words.specs.Gaps.{IsGap, IsGapEnd, StandFrom};
ghost use Rattle.litmus_words.specs.Words.{begins_name, GoesOn, IsSignNamed, IsWordAt, IsWordOf};

use crate::names::{is_of_name, name_token, sign_of};
use crate::numeral::number_of_word;
use crate::refused::{Fault, Stop};
use crate::word::{Mark, Token, Word};
use std::alloc::Global;

/// The words from this byte on.
pub fn words_of(text: &[u8], from: usize, alloc: Global) -> Result<Vec<Word>, Stop>
    requires { from ≤ length text.now }
    ensures spelled { IfOk result (λ words. All (IsWordOf text.now) words.items) }
    ensures stand { IfOk result (λ words. StandFrom text.now from words.items) }
    ensures only { (words : List AnyWord) → StandFrom text.now from words
        → GivesOrMemory result (λ found. found.items ≡ words) }
{
    let mut words = Vec::new(alloc);
    let mut at = skip_blanks(text, from)?;
    while at < text.len() {
        let word = word_at(text, at)?;
        words.push(word)?;
        at = skip_blanks(text, word.end)?;
    }
    Ok(words)
}

/// Where the next word begins, or the text ends.
pub fn skip_blanks(text: &[u8], from: usize) -> Result<usize, Stop>
    requires { from ≤ length text.now }
    ensures on { IfOk result (λ at. from ≤ at) }
    ensures inside { IfOk result (λ at. at ≤ length text.now) }
    ensures gap { IfOk result (IsGap text.now from) }
    ensures over { IfOk result (IsGapEnd text.now) }
    ensures only { (to : ℕ) → IsGap text.now from to → IsGapEnd text.now to → Gives result (λ at. at ≡ to) }
{
    let mut at = from;
    while at < text.len() {
        if text[at].is_ascii_whitespace() {
            at += 1;
        } else if opens_at(text, at) {
            at = comment_end(text, at)?;
        } else {
            return Ok(at);
        }
    }
    Ok(at)
}

/// Whether a comment opens there.
fn opens_at(text: &[u8], at: usize) -> bool
    requires { at < length text.now }
    ensures inside { result ≡ true → at + 2 ≤ length text.now }
    ensures opens { result ≡ true → Opens text.now at }
    ensures other { result ≡ false → Opens text.now at → ⊥ }
{
    if text.len() - at < 2 {
        return false;
    }
    if text[at] == b'(' {
        return text[at + 1] == b'*';
    }
    false
}

/// The byte behind the comment that opens there. Comments may stand in it.
fn comment_end(text: &[u8], from: usize) -> Result<usize, Stop>
    requires { from + 2 ≤ length text.now }
    ensures on { IfOk result (λ at. from < at) }
    ensures inside { IfOk result (λ at. at ≤ length text.now) }
    ensures rest { IfOk result (IsRestOf text.now 1 (from + 2)) }
    ensures only { (to : ℕ) → IsRestOf text.now 1 (from + 2) to → Gives result (λ at. at ≡ to) }
{
    let mut depth = 1usize;
    let mut at = from + 2;
    while text.len() - at >= 2 {
        if text[at] == b'(' && text[at + 1] == b'*' {
            depth += 1;
            at += 2;
        } else if text[at] == b'*' && text[at + 1] == b')' {
            at += 2;
            if depth <= 1 {
                return Ok(at);
            }
            depth -= 1;
        } else {
            at += 1;
        }
    }
    Err(Stop::at(from, Fault::EndlessComment))
}

/// The word that begins there.
fn word_at(text: &[u8], at: usize) -> Result<Word, Stop>
    requires inside { at < length text.now }
    requires no_comment { Opens text.now at → ⊥ }
    ensures begins { IfOk result (λ word. word.start ≡ at) }
    ensures start { IfOk result (λ word. at < word.end) }
    ensures inside { IfOk result (λ word. word.end ≤ length text.now) }
    ensures spelled { IfOk result (IsWordOf text.now) }
    ensures refused { IfErr result (λ _. (word : AnyWord) → IsWordAt text.now at word → ⊥) }
{
    let first = text[at];
    if first.is_ascii_alphabetic() {
        return Ok(name_at(text, at));
    }
    if first == b'_' {
        return Ok(name_at(text, at));
    }
    if first.is_ascii_digit() {
        return number_at(text, at);
    }
    match sign_at(text, at) {
        Some((mark, end)) => Ok(Word {
            start: at,
            end,
            token: Token::Mark(mark),
        }),
        None => Err(Stop::at(at, Fault::NotOfSubset)),
    }
}

/// The name that begins there.
fn name_at(text: &[u8], at: usize) -> Word
    requires inside { at < length text.now }
    requires begins { begins_name (slice_index text.now at) ≡ true }
    ensures begins { result.start ≡ at }
    ensures start { at < result.end }
    ensures inside { result.end ≤ length text.now }
    ensures spelled { IsWordOf text.now result }
{
    let end = name_end(text, at + 1);
    Word {
        start: at,
        end,
        token: name_token(&text[at..end]),
    }
}

/// The number that begins there.
fn number_at(text: &[u8], at: usize) -> Result<Word, Stop>
    requires inside { at < length text.now }
    requires begins { is_ascii_digit (slice_index text.now at) ≡ true }
    ensures begins { IfOk result (λ word. word.start ≡ at) }
    ensures start { IfOk result (λ word. at < word.end) }
    ensures inside { IfOk result (λ word. word.end ≤ length text.now) }
    ensures spelled { IfOk result (IsWordOf text.now) }
    ensures refused { IfErr result (λ _. (word : AnyWord) → IsWordAt text.now at word → ⊥) }
{
    let end = name_end(text, at + 1);
    match number_of_word(&text[at..end]) {
        Ok(number) => Ok(Word {
            start: at,
            end,
            token: Token::Number(number),
        }),
        Err(fault) => Err(Stop::at(at, fault)),
    }
}

/// Where a name ends that goes on at this byte.
pub fn name_end(text: &[u8], from: usize) -> usize
    requires { from ≤ length text.now }
    ensures on { from ≤ result }
    ensures inside { result ≤ length text.now }
    ensures whole { GoesOn text.now from result }
{
    let mut at = from;
    while at < text.len() {
        if !is_of_name(text[at]) {
            return at;
        }
        at += 1;
    }
    at
}

/// The longest sign that begins there, and the byte behind it.
fn sign_at(text: &[u8], at: usize) -> Option<(Mark, usize)>
    requires { at < length text.now }
    ensures on { IfSome result (λ p. at < p.1) }
    ensures inside { IfSome result (λ p. p.1 ≤ length text.now) }
    ensures found { IfSome result (λ p. IsSignNamed (slice_range text.now at p.1) p.0) }
    ensures longest { IfSome result (λ p. (mark : AnyMark) → (end : ℕ) → end ≤ length text.now
        → IsSignNamed (slice_range text.now at end) mark → end ≤ p.1) }
    ensures none { IfNone result ((mark : AnyMark) → (end : ℕ) → end ≤ length text.now
        → IsSignNamed (slice_range text.now at end) mark → ⊥) }
{
    if let Some(found) = sign_of_length(text, at, 3) {
        return Some(found);
    }
    if let Some(found) = sign_of_length(text, at, 2) {
        return Some(found);
    }
    sign_of_length(text, at, 1)
}

/// The sign of so many bytes that begins there, and the byte behind it.
fn sign_of_length(text: &[u8], at: usize, count: usize) -> Option<(Mark, usize)>
    requires inside { at < length text.now }
    requires some { (1 ≤ count) × (count ≤ 3) }
    ensures inside { IfSome result (λ p. p.1 ≤ length text.now) }
    ensures end { IfSome result (λ p. p.1 ≡ at + count) }
    ensures found { IfSome result (λ p. IsSignNamed (slice_range text.now at p.1) p.0) }
    ensures none { IfNone result ((mark : AnyMark) → at + count ≤ length text.now
        → IsSignNamed (slice_range text.now at (at + count)) mark → ⊥) }
{
    if text.len() - at < count {
        return None;
    }
    match sign_of(&text[at..at + count]) {
        Some(mark) => Some((mark, at + count)),
        None => None,
    }
}
