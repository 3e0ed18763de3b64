//! What the entries of the braces declare: of each location its type, and of an array how many elements it has.

ghost use Rattle.std.specs.Prelude.{◌≡◌};
ghost use Rattle.litmus_reading.specs.Declarations.{
  begins,
  begins_with_name,
  behind_one,
  declaration_of,
  declared,
  declared_by,
  elements_behind,
  elements_in,
  is_bracket,
  is_star,
  opened,
  type_before,
  untyped,
};

use litmus_tests::{INT, NumberType};
use litmus_words::{Mark, Token, Word, cut, same_bytes};

/// What an entry declares of a name.
#[derive(Clone, Copy, Drop)]
pub(crate) struct Declaration {
    pub number_type: NumberType,
    /// Of an array, how many elements it has.
    pub elements: Option<u32>,
}

/// A word of 32 bits with a sign, no array.
const PLAIN: Declaration = Declaration {
    number_type: INT,
    elements: None,
};

/// What the first entry says that declares this name; a word where none does.
pub(crate) fn declaration_of(text: &[u8], words: &[Word], name: Word) -> Declaration
    ensures { result ≡ declaration_of text.now words.now name }
{
    let mut rest = words;
    while !rest.is_empty() {
        let (entry, behind) = cut(rest, Mark::Semicolon);
        match declared_by(text, entry, name) {
            Some(declaration) => return declaration,
            None => rest = behind,
        }
    }
    PLAIN
}

/// What an entry declares, if it is of this name.
fn declared_by(text: &[u8], entry: &[Word], name: Word) -> Option<Declaration>
    ensures { result ≡ declared_by text.now entry.now name }
{
    if begins_with_name(text, opened(entry), name) {
        return Some(declared(entry));
    }
    None
}

/// What an entry declares of its name: a pointer is an `int`, and what stands in brackets is no array.
fn declared(entry: &[Word]) -> Declaration
    ensures { result ≡ declared entry.now }
{
    let (number_type, rest) = behind_type(entry);
    if begins_with_star(rest) {
        return PLAIN;
    }
    if begins_with_bracket(rest) {
        return Declaration {
            number_type,
            elements: None,
        };
    }
    Declaration {
        number_type,
        elements: elements_behind(rest),
    }
}

/// An entry from its name on: behind its type, `*` and `[`.
fn opened(entry: &[Word]) -> &[Word]
    ensures { result.now ≡ opened entry.now }
{
    let (_, rest) = behind_type(entry);
    behind_bracket(behind_star(rest))
}

/// The type with which an entry begins, `int` where it does with none, and the words behind.
pub(crate) fn behind_type(entry: &[Word]) -> (NumberType, &[Word])
    ensures number_type { result.0 ≡ type_before entry.now }
    ensures behind { result.1.now ≡ untyped entry.now }
{
    let Some((word, rest)) = entry.split_first() else {
        return (INT, entry);
    };
    match word.token {
        Token::Type(number_type) => (number_type, rest),
        _ => (INT, entry),
    }
}

/// The words behind a `*`, if they begin with one.
pub(crate) fn behind_star(words: &[Word]) -> &[Word]
    ensures { result.now ≡ behind_one is_star words.now }
{
    let Some((word, rest)) = words.split_first() else {
        return words;
    };
    match word.token {
        Token::Mark(Mark::Star) => rest,
        _ => words,
    }
}

/// The words behind a `[`, if they begin with one.
fn behind_bracket(words: &[Word]) -> &[Word]
    ensures { result.now ≡ behind_one is_bracket words.now }
{
    let Some((word, rest)) = words.split_first() else {
        return words;
    };
    match word.token {
        Token::Mark(Mark::LeftBracket) => rest,
        _ => words,
    }
}

/// Whether words begin with a `*`.
pub(crate) fn begins_with_star(words: &[Word]) -> bool
    ensures { result ≡ begins is_star words.now }
{
    match words.first() {
        Some(word) => match word.token {
            Token::Mark(Mark::Star) => true,
            _ => false,
        },
        None => false,
    }
}

/// Whether words begin with a `[`.
fn begins_with_bracket(words: &[Word]) -> bool
    ensures { result ≡ begins is_bracket words.now }
{
    match words.first() {
        Some(word) => match word.token {
            Token::Mark(Mark::LeftBracket) => true,
            _ => false,
        },
        None => false,
    }
}

/// Whether words begin with this name.
fn begins_with_name(text: &[u8], words: &[Word], name: Word) -> bool
    ensures { result ≡ begins_with_name text.now name words.now }
{
    match words.first() {
        Some(word) => match word.token {
            Token::Name => same_bytes(text, *word, name),
            _ => false,
        },
        None => false,
    }
}

/// How many elements an array has, with whose name these words begin.
fn elements_behind(words: &[Word]) -> Option<u32>
    ensures { result ≡ elements_behind words.now }
{
    match words.split_first() {
        Some((_, behind)) => elements_in(behind),
        None => None,
    }
}

/// The number of elements in `[2]`.
fn elements_in(words: &[Word]) -> Option<u32>
    ensures { result ≡ elements_in words.now }
{
    if words.len() < 2 {
        return None;
    }
    if !begins_with_bracket(words) {
        return None;
    }
    match words[1].token {
        Token::Number(elements) => Some(elements),
        _ => None,
    }
}
