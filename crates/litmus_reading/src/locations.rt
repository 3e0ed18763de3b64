//! The names of locations: those that stand in the braces, and where each stands in memory.

ghost use Rattle.std.specs.Prelude.{◌≡◌, ◌≢◌, ◌≤◌, ◌+◌, ◌*◌, [], map, unwrap_or, All, IfOk, OnOk};
ghost use Rattle.litmus_tests.specs.Limits.{most_locations};
ghost use Rattle.watched_outcomes.specs.Watching.{bytes_of};
ghost use Rattle.litmus_words.specs.Answered.{Gives, GivesOrMemory};
ghost use Rattle.litmus_words.specs.Bytes.{bytes_in};
ghost use Rattle.litmus_reading.specs.Memory.{word_total};
ghost use Rattle.litmus_reading.specs.Names.{
  behind,
  declared_at,
  elements_of,
  is_new,
  located_word,
  declared_of,
  names_in,
  new_names,
  start_of_memory,
  IsNewLocation,
};

use crate::declarations::{Declaration, declaration_of};
use litmus_tests::Width;
use litmus_tests::test::MOST_LOCATIONS;
use litmus_words::{Declared, Fault, Stop, Token, Word, bytes_of, same_bytes};
use std::alloc::Global;

/// A name, where it stands first, and what it is the name of.
#[derive(Clone, Copy, Drop)]
pub(crate) struct Named {
    pub word: Word,
    pub declared: Declared,
}

/// Where a location or an array begins: its index among the locations, and its byte.
#[derive(Clone, Copy, Drop)]
pub(crate) struct Beginning {
    pub first: usize,
    pub byte: usize,
}

/// The names in these words, each where it stands first. Each location and each array begins a word of memory, one
/// behind the other.
pub(crate) fn locations_in(text: &[u8], words: &[Word], alloc: Global) -> Result<Vec<Named>, Stop>
    ensures names { IfOk result (λ names. names.items ≡ new_names text.now words.now [] start_of_memory words.now) }
    ensures named { IfOk result (λ names. All (IsNewLocation text.now) names.items) }
    ensures only { All (IsNewLocation text.now) (names_in text.now words.now)
        → word_total (names_in text.now words.now) ≤ most_locations → GivesOrMemory result (λ _. Unit {0}) }
{
    let mut names = Vec::new(alloc);
    let mut next = Beginning { first: 0, byte: 0 };
    for word in words {
        if !is_new(text, names.as_slice(), *word) {
            continue;
        }
        check_name(text, *word)?;
        let declared = declared_at(next, declaration_of(text, words, *word), word.start)?;
        names.push(Named {
            word: *word,
            declared,
        })?;
        next = behind(declared);
    }
    Ok(names)
}

/// Refuses a name that no location may have.
fn check_name(text: &[u8], word: Word) -> Result<(), Stop>
    ensures named { OnOk result (All (λ byte. byte ≢ 46) (bytes_in text.now word)) }
    ensures only { All (λ byte. byte ≢ 46) (bytes_in text.now word) → Gives result (λ _. Unit {0}) }
{
    if bytes_of(text, word).contains(&b'.') {
        return Err(Stop::at(word.start, Fault::NotOfSubset));
    }
    Ok(())
}

/// What begins there and is declared so. More words than there may be are refused at this byte.
fn declared_at(next: Beginning, declaration: Declaration, at: usize) -> Result<Declared, Stop>
    requires { (next.first ≤ next.byte) × (next.byte ≤ 256) }
    ensures is { IfOk result (λ declared. declared ≡ declared_at next declaration) }
    ensures small { IfOk result (λ declared. declared.byte + declared.size ≤ 256) }
    ensures only { next.byte + unwrap_or declaration.elements 1 * bytes_of declaration.number_type.width ≤ 256
        → Gives result (λ _. Unit {0}) }
{
    let size = size_of(
        declaration.number_type.width,
        declaration.elements.unwrap_or(1),
    );
    if size > 4 * MOST_LOCATIONS - next.byte {
        return Err(Stop::at(at, Fault::TooManyLocations));
    }
    Ok(Declared {
        first: next.first as u16,
        byte: next.byte as u16,
        size: size as u16,
        number_type: declaration.number_type,
        is_array: declaration.elements.is_some(),
    })
}

/// How many bytes so many numbers of this width have.
fn size_of(width: Width, count: u32) -> usize
    ensures { result ≡ count * bytes_of width }
{
    match width {
        Width::Byte => count as usize,
        Width::Half => count as usize * 2,
        Width::Word => count as usize * 4,
    }
}

/// How many elements a location or an array has.
pub(crate) fn elements_of(declared: Declared) -> u16
    ensures value { result ≡ elements_of declared }
    ensures few { result ≤ declared.size }
{
    match declared.number_type.width {
        Width::Byte => declared.size,
        Width::Half => declared.size / 2,
        Width::Word => declared.size / 4,
    }
}

/// The index of an element among the locations.
pub(crate) fn index_of(declared: Declared, element: u16) -> usize
    ensures { result ≡ declared.first + element }
{
    declared.first as usize + element as usize
}

/// Where the next location begins: at a word.
fn behind(declared: Declared) -> Beginning
    ensures is { result ≡ behind declared }
    ensures order { declared.first ≤ declared.byte → result.first ≤ result.byte }
    ensures inside { declared.byte + declared.size ≤ 256 → result.byte ≤ 256 }
{
    Beginning {
        first: index_of(declared, elements_of(declared)),
        byte: (declared.byte as usize + declared.size as usize + 3) / 4 * 4,
    }
}

/// How many locations these names are, each element of an array one.
pub(crate) fn count_of(names: &[Named]) -> usize {
    match names.last() {
        Some(last) => index_of(last.declared, elements_of(last.declared)),
        None => 0,
    }
}

/// Whether a word is a name that isn't among these.
fn is_new(text: &[u8], names: &[Named], word: Word) -> bool
    ensures { result ≡ is_new text.now names.now word }
{
    match word.token {
        Token::Name => declared_of(text, names, word).is_none(),
        _ => false,
    }
}

/// What a word is the name of, among these.
fn declared_of(text: &[u8], names: &[Named], word: Word) -> Option<Declared>
    ensures { result ≡ declared_of text.now names.now word }
{
    for name in names {
        if same_bytes(text, name.word, word) {
            return Some(name.declared);
        }
    }
    None
}

/// The words, in which a name of a location is the location.
pub(crate) fn located(
    text: &[u8],
    words: &[Word],
    names: &[Named],
    alloc: Global,
) -> Result<Vec<Word>, Stop>
    ensures located { IfOk result (λ all. all.items ≡ map (located_word text.now names.now) words.now) }
    ensures only { GivesOrMemory result (λ _. Unit {0}) }
{
    let mut all = Vec::new(alloc);
    for word in words {
        all.push(located_word(text, *word, names))?;
    }
    Ok(all)
}

fn located_word(text: &[u8], word: Word, names: &[Named]) -> Word
    ensures { result ≡ located_word text.now names.now word }
{
    match word.token {
        Token::Name => match declared_of(text, names, word) {
            Some(declared) => Word {
                token: Token::Location(declared),
                ..word
            },
            None => word,
        },
        _ => word,
    }
}
