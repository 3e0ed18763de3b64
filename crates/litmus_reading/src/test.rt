//! A whole test.

ghost use Rattle.std.specs.Prelude.{◌≡◌, ◌≤◌, ◌<◌, ◌+◌, ◌*◌, ℕ, List, length, get_or, slice_range, All, IfOk, IfErr, IfSome, OnOk};
ghost use Rattle.std.specs.List.{AllZip};
ghost use Rattle.litmus_tests.specs.WellFormed.{IsWellFormed};
ghost use Rattle.litmus_tests.specs.declared.test.LitmusTest.{LitmusTest as AnyTest};
ghost use Rattle.litmus_tests.specs.declared.test.Thread.{Thread as AnyThread};
ghost use Rattle.litmus_tests.specs.Limits.{most_steps};
ghost use Rattle.litmus_words.specs.Answered.{Gives, GivesOrMemory, GivesSome};
ghost use Rattle.litmus_words.specs.Places.{IsRefusedIn};
ghost use Rattle.litmus_words.specs.Parts.{element_size};
ghost use Rattle.litmus_words.specs.declared.word.Word.{Word as AnyWord};
ghost use Rattle.litmus_reading.specs.Same.{IsReadAsTest, IsSameTest, IsSameThread};
ghost use Rattle.litmus_reading.specs.Texts.{
  element_of,
  open_behind,
  AreLocations,
  AreThreads,
  IsBraced,
  IsClosedAt,
  IsElementOf,
  IsOfWords,
  IsTextOf,
  LocationsAdded,
};

use crate::condition::Asked;
use crate::head::{Head, read_head};
use crate::locations::{Named, elements_of, located, locations_in};
use crate::memory::read_memory;
use crate::observed::observed_of;
use crate::question::read_question;
use crate::rows::{read_harts, rows_of};
use crate::sound::makes_sense;
use crate::start::{Entry, check_harts, read_start, starts_of};
use crate::thread::read_steps;
use litmus_tests::{Element, LitmusTest, Location, Thread, Width};
use litmus_words::{
    Declared, Fault, MOST_BYTES, Mark, ReadingRefused, Shown, Stop, Token, Word, bytes_of, is_mark,
    name_end, next, place_of, start_of, words_of,
};
use std::alloc::Global;
use std::str;

/// Reads a litmus test in the subset of herd's format that docs/FORMATS.md states. What is refused for another
/// reason than want of memory is refused at a place of the text.
pub fn read_litmus(text: &[u8], alloc: Global) -> Result<LitmusTest, ReadingRefused>
    ensures sound { IfOk result IsWellFormed }
    ensures read { IfOk result (IsTextOf text.now) }
    ensures refused { IfErr result (IsRefusedIn text.now) }
    ensures only { (test : AnyTest) → IsTextOf text.now test → IsWellFormed test → IsReadAsTest test result }
{
    match read_test(text, alloc) {
        Ok(test) => Ok(test),
        Err(Stop::Memory) => Err(ReadingRefused::Memory),
        Err(Stop::Fault { at, fault }) => Err(refused_at(text, at.min(text.len()), fault)),
    }
}

/// The refusal for a fault at this byte.
fn refused_at(text: &[u8], at: usize, fault: Fault) -> ReadingRefused
    requires { at ≤ length text.now }
    ensures { IsRefusedIn text.now result }
{
    ReadingRefused::At(place_of(text, at), fault, shown_at(text, at, fault))
}

/// As much as is shown of the word that begins at this byte, where there is such a fault.
pub(crate) fn shown_at(text: &[u8], at: usize, fault: Fault) -> Shown
    requires { at ≤ length text.now }
{
    if !fault.shows_word() {
        return Shown::new();
    }
    let end = name_end(text, at).max(at + 1).min(at + 24).min(text.len());
    match str::from_utf8(&text[at..end]) {
        Ok(word) => Shown::from(word).unwrap_or_default(),
        Err(_) => Shown::new(),
    }
}

fn read_test(text: &[u8], alloc: Global) -> Result<LitmusTest, Stop>
    ensures sound { IfOk result IsWellFormed }
    ensures read { IfOk result (IsTextOf text.now) }
    ensures only { (test : AnyTest) → IsTextOf text.now test → IsWellFormed test
        → GivesOrMemory result (IsSameTest test) }
{
    check_length(text)?;
    let head = read_head(text)?;
    let words = words_of(text, head.braces, alloc)?;
    let (inside, _) = braces(words.as_slice(), text.len())?;
    let names = locations_in(text, inside, alloc)?;
    let words = located(text, words.as_slice(), names.as_slice(), alloc)?;
    let test = read_words(text, head, words.as_slice(), names.as_slice(), alloc)?;
    if !makes_sense(&test) {
        return Err(Stop::at(head.braces, Fault::NotOfSubset));
    }
    Ok(test)
}

/// Refuses a text of more bytes than there may be.
fn check_length(text: &[u8]) -> Result<(), Stop>
    ensures short { OnOk result (length text.now ≤ 65536) }
    ensures only { length text.now ≤ 65536 → Gives result (λ _. Unit {0}) }
{
    if text.len() > MOST_BYTES {
        return Err(Stop::at(MOST_BYTES, Fault::TooLong));
    }
    Ok(())
}

/// The words in the braces, and behind them.
pub(crate) fn braces(words: &[Word], end: usize) -> Result<(&[Word], &[Word]), Stop>
    ensures braced { IfOk result (λ p. IsBraced words.now p.0.now p.1.now) }
    ensures only { (inside behind : List AnyWord) → IsBraced words.now inside behind
        → Gives result (λ p. (p.0.now ≡ inside) × (p.1.now ≡ behind)) }
{
    let (first, words) = next(words, end)?;
    if !is_mark(first, Mark::LeftBrace) {
        return Err(Stop::at(first.start, Fault::NotOfSubset));
    }
    match closing(words) {
        Some(place) => Ok((&words[..place], &words[place + 1..])),
        None => Err(Stop::at(end, Fault::Unfinished)),
    }
}

/// The index of the brace that closes what was opened before the words: those of arrays stand in it.
fn closing(words: &[Word]) -> Option<usize>
    ensures inside { IfSome result (λ place. place < length words.now) }
    ensures closes { IfSome result (IsClosedAt words.now) }
    ensures only { (place : ℕ) → IsClosedAt words.now place → GivesSome result (λ _. Unit {0}) }
{
    let mut depth = 0_usize;
    for place in 0..words.len() {
        let next = match open_behind(words, place, depth) {
            Some(next) => next,
            None => return Some(place),
        };
        depth = next;
    }
    None
}

/// How many braces are open behind a word, before which so many are; none where it closes what was open before.
fn open_behind(words: &[Word], place: usize, depth: usize) -> Option<usize>
    requires inside { place < length words.now }
    requires few { depth ≤ place }
    ensures after { (d : AnyWord) → result ≡ open_behind (get_or words.now place d).token depth }
    ensures few { IfSome result (λ next. next ≤ place + 1) }
{
    match words[place].token {
        Token::Mark(Mark::LeftBrace) => Some(depth + 1),
        Token::Mark(Mark::RightBrace) => {
            if depth == 0 {
                return None;
            }
            Some(depth - 1)
        }
        _ => Some(depth),
    }
}

/// Reads the words of a test, in which the names of locations are known.
fn read_words(
    text: &[u8],
    head: Head,
    words: &[Word],
    names: &[Named],
    alloc: Global,
) -> Result<LitmusTest, Stop>
    requires { (head.name_start ≤ head.name_end) × (head.name_end ≤ length text.now) }
    ensures name { IfOk result (λ test.
        test.name.items ≡ slice_range text.now head.name_start head.name_end) }
    ensures words { IfOk result (IsOfWords text.now names.now words.now) }
    ensures only { (test : AnyTest) → IsOfWords text.now names.now words.now test → IsWellFormed test
        → test.name.items ≡ slice_range text.now head.name_start head.name_end
        → GivesOrMemory result (IsSameTest test) }
{
    let end = text.len();
    let (inside, behind) = braces(words, end)?;
    let entries = read_start(inside, end, alloc)?;
    let (harts, behind) = read_harts(behind, end)?;
    check_harts(entries.as_slice(), harts)?;
    let (rows, asked) = rows_of(behind, harts, end)?;
    let question = read_question(&Asked { harts, end, alloc }, asked)?;
    let whole = question.listed.whole.as_slice();
    let locations = read_locations(text, names, whole, alloc)?;
    let count = locations.len();
    let observed = observed_of(&question, harts, count, start_of(asked, end), alloc)?;
    let name = Vec::from_slice(alloc, &text[head.name_start..head.name_end])?;
    let memory = read_memory(names, entries.as_slice(), alloc)?;
    let threads = read_threads(text, rows, harts, entries.as_slice(), alloc)?;
    Ok(LitmusTest {
        name,
        words: memory,
        locations,
        threads,
        quantifier: question.quantifier,
        condition: question.condition,
        filter: question.filter,
        observed,
    })
}

/// The locations of a test, each element of an array one.
fn read_locations(
    text: &[u8],
    names: &[Named],
    whole: &[u16],
    alloc: Global,
) -> Result<Vec<Location>, Stop>
    ensures are { IfOk result (λ locations. AreLocations text.now whole.now names.now locations.items) }
    ensures only { GivesOrMemory result (λ _. Unit {0}) }
{
    let mut locations = Vec::new(alloc);
    for name in names {
        add_elements(text, *name, whole, &mut locations, alloc)?;
    }
    Ok(locations)
}

/// Adds a location, or each element of an array.
fn add_elements(
    text: &[u8],
    name: Named,
    whole: &[u16],
    locations: &mut Vec<Location>,
    alloc: Global,
) -> Result<(), Stop>
    ensures added { OnOk result (LocationsAdded text.now whole.now name locations.old.items locations.new.items) }
    ensures only { GivesOrMemory result (λ _. Unit {0}) }
{
    let count = elements_of(name.declared);
    for index in 0..count {
        let location = location_of(text, name, index, whole, alloc)?;
        locations.push(location)?;
    }
    Ok(())
}

/// A location, or an element of an array.
fn location_of(
    text: &[u8],
    name: Named,
    index: u16,
    whole: &[u16],
    alloc: Global,
) -> Result<Location, Stop>
    ensures is { IfOk result (IsElementOf text.now whole.now name index) }
    ensures only { GivesOrMemory result (λ _. Unit {0}) }
{
    let declared = name.declared;
    Ok(Location {
        name: Vec::from_slice(alloc, bytes_of(text, name.word))?,
        element: element_of(declared, index, whole),
        byte: byte_of(declared, index),
        begin: declared.byte as usize,
        number_type: declared.number_type,
    })
}

/// Where an element stands.
fn byte_of(declared: Declared, index: u16) -> usize
    ensures { result ≡ declared.byte + index * element_size declared }
{
    let (begin, index) = (declared.byte as usize, index as usize);
    match declared.number_type.width {
        Width::Byte => begin + index,
        Width::Half => begin + index * 2,
        Width::Word => begin + index * 4,
    }
}

/// The element with this index, where it is one of an array.
fn element_of(declared: Declared, index: u16, whole: &[u16]) -> Option<Element>
    ensures { result ≡ element_of whole.now declared index }
{
    if !declared.is_array {
        return None;
    }
    Some(Element {
        index: index as usize,
        count: elements_of(declared) as usize,
        is_whole: whole.contains(&declared.first),
    })
}

/// What the harts do.
fn read_threads(
    text: &[u8],
    rows: &[Word],
    harts: u8,
    entries: &[Entry],
    alloc: Global,
) -> Result<Vec<Thread>, Stop>
    ensures count { IfOk result (λ threads. length threads.items ≡ harts) }
    ensures are { IfOk result (λ threads. AreThreads text.now rows.now entries.now 0 threads.items) }
    ensures only { (all : List AnyThread) → AreThreads text.now rows.now entries.now 0 all → length all ≡ harts
        → All (λ thread. length thread.steps.items ≤ most_steps) all
        → GivesOrMemory result (λ found. AllZip IsSameThread all found.items) }
{
    let mut threads = Vec::new(alloc);
    for hart in 0..harts {
        threads.push(Thread {
            starts: starts_of(entries, hart, alloc)?,
            steps: read_steps(text, rows, hart, alloc)?,
        })?;
    }
    Ok(threads)
}
