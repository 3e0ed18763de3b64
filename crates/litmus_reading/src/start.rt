//! The start: what the braces say of registers and locations.

ghost use Rattle.std.specs.Prelude.{◌≡◌, ◌++◌, ◌∷◌, [], None, List, IfOk, OnOk};
ghost use Rattle.litmus_words.specs.Answered.{Gives, GivesOrMemory};
ghost use Rattle.litmus_words.specs.Parts.{NoIndex, NoOffset};
ghost use Rattle.litmus_words.specs.Tokens.{tokens};
ghost use Rattle.litmus_words.specs.declared.word.Declared.{Declared as AnyDeclared};
ghost use Rattle.litmus_words.specs.declared.word.Word.{Word as AnyWord};
ghost use Rattle.litmus_reading.specs.declared.start.Entry.{Entry as AnyEntry};
ghost use Rattle.litmus_reading.specs.declared.start.Entry.TheVariants as entry_of;
ghost use Rattle.litmus_reading.specs.declared.start.HartStart.{HartStart as AnyStart};
ghost use Rattle.litmus_reading.specs.Starts.{
  initial_in,
  initial_of,
  start_at,
  start_in,
  starts_of,
  AddedTaken,
  AreEntries,
  AreOfHarts,
  ContentsTaken,
  EntryTaken,
  IsEnded,
  NameTaken,
  RegisterTaken,
  SayTheSame,
};

use crate::contents::{Given, read_contents, read_given, read_value};
use litmus_tests::{RegisterStart, Value};
use litmus_words::{
    Declared, Fault, Mark, Stop, Token, Word, behind_mark, declared, mark, natural, next,
    register_but_zero, start_of,
};
use numbers::Reg;
use std::alloc::Global;

/// A register of a hart, and what it holds at the start. The entry is told at this byte.
#[derive(Clone, Copy, Drop)]
pub(crate) struct HartStart {
    pub at: usize,
    pub hart: u32,
    pub register: Reg,
    pub value: Value,
}

/// A location or an element of an array, by its index, and what it holds at the start.
#[derive(Clone, Copy, Drop)]
pub(crate) struct Initial {
    pub location: usize,
    pub value: Value,
}

/// What an entry speaks of. One of an array speaks of several elements.
#[derive(Clone, Copy, Drop)]
pub(crate) enum Entry {
    Register(HartStart),
    Location(Initial),
}

/// Reads an entry with which the words begin, behind which a `;` stands or nothing does, and adds it. Of one that is
/// refused nothing is added.
pub(crate) fn read_whole_entry(
    entries: &mut Vec<Entry>,
    words: &[Word],
    end: usize,
) -> Result<(), Stop> {
    let before = entries.len();
    match read_entry(entries, words, end) {
        Ok(behind) => {
            if !behind.is_empty() {
                mark(behind, Mark::Semicolon, end)?;
            }
            Ok(())
        }
        Err(stop) => {
            entries.truncate(before);
            Err(stop)
        }
    }
}

/// Reads what stands in the braces: entries, each but the last with a `;` behind it.
pub(crate) fn read_start(words: &[Word], end: usize, alloc: Global) -> Result<Vec<Entry>, Stop>
    ensures taken { IfOk result (λ entries. AreEntries [] entries.items (tokens words.now)) }
    ensures only { (entries : List AnyEntry) → AreEntries [] entries (tokens words.now)
        → GivesOrMemory result (λ found. SayTheSame found.items entries) }
{
    let mut entries = Vec::new(alloc);
    let mut rest = words;
    while !rest.is_empty() {
        let behind = read_entry(&mut entries, rest, end)?;
        if behind.is_empty() {
            return Ok(entries);
        }
        rest = mark(behind, Mark::Semicolon, end)?;
    }
    Ok(entries)
}

/// Reads an entry: a register of a hart, a location or an array, and what it holds. A type may stand before it, and `*`
/// behind that.
fn read_entry<'a>(
    entries: &mut Vec<Entry>,
    words: &'a [Word],
    end: usize,
) -> Result<&'a [Word], Stop>
    ensures taken { IfOk result (λ rest. EntryTaken words.now entries.old.items entries.new.items rest.now) }
    ensures only { (after : List AnyEntry) → (rest : List AnyWord)
        → EntryTaken words.now entries.old.items after rest → IsEnded rest
        → GivesOrMemory result (λ behind. (behind.now ≡ rest) × SayTheSame entries.new.items after) }
{
    let (given, behind) = read_given(words);
    let (word, _) = next(behind, end)?;
    match word.token {
        Token::Number(_) => {
            let rest = add_register(entries, given, behind, end)?;
            Ok(rest)
        }
        _ => {
            let rest = add_location(entries, given, behind, end)?;
            Ok(rest)
        }
    }
}

/// Adds a register of a hart, of which no entry before may speak.
fn add_register<'a>(
    entries: &mut Vec<Entry>,
    given: Given,
    words: &'a [Word],
    end: usize,
) -> Result<&'a [Word], Stop>
    ensures taken { IfOk result (λ rest. AddedTaken given words.now entries.old.items entries.new.items rest.now) }
    ensures only { (start : AnyStart) → (rest : List AnyWord) → RegisterTaken given words.now start rest
        → start_in entries.old.items start.hart start.register ≡ None → IsEnded rest
        → GivesOrMemory result (λ behind. (behind.now ≡ rest)
        × SayTheSame entries.new.items (entries.old.items ++ entry_of.Register start ∷ [])) }
{
    let (start, rest) = read_register(given, words, end)?;
    let before = start_in(entries.as_slice(), start.hart, start.register);
    check_once(before, start.at)?;
    add_entry(entries, Entry::Register(start))?;
    Ok(rest)
}

/// Reads `0:x5=1`.
fn read_register(given: Given, words: &[Word], end: usize) -> Result<(HartStart, &[Word]), Stop>
    ensures taken { IfOk result (λ p. RegisterTaken given words.now p.0 p.1.now) }
    ensures only { (start : AnyStart) → (rest : List AnyWord) → RegisterTaken given words.now start rest → NoIndex rest
        → NoOffset rest → Gives result (λ p. (p.0.hart ≡ start.hart) × (p.0.register ≡ start.register)
        × (p.0.value ≡ start.value) × (p.1.now ≡ rest)) }
{
    let at = start_of(words, end);
    let (hart, rest) = natural(words, end)?;
    let rest = mark(rest, Mark::Colon, end)?;
    let (register, rest) = register_but_zero(rest, end)?;
    let rest = mark(rest, Mark::Equals, end)?;
    let (value, rest) = read_value(given, rest, end)?;
    let start = HartStart {
        at,
        hart,
        register,
        value,
    };
    Ok((start, rest))
}

/// Adds a location or an array, `x=1`, `[x]=1`, `x`, `x[2]` or `x[2]={1,2}`, of which no entry before may speak.
fn add_location<'a>(
    entries: &mut Vec<Entry>,
    given: Given,
    words: &'a [Word],
    end: usize,
) -> Result<&'a [Word], Stop>
    ensures taken { IfOk result (λ rest. AddedTaken given words.now entries.old.items entries.new.items rest.now) }
    ensures only { (declared : AnyDeclared) → (between rest : List AnyWord) → (after : List AnyEntry)
        → NameTaken words.now declared between → ContentsTaken given declared between entries.old.items after rest
        → initial_in entries.old.items declared.first ≡ None → IsEnded rest
        → GivesOrMemory result (λ behind. (behind.now ≡ rest) × (entries.new.items ≡ after)) }
{
    let (declared, rest) = read_name(words, end)?;
    let before = initial_in(entries.as_slice(), declared.first as usize);
    let rest = read_contents(entries, given, declared, rest, end)?;
    check_once(before, start_of(words, end))?;
    Ok(rest)
}

/// Reads the name of a location, in brackets or without.
fn read_name(words: &[Word], end: usize) -> Result<(Declared, &[Word]), Stop>
    ensures taken { IfOk result (λ p. NameTaken words.now p.0 p.1.now) }
    ensures only { (declared : AnyDeclared) → (rest : List AnyWord) → NameTaken words.now declared rest
        → Gives result (λ p. (p.0 ≡ declared) × (p.1.now ≡ rest)) }
{
    match behind_mark(words, Mark::LeftBracket) {
        Some(inner) => {
            let (name, rest) = declared(inner, end)?;
            let rest = mark(rest, Mark::RightBracket, end)?;
            Ok((name, rest))
        }
        None => {
            let (name, rest) = declared(words, end)?;
            Ok((name, rest))
        }
    }
}

/// Refuses an entry of which an entry before says already what it holds.
fn check_once(before: Option<Value>, at: usize) -> Result<(), Stop>
    ensures none { OnOk result (before ≡ None) }
    ensures only { before ≡ None → Gives result (λ _. Unit {0}) }
{
    match before {
        Some(_) => Err(Stop::at(at, Fault::Twice)),
        None => Ok(()),
    }
}

/// Adds an entry.
pub(crate) fn add_entry(entries: &mut Vec<Entry>, entry: Entry) -> Result<(), Stop>
    ensures added { OnOk result (entries.new.items ≡ entries.old.items ++ entry ∷ []) }
    ensures only { GivesOrMemory result (λ _. Unit {0}) }
{
    entries.push(entry)?;
    Ok(())
}

/// What a register holds at the start, where that is said.
fn start_in(entries: &[Entry], hart: u32, register: Reg) -> Option<Value>
    ensures { result ≡ start_in entries.now hart register }
{
    for entry in entries {
        if let Entry::Register(start) = entry {
            if start.hart == hart && start.register == register {
                return Some(start.value);
            }
        }
    }
    None
}

/// What a location holds at the start, where that is said.
fn initial_in(entries: &[Entry], location: usize) -> Option<Value>
    ensures { result ≡ initial_in entries.now location }
{
    for entry in entries {
        if let Entry::Location(initial) = entry {
            if initial.location == location {
                return Some(initial.value);
            }
        }
    }
    None
}

/// What a location holds at the start.
pub(crate) fn initial_of(entries: &[Entry], location: usize) -> Value
    ensures { result ≡ initial_of entries.now location }
{
    initial_in(entries, location).unwrap_or(Value::Number(0))
}

/// What is said of the registers of a hart, x1 first.
pub(crate) fn starts_of(
    entries: &[Entry],
    hart: u8,
    alloc: Global,
) -> Result<Vec<RegisterStart>, Stop>
    ensures starts { IfOk result (λ starts. starts.items ≡ starts_of entries.now hart) }
    ensures only { GivesOrMemory result (λ _. Unit {0}) }
{
    let mut starts = Vec::new(alloc);
    for register in 1..32 {
        add_start(entries, hart, register, &mut starts)?;
    }
    Ok(starts)
}

/// Adds what is said of a register.
fn add_start(
    entries: &[Entry],
    hart: u8,
    register: Reg,
    starts: &mut Vec<RegisterStart>,
) -> Result<(), Stop>
    ensures added { OnOk result (starts.new.items ≡ starts.old.items ++ start_at entries.now hart register) }
    ensures only { GivesOrMemory result (λ _. Unit {0}) }
{
    if let Some(value) = start_in(entries, u32::from(hart), register) {
        starts.push(RegisterStart { register, value })?;
    }
    Ok(())
}

/// Refuses a hart that isn't among so many.
pub(crate) fn check_harts(entries: &[Entry], harts: u8) -> Result<(), Stop>
    ensures there { OnOk result (AreOfHarts harts entries.now) }
    ensures only { AreOfHarts harts entries.now → Gives result (λ _. Unit {0}) }
{
    for entry in entries {
        if let Entry::Register(start) = entry {
            if start.hart >= u32::from(harts) {
                return Err(Stop::at(start.at, Fault::NoHart));
            }
        }
    }
    Ok(())
}
