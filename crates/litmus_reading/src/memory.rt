//! What the words of the locations hold at the start: a number of 32 bits, or several narrower ones side by side, the
//! lowest first.

ghost use Rattle.std.specs.Prelude.{◌≡◌, ◌≤◌, ◌++◌, IfOk, OnOk};
ghost use Rattle.litmus_words.specs.Answered.{GivesOrMemory};
ghost use Rattle.litmus_reading.specs.Memory.{half_at, memory_of, number_at, word_at, word_count, words_of};

use crate::locations::{Named, elements_of, index_of};
use crate::start::{Entry, initial_of};
use litmus_tests::{Value, Width};
use litmus_words::{Declared, Stop};
use std::alloc::Global;

/// The words of the locations.
pub(crate) fn read_memory(
    names: &[Named],
    entries: &[Entry],
    alloc: Global,
) -> Result<Vec<Value>, Stop>
    ensures words { IfOk result (λ words. words.items ≡ memory_of entries.now names.now) }
    ensures only { GivesOrMemory result (λ _. Unit {0}) }
{
    let mut words = Vec::new(alloc);
    for name in names {
        add_words(entries, name.declared, &mut words)?;
    }
    Ok(words)
}

/// Adds the words of a location or of an array.
fn add_words(entries: &[Entry], declared: Declared, words: &mut Vec<Value>) -> Result<(), Stop>
    ensures added { OnOk result (words.new.items ≡ words.old.items ++ words_of entries.now declared) }
    ensures only { GivesOrMemory result (λ _. Unit {0}) }
{
    let count = word_count(declared);
    for word in 0..count {
        words.push(word_at(entries, declared, word))?;
    }
    Ok(())
}

/// How many words a location or an array has.
fn word_count(declared: Declared) -> u16
    ensures { result ≡ word_count declared }
{
    ((u32::from(declared.size) + 3) / 4) as u16
}

/// A word of memory of a location or an array, by its index in it.
fn word_at(entries: &[Entry], declared: Declared, word: u16) -> Value
    ensures { result ≡ word_at entries.now declared word }
{
    let place = usize::from(word);
    match declared.number_type.width {
        Width::Byte => {
            let low = half_at(entries, declared, 4 * place);
            let high = half_at(entries, declared, 4 * place + 2);
            Value::Number(u32::from(low) + 65536 * u32::from(high))
        }
        Width::Half => {
            let low = number_at(entries, declared, 2 * place);
            let high = number_at(entries, declared, 2 * place + 1);
            Value::Number(low % 65536 + 65536 * (high % 65536))
        }
        Width::Word => initial_of(entries, index_of(declared, word)),
    }
}

/// Two bytes side by side, from this element on.
fn half_at(entries: &[Entry], declared: Declared, element: usize) -> u16
    requires { element ≤ 262144 }
    ensures { result ≡ half_at entries.now declared element }
{
    let low = number_at(entries, declared, element);
    let high = number_at(entries, declared, element + 1);
    (low % 256 + 256 * (high % 256)) as u16
}

/// The number of an element, 0 where there aren't so many.
fn number_at(entries: &[Entry], declared: Declared, element: usize) -> u32
    ensures { result ≡ number_at entries.now declared element }
{
    if element >= elements_of(declared) as usize {
        return 0;
    }
    match initial_of(entries, index_of(declared, element as u16)) {
        Value::Number(number) => number,
        Value::Address(_) => 0,
    }
}
