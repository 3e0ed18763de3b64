//! What an entry of the start gives: the value of a register or of a location, or the elements of an array.

ghost use Rattle.std.specs.Prelude.{◌≡◌, ◌++◌, ◌∷◌, [], List, true, false, IfOk, OnOk};
ghost use Rattle.litmus_words.specs.Answered.{Gives, GivesOrMemory};
ghost use Rattle.litmus_words.specs.Parts.{NoIndex, NoOffset, ValueTaken};
ghost use Rattle.litmus_words.specs.declared.word.Word.{Word as AnyWord};
ghost use Rattle.litmus_tests.specs.declared.value.Value.{Value as AnyValue};
ghost use Rattle.litmus_reading.specs.Fitting.{GivenValueTaken};
ghost use Rattle.litmus_reading.specs.declared.contents.Given.{Given as AnyGiven};
ghost use Rattle.litmus_reading.specs.declared.start.Entry.{Entry as AnyEntry};
ghost use Rattle.litmus_reading.specs.declared.start.Entry.TheVariants.{Location};
ghost use Rattle.litmus_reading.specs.Declarations.{begins, is_star, is_type};
ghost use Rattle.litmus_reading.specs.Starts.{ContentsTaken, CountTaken, ElementsTaken, GivenTaken, IsEnded};

use crate::declarations::{begins_with_star, behind_star, behind_type};
use crate::fitting::{check_pointer, check_width};
use crate::locations::{elements_of, index_of};
use crate::start::{Entry, Initial, add_entry};
use litmus_tests::{NumberType, Value};
use litmus_words::{
    Declared, Fault, Mark, Stop, Word, behind_mark, mark, natural, start_of, value,
};

/// What an entry says of the value that it gives: the type of a number, or of those that it points to.
#[derive(Clone, Copy, Drop)]
pub(crate) struct Given {
    pub number_type: NumberType,
    pub is_pointer: bool,
}

/// The type and the `*` before an entry.
pub(crate) fn read_given(words: &[Word]) -> (Given, &[Word])
    ensures taken { GivenTaken words.now result.0 result.1.now }
    ensures only { (given : AnyGiven) → (rest : List AnyWord) → GivenTaken words.now given rest
        → begins is_type rest ≡ false → begins is_star rest ≡ false → (result.0 ≡ given) × (result.1.now ≡ rest) }
{
    let (number_type, rest) = behind_type(words);
    let given = Given {
        number_type,
        is_pointer: begins_with_star(rest),
    };
    (given, behind_star(rest))
}

/// Reads a value that is given so.
pub(crate) fn read_value(given: Given, words: &[Word], end: usize) -> Result<(Value, &[Word]), Stop>
    ensures taken { IfOk result (λ p. GivenValueTaken given words.now p.0 p.1.now) }
    ensures only { (value : AnyValue) → (rest : List AnyWord) → GivenValueTaken given words.now value rest
        → NoIndex rest → NoOffset rest → Gives result (λ p. (p.0 ≡ value) × (p.1.now ≡ rest)) }
{
    check_given(given, words, end)?;
    value(words, end)
}

/// Refuses a value that doesn't fit where it is given.
fn check_given(given: Given, words: &[Word], end: usize) -> Result<(), Stop>
    ensures fits { OnOk result ((value : AnyValue) → (rest : List AnyWord) → ValueTaken words.now value rest
        → GivenValueTaken given words.now value rest) }
    ensures only { (value : AnyValue) → (rest : List AnyWord) → GivenValueTaken given words.now value rest
        → Gives result (λ _. Unit {0}) }
{
    if given.is_pointer {
        return check_pointer(words, given.number_type.width);
    }
    check_width(words, given.number_type.width, end)
}

/// Reads what a location holds, or the elements of an array.
pub(crate) fn read_contents<'a>(
    entries: &mut Vec<Entry>,
    given: Given,
    declared: Declared,
    words: &'a [Word],
    end: usize,
) -> Result<&'a [Word], Stop>
    ensures taken { IfOk result (λ rest.
        ContentsTaken given declared words.now entries.old.items entries.new.items rest.now) }
    ensures only { (after : List AnyEntry) → (rest : List AnyWord)
        → ContentsTaken given declared words.now entries.old.items after rest → IsEnded rest
        → GivesOrMemory result (λ behind. (behind.now ≡ rest) × (entries.new.items ≡ after)) }
{
    if declared.is_array {
        return read_array(entries, given, declared, words, end);
    }
    read_initial(entries, given, declared, words, end)
}

/// Reads what a location holds that is no array: 0 where nothing is said.
fn read_initial<'a>(
    entries: &mut Vec<Entry>,
    given: Given,
    declared: Declared,
    words: &'a [Word],
    end: usize,
) -> Result<&'a [Word], Stop>
    requires { declared.is_array ≡ false }
    ensures taken { IfOk result (λ rest.
        ContentsTaken given declared words.now entries.old.items entries.new.items rest.now) }
    ensures only { (after : List AnyEntry) → (rest : List AnyWord)
        → ContentsTaken given declared words.now entries.old.items after rest → IsEnded rest
        → GivesOrMemory result (λ behind. (behind.now ≡ rest) × (entries.new.items ≡ after)) }
{
    let Some(behind) = behind_mark(words, Mark::Equals) else {
        add_initial(entries, declared.first as usize, Value::Number(0))?;
        return Ok(words);
    };
    let (value, rest) = read_value(given, behind, end)?;
    add_initial(entries, declared.first as usize, value)?;
    Ok(rest)
}

/// Adds what a location holds.
fn add_initial(entries: &mut Vec<Entry>, location: usize, value: Value) -> Result<(), Stop>
    ensures added { OnOk result (entries.new.items
        ≡ entries.old.items ++ Location (record { location = location; value = value }) ∷ []) }
    ensures only { GivesOrMemory result (λ _. Unit {0}) }
{
    add_entry(entries, Entry::Location(Initial { location, value }))
}

/// Reads `[2]` or `[2]={1,2}` behind the name of an array. The elements of which nothing is said hold 0.
fn read_array<'a>(
    entries: &mut Vec<Entry>,
    given: Given,
    declared: Declared,
    words: &'a [Word],
    end: usize,
) -> Result<&'a [Word], Stop>
    requires { declared.is_array ≡ true }
    ensures taken { IfOk result (λ rest.
        ContentsTaken given declared words.now entries.old.items entries.new.items rest.now) }
    ensures only { (after : List AnyEntry) → (rest : List AnyWord)
        → ContentsTaken given declared words.now entries.old.items after rest → IsEnded rest
        → GivesOrMemory result (λ behind. (behind.now ≡ rest) × (entries.new.items ≡ after)) }
{
    let rest = read_count(given, words, end)?;
    let Some(behind) = behind_mark(rest, Mark::Equals) else {
        add_initial(entries, declared.first as usize, Value::Number(0))?;
        return Ok(rest);
    };
    let inner = mark(behind, Mark::LeftBrace, end)?;
    let rest = read_elements(entries, given, declared, inner, end)?;
    Ok(rest)
}

/// Reads `[2]`, how many elements there are.
fn read_count(given: Given, words: &[Word], end: usize) -> Result<&[Word], Stop>
    ensures taken { IfOk result (λ rest. CountTaken words.now rest.now) }
    ensures plain { OnOk result (given.is_pointer ≡ false) }
    ensures only { (rest : List AnyWord) → CountTaken words.now rest → given.is_pointer ≡ false
        → Gives result (λ behind. behind.now ≡ rest) }
{
    let rest = mark(words, Mark::LeftBracket, end)?;
    let at = start_of(rest, end);
    let (count, rest) = natural(rest, end)?;
    if count == 0 {
        return Err(Stop::at(at, Fault::NotOfSubset));
    }
    if given.is_pointer {
        return Err(Stop::at(at, Fault::NotOfSubset));
    }
    let rest = mark(rest, Mark::RightBracket, end)?;
    Ok(rest)
}

/// Reads `1,2}`.
fn read_elements<'a>(
    entries: &mut Vec<Entry>,
    given: Given,
    declared: Declared,
    words: &'a [Word],
    end: usize,
) -> Result<&'a [Word], Stop>
    ensures taken { IfOk result (λ rest.
        ElementsTaken given declared words.now entries.old.items entries.new.items rest.now) }
    ensures only { (after : List AnyEntry) → (rest : List AnyWord)
        → ElementsTaken given declared words.now entries.old.items after rest
        → GivesOrMemory result (λ behind. (behind.now ≡ rest) × (entries.new.items ≡ after)) }
{
    let mut rest = words;
    let count = elements_of(declared);
    for element in 0..count {
        let (value, behind) = read_value(given, rest, end)?;
        add_initial(entries, index_of(declared, element), value)?;
        let Some(next) = behind_mark(behind, Mark::Comma) else {
            let after = mark(behind, Mark::RightBrace, end)?;
            return Ok(after);
        };
        rest = next;
    }
    Err(Stop::at(start_of(rest, end), Fault::NoElement))
}
