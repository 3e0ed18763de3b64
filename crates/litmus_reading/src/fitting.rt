//! Whether what begins the words fits where it is given or asked for, by the width of a number.

ghost use Rattle.std.specs.Prelude.{◌≡◌, ◌∷◌, [], List, ℤ, true, false, OnOk};
ghost use Rattle.litmus_words.specs.Answered.{Gives};
ghost use Rattle.litmus_words.specs.Parts.{IntegerTaken};
ghost use Rattle.litmus_words.specs.Tokens.{Takes, tokens};
ghost use Rattle.litmus_words.specs.declared.word.Mark.TheVariants as mark_of;
ghost use Rattle.litmus_words.specs.declared.word.Word.{Word as AnyWord};
ghost use Rattle.litmus_words.specs.declared.word.Declared.{Declared as AnyDeclared};
ghost use Rattle.litmus_words.specs.declared.word.Token.TheVariants as token;
ghost use Rattle.watched_outcomes.specs.declared.watch.Width.TheVariants as width_of;
ghost use Rattle.litmus_reading.specs.Fitting.{IsWithin, width_at};

use litmus_tests::Width;
use litmus_words::{Fault, Mark, Stop, Token, Word, number, start_of};

/// Refuses an address, and a number that doesn't fit, where a byte or a half is given or asked for: it fits with a sign
/// or without.
pub(crate) fn check_width(words: &[Word], width: Width, end: usize) -> Result<(), Stop>
    ensures number { OnOk result ((number : ℤ) → (rest : List AnyWord) → IntegerTaken words.now number rest
        → IsWithin width number) }
    ensures address { OnOk result ((declared : AnyDeclared) → (rest : List AnyWord)
        → Takes words.now (token.Location declared ∷ []) rest → width ≡ width_of.Word) }
    ensures only_number { (number : ℤ) → (rest : List AnyWord) → IntegerTaken words.now number rest
        → IsWithin width number → Gives result (λ _. Unit {0}) }
    ensures only_address { (declared : AnyDeclared) → (rest : List AnyWord)
        → Takes words.now (token.Location declared ∷ []) rest → width ≡ width_of.Word
        → Gives result (λ _. Unit {0}) }
{
    let Some(word) = words.first() else {
        return Ok(());
    };
    match word.token {
        Token::Location(_) => check_word(width, word.start),
        Token::Name => Ok(()),
        _ => check_number(words, width, end),
    }
}

/// Refuses an address where a byte or a half is given or asked for.
fn check_word(width: Width, at: usize) -> Result<(), Stop>
    ensures word { OnOk result (width ≡ width_of.Word) }
    ensures only { width ≡ width_of.Word → Gives result (λ _. Unit {0}) }
{
    match width {
        Width::Word => Ok(()),
        _ => Err(Stop::at(at, Fault::NarrowAddress)),
    }
}

/// Refuses a number that doesn't fit.
fn check_number(words: &[Word], width: Width, end: usize) -> Result<(), Stop>
    ensures number { OnOk result ((number : ℤ) → (rest : List AnyWord) → IntegerTaken words.now number rest
        → IsWithin width number) }
    ensures only { (number : ℤ) → (rest : List AnyWord) → IntegerTaken words.now number rest → IsWithin width number
        → Gives result (λ _. Unit {0}) }
{
    let (number, _) = number(words, end)?;
    if !is_within(width, number) {
        return Err(Stop::at(start_of(words, end), Fault::NumberTooLarge));
    }
    Ok(())
}

/// Whether a number fits, with a sign or without.
fn is_within(width: Width, number: i64) -> bool
    ensures yes { result ≡ true → IsWithin width number }
    ensures no { result ≡ false → IsWithin width number → ⊥ }
{
    match width {
        Width::Byte => -0x80 <= number && number <= 0xff,
        Width::Half => -0x8000 <= number && number <= 0xffff,
        Width::Word => true,
    }
}

/// Refuses a pointer to numbers of a width that is given the address of one of another.
pub(crate) fn check_pointer(words: &[Word], width: Width) -> Result<(), Stop>
    ensures points { OnOk result ((declared : AnyDeclared) → (rest : List AnyWord)
        → Takes words.now (token.Location declared ∷ []) rest → declared.number_type.width ≡ width) }
    ensures only { ((declared : AnyDeclared) → (rest : List AnyWord)
        → Takes words.now (token.Location declared ∷ []) rest → declared.number_type.width ≡ width)
        → Gives result (λ _. Unit {0}) }
{
    let Some((word, _)) = words.split_first() else {
        return Ok(());
    };
    match word.token {
        Token::Location(declared) => check_same(declared.number_type.width, width, word.start),
        _ => Ok(()),
    }
}

/// Refuses a width that isn't the other.
fn check_same(found: Width, width: Width, at: usize) -> Result<(), Stop>
    ensures same { OnOk result (found ≡ width) }
    ensures only { found ≡ width → Gives result (λ _. Unit {0}) }
{
    if found != width {
        return Err(Stop::at(at, Fault::OtherSize));
    }
    Ok(())
}

/// The width of the number that is looked at: `x`, `[x]` and `x[1]` are as wide as their location says, a register has
/// a word.
pub(crate) fn width_at(words: &[Word]) -> Width
    ensures { result ≡ width_at (tokens words.now) }
{
    let Some((word, behind)) = words.split_first() else {
        return Width::Word;
    };
    match word.token {
        Token::Location(declared) => declared.number_type.width,
        Token::Mark(Mark::LeftBracket) => width_of_name(behind),
        _ => Width::Word,
    }
}

/// The width of the location with whose name the words begin.
fn width_of_name(words: &[Word]) -> Width
    ensures { result ≡ width_at (token.Mark mark_of.LeftBracket ∷ tokens words.now) }
{
    let Some((word, _)) = words.split_first() else {
        return Width::Word;
    };
    match word.token {
        Token::Location(declared) => declared.number_type.width,
        _ => Width::Word,
    }
}
