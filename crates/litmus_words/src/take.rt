//! One part at a time: each function takes a part off the front of the words, and hands on the rest. `end` is the
//! byte at which it is told that the words end too early.

ghost use Rattle.std.specs.Prelude.{◌≡◌, ◌≢◌, ◌+◌, ◌*◌, ◌<◌, ◌≤◌, ◌∷◌, [], List, true, false, length, ℕ, ℤ, pos};
ghost use Rattle.std.specs.Prelude.{IfOk, IfErr, IfSome, OnOk};
ghost use Rattle.litmus_words.specs.Answered.{Gives, GivesSome};
ghost use Rattle.litmus_words.specs.Tokens.{Takes};
ghost use Rattle.litmus_words.specs.Parts.{IntegerTaken, NumberTaken, ValueTaken, LocationTaken, IsWordOf};
ghost use Rattle.litmus_words.specs.Parts.{AddressTaken, ElementTaken, NoIndex, NoOffset, element_size};
ghost use Rattle.litmus_words.specs.declared.word.Word.{Word as AnyWord};
ghost use Rattle.litmus_tests.specs.declared.value.Value.{Value as AnyValue};
ghost use Rattle.litmus_words.specs.declared.word.Declared.{Declared as AnyDeclared};
ghost use Rattle.watched_outcomes.specs.Watching.{bytes_of};
ghost use Rattle.litmus_words.specs.declared.word.Token.TheVariants as token;

use crate::refused::{Fault, Stop};
use crate::word::{Declared, Mark, Token, Word, is_mark};
use litmus_tests::{Value, Width};
use numbers::Reg;

/// The next word.
pub fn next(words: &[Word], end: usize) -> Result<(Word, &[Word]), Stop>
    ensures first { IfOk result (λ p. words.now ≡ p.0 ∷ p.1.now) }
    ensures refused { IfErr result (λ _. words.now ≡ []) }
{
    match words.split_first() {
        Some((word, rest)) => Ok((*word, rest)),
        None => Err(Stop::at(end, Fault::Unfinished)),
    }
}

/// The words behind this mark, if it comes next.
pub fn behind_mark(words: &[Word], mark: Mark) -> Option<&[Word]>
    ensures spelled { IfSome result (λ rest. Takes words.now (token.Mark mark ∷ []) rest.now) }
    ensures shorter { IfSome result (λ rest. length rest.now < length words.now) }
    ensures only { (rest : List AnyWord) → Takes words.now (token.Mark mark ∷ []) rest
        → GivesSome result (λ behind. behind.now ≡ rest) }
{
    let Some((word, rest)) = words.split_first() else {
        return None;
    };
    if !is_mark(*word, mark) {
        return None;
    }
    Some(rest)
}

/// Whether this mark comes next.
pub fn begins_with(words: &[Word], mark: Mark) -> bool
    ensures yes { result ≡ true → (rest : List AnyWord) × Takes words.now (token.Mark mark ∷ []) rest }
    ensures no { result ≡ false → (rest : List AnyWord) → Takes words.now (token.Mark mark ∷ []) rest → ⊥ }
{
    match behind_mark(words, mark) {
        Some(_) => true,
        None => false,
    }
}

/// This mark.
pub fn mark(words: &[Word], mark: Mark, end: usize) -> Result<&[Word], Stop>
    ensures spelled { IfOk result (λ rest. Takes words.now (token.Mark mark ∷ []) rest.now) }
    ensures shorter { IfOk result (λ rest. length rest.now < length words.now) }
    ensures only { (rest : List AnyWord) → Takes words.now (token.Mark mark ∷ []) rest
        → Gives result (λ behind. behind.now ≡ rest) }
{
    match behind_mark(words, mark) {
        Some(rest) => Ok(rest),
        None => Err(missing(words, end)),
    }
}

/// That what comes next isn't what was wanted.
fn missing(words: &[Word], end: usize) -> Stop {
    match words.first() {
        Some(word) => Stop::at(word.start, Fault::NotOfSubset),
        None => Stop::at(end, Fault::Unfinished),
    }
}

/// Nothing more.
pub fn nothing(words: &[Word], fault: Fault) -> Result<(), Stop>
    ensures over { OnOk result (words.now ≡ []) }
    ensures refused { IfErr result (λ _. words.now ≢ []) }
{
    match words.split_first() {
        Some((word, _)) => Err(Stop::at(word.start, fault)),
        None => Ok(()),
    }
}

/// A register.
pub fn register(words: &[Word], end: usize) -> Result<(Reg, &[Word]), Stop>
    ensures taken { IfOk result (λ p. Takes words.now (token.Register p.0 ∷ []) p.1.now) }
    ensures only { (register : ℕ) → (rest : List AnyWord) → Takes words.now (token.Register register ∷ []) rest
        → Gives result (λ p. (p.0 ≡ register) × (p.1.now ≡ rest)) }
{
    let (word, rest) = next(words, end)?;
    match word.token {
        Token::Register(register) => Ok((register, rest)),
        _ => Err(Stop::at(word.start, Fault::NoRegister)),
    }
}

/// A register that can hold another number than 0.
pub fn register_but_zero(words: &[Word], end: usize) -> Result<(Reg, &[Word]), Stop>
    ensures spelled { IfOk result (λ p. Takes words.now (token.Register p.0 ∷ []) p.1.now) }
    ensures other { IfOk result (λ p. 0 < p.0) }
    ensures only { (register : ℕ) → (rest : List AnyWord) → Takes words.now (token.Register register ∷ []) rest
        → 0 < register → Gives result (λ p. (p.0 ≡ register) × (p.1.now ≡ rest)) }
{
    let (register, rest) = register(words, end)?;
    if register == 0 {
        return Err(Stop::at(start_of(words, end), Fault::ZeroRegister));
    }
    Ok((register, rest))
}

/// Where the words begin, or else their end.
pub fn start_of(words: &[Word], end: usize) -> usize {
    match words.first() {
        Some(word) => word.start,
        None => end,
    }
}

/// A number without a sign.
pub fn natural(words: &[Word], end: usize) -> Result<(u32, &[Word]), Stop>
    ensures taken { IfOk result (λ p. Takes words.now (token.Number p.0 ∷ []) p.1.now) }
    ensures only { (number : ℕ) → (rest : List AnyWord) → Takes words.now (token.Number number ∷ []) rest
        → Gives result (λ p. (p.0 ≡ number) × (p.1.now ≡ rest)) }
{
    let (word, rest) = next(words, end)?;
    match word.token {
        Token::Number(number) => Ok((number, rest)),
        _ => Err(Stop::at(word.start, Fault::NotOfSubset)),
    }
}

/// A number, with a minus sign before it or none.
pub fn number(words: &[Word], end: usize) -> Result<(i64, &[Word]), Stop>
    ensures taken { IfOk result (λ p. IntegerTaken words.now p.0 p.1.now) }
    ensures only { (number : ℤ) → (rest : List AnyWord) → IntegerTaken words.now number rest
        → Gives result (λ p. (p.0 ≡ number) × (p.1.now ≡ rest)) }
{
    match behind_mark(words, Mark::Minus) {
        Some(rest) => {
            let (number, rest) = natural(rest, end)?;
            Ok((-i64::from(number), rest))
        }
        None => {
            let (number, rest) = natural(words, end)?;
            Ok((i64::from(number), rest))
        }
    }
}

/// A number of a word: from -2^31 to 2^32 - 1, a negative one in two's complement.
pub fn word_number(words: &[Word], end: usize) -> Result<(u32, &[Word]), Stop>
    ensures taken { IfOk result (λ p. NumberTaken words.now p.0 p.1.now) }
    ensures only { (word : ℕ) → (rest : List AnyWord) → NumberTaken words.now word rest
        → Gives result (λ p. (p.0 ≡ word) × (p.1.now ≡ rest)) }
{
    let (number, rest) = number(words, end)?;
    match word_of(number) {
        Some(value) => Ok((value, rest)),
        None => Err(Stop::at(start_of(words, end), Fault::NumberTooLarge)),
    }
}

/// The word that a number is.
fn word_of(number: i64) -> Option<u32>
    ensures is { IfSome result (IsWordOf number) }
    ensures only { (word : ℕ) → IsWordOf number word → GivesSome result (λ found. found ≡ word) }
{
    if number >= 1 << 32 || number < -(1 << 31) {
        return None;
    }
    if number < 0 {
        return Some((number + (1 << 32)) as u32);
    }
    Some(number as u32)
}

/// A number of a word, or an address.
pub fn value(words: &[Word], end: usize) -> Result<(Value, &[Word]), Stop>
    ensures taken { IfOk result (λ p. ValueTaken words.now p.0 p.1.now) }
    ensures only { (value : AnyValue) → (rest : List AnyWord) → ValueTaken words.now value rest → NoIndex rest
        → NoOffset rest → Gives result (λ p. (p.0 ≡ value) × (p.1.now ≡ rest)) }
{
    let (word, _) = next(words, end)?;
    match word.token {
        Token::Location(_) => {
            let (byte, rest) = address(words, end)?;
            Ok((Value::Address(byte), rest))
        }
        Token::Name => Err(Stop::at(word.start, Fault::Undeclared)),
        _ => {
            let (number, rest) = word_number(words, end)?;
            Ok((Value::Number(number), rest))
        }
    }
}

/// The address of a location, of a byte in it or of an element, as `x`, `x+4` and `x[1]`: how many bytes it stands
/// behind the first of all locations.
pub fn address(words: &[Word], end: usize) -> Result<(usize, &[Word]), Stop>
    ensures taken { IfOk result (λ p. AddressTaken words.now p.0 p.1.now) }
    ensures only { (byte : ℕ) → (rest : List AnyWord) → AddressTaken words.now byte rest → NoIndex rest
        → NoOffset rest → Gives result (λ p. (p.0 ≡ byte) × (p.1.now ≡ rest)) }
{
    let (declared, rest) = declared(words, end)?;
    if let Some(behind) = behind_mark(rest, Mark::Plus) {
        let (offset, after) = natural(behind, end)?;
        let byte = byte_at(declared, offset as usize, start_of(behind, end))?;
        return Ok((byte, after));
    }
    if begins_with(rest, Mark::LeftBracket) {
        let (element, after) = element(declared, rest, end)?;
        let offset = bytes_before(declared.number_type.width, element);
        let byte = byte_at(declared, offset, start_of(rest, end))?;
        return Ok((byte, after));
    }
    Ok((declared.byte as usize, rest))
}

/// The byte of a location so many behind its first.
fn byte_at(declared: Declared, offset: usize, at: usize) -> Result<usize, Stop>
    ensures byte { IfOk result (λ byte. byte ≡ declared.byte + offset) }
    ensures inside { OnOk result (offset < declared.size) }
    ensures refused { IfErr result (λ _. declared.size ≤ offset) }
{
    if offset >= declared.size as usize {
        return Err(Stop::at(at, Fault::NoElement));
    }
    Ok(declared.byte as usize + offset)
}

/// How many bytes so many numbers of this width have.
fn bytes_before(width: Width, count: usize) -> usize
    requires { count < 4294967296 }
    ensures { result ≡ bytes_of width * count }
{
    match width {
        Width::Byte => count,
        Width::Half => 2 * count,
        Width::Word => 4 * count,
    }
}

/// An index of an array in brackets, of an element that is there.
fn element(declared: Declared, words: &[Word], end: usize) -> Result<(usize, &[Word]), Stop>
    ensures spelled { IfOk result (λ p. ElementTaken words.now p.0 p.1.now) }
    ensures small { IfOk result (λ p. p.0 < 4294967296) }
    ensures array { OnOk result (declared.is_array ≡ true) }
    ensures inside { IfOk result (λ p. element_size declared * p.0 < declared.size) }
    ensures only { (element : ℕ) → (rest : List AnyWord) → declared.is_array ≡ true
        → ElementTaken words.now element rest → element_size declared * element < declared.size
        → Gives result (λ p. (p.0 ≡ element) × (p.1.now ≡ rest)) }
{
    let rest = mark(words, Mark::LeftBracket, end)?;
    if !declared.is_array {
        return Err(Stop::at(start_of(words, end), Fault::NotOfSubset));
    }
    let (element, behind) = natural(rest, end)?;
    let element = element as usize;
    if bytes_before(declared.number_type.width, element) >= declared.size as usize {
        return Err(Stop::at(start_of(rest, end), Fault::NoElement));
    }
    let after = mark(behind, Mark::RightBracket, end)?;
    Ok((element, after))
}

/// A location, in brackets or without, or an element of an array: its index among the test's locations.
pub fn location(words: &[Word], end: usize) -> Result<(usize, &[Word]), Stop>
    ensures taken { IfOk result (λ p. LocationTaken words.now p.0 p.1.now) }
    ensures only { (index : ℕ) → (rest : List AnyWord) → LocationTaken words.now index rest → NoIndex rest
        → Gives result (λ p. (p.0 ≡ index) × (p.1.now ≡ rest)) }
{
    match behind_mark(words, Mark::LeftBracket) {
        Some(inner) => {
            let (declared, rest) = declared(inner, end)?;
            let index = alone(declared, start_of(inner, end))?;
            let rest = mark(rest, Mark::RightBracket, end)?;
            Ok((index, rest))
        }
        None => location_or_element(words, end),
    }
}

/// The same without brackets around it.
fn location_or_element(words: &[Word], end: usize) -> Result<(usize, &[Word]), Stop>
    ensures taken { IfOk result (λ p. LocationTaken words.now p.0 p.1.now) }
    ensures alone { (declared : AnyDeclared) → (rest : List AnyWord) → Takes words.now (token.Location declared ∷ []) rest
        → declared.is_array ≡ false → NoIndex rest
        → Gives result (λ p. (p.0 ≡ declared.first) × (p.1.now ≡ rest)) }
    ensures element { (declared : AnyDeclared) → (element : ℕ) → (behind rest : List AnyWord)
        → Takes words.now (token.Location declared ∷ []) behind → declared.is_array ≡ true
        → ElementTaken behind element rest → element_size declared * element < declared.size
        → Gives result (λ p. (p.0 ≡ declared.first + element) × (p.1.now ≡ rest)) }
{
    let (declared, rest) = declared(words, end)?;
    if begins_with(rest, Mark::LeftBracket) {
        let (element, after) = element(declared, rest, end)?;
        return Ok((declared.first as usize + element, after));
    }
    let index = alone(declared, start_of(words, end))?;
    Ok((index, rest))
}

/// The index of what is no array.
fn alone(declared: Declared, at: usize) -> Result<usize, Stop>
    ensures index { IfOk result (λ index. index ≡ declared.first) }
    ensures one { OnOk result (declared.is_array ≡ false) }
    ensures refused { IfErr result (λ _. declared.is_array ≡ true) }
{
    if declared.is_array {
        return Err(Stop::at(at, Fault::WholeArray));
    }
    Ok(declared.first as usize)
}

/// The name of a location or of an array.
pub fn declared(words: &[Word], end: usize) -> Result<(Declared, &[Word]), Stop>
    ensures taken { IfOk result (λ p. Takes words.now (token.Location p.0 ∷ []) p.1.now) }
    ensures only { (declared : AnyDeclared) → (rest : List AnyWord) → Takes words.now (token.Location declared ∷ []) rest
        → Gives result (λ p. (p.0 ≡ declared) × (p.1.now ≡ rest)) }
{
    let (word, rest) = next(words, end)?;
    match word.token {
        Token::Location(declared) => Ok((declared, rest)),
        Token::Name => Err(Stop::at(word.start, Fault::Undeclared)),
        _ => Err(Stop::at(word.start, Fault::NotOfSubset)),
    }
}
