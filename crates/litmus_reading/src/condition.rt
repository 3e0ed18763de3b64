//! Conditions, by recursive descent: `<=>` of `=>` of `\/` of `/\` of what stands alone. The recursion is as deep as
//! `not` and parentheses are nested, and as there are terms before a `=>`; both are bounded.

ghost use Rattle.std.specs.Prelude.{◌≡◌, ◌<◌, ◌≤◌, ◌+◌, List, ℕ, IfOk, OnOk};
ghost use Rattle.litmus_words.specs.Answered.{Gives, GivesOrMemory};
ghost use Rattle.litmus_words.specs.declared.word.Token.TheVariants as token;
ghost use Rattle.litmus_words.specs.declared.word.Mark.TheVariants as mark_of;
ghost use Rattle.litmus_tests.specs.declared.condition.Term.{Term as AnyTerm};
ghost use Rattle.litmus_words.specs.declared.word.Word.{Word as AnyWord};
ghost use Rattle.litmus_tests.specs.declared.condition.Observed.{Observed as AnyObserved};
ghost use Rattle.litmus_tests.specs.declared.condition.Observed.TheVariants as observed;
ghost use Rattle.litmus_tests.specs.declared.condition.Condition.{Condition as AnyCondition};
ghost use Rattle.litmus_reading.specs.Grammar.{Syntax as AnySyntax};
ghost use Rattle.litmus_reading.specs.Grammar.{
  CanBeRead,
  IsReadAs,
  TermTaken,
  most_terms,
  ConditionTaken,
  IsNegation,
  IsConjunction,
  IsDisjunction,
  IsImplication,
  IsEquivalence,
};
ghost use Rattle.litmus_words.specs.Parts.{LocationTaken, NoIndex, NoOffset, ObservedTaken};
ghost use Rattle.litmus_reading.specs.Fitting.{FittingTaken, IsThere};
ghost use Rattle.litmus_tests.specs.declared.value.Value.{Value as AnyValue};
ghost use Rattle.litmus_tests.specs.declared.condition.Condition.{Holds};

use crate::fitting::{check_width, width_at};
use litmus_tests::test::MOST_TERMS;
use litmus_tests::{Condition, Observed, Term, Value, Width};
use litmus_words::{
    Fault, Mark, Stop, Token, Word, behind_mark, location, mark, next, register_but_zero, start_of,
    value,
};
use std::alloc::{AllocError, Global};

/// What a condition is read with: how many harts there are, where the text ends, and the allocator.
#[derive(Clone, Copy, Drop)]
pub(crate) struct Asked {
    pub harts: u8,
    pub end: usize,
    pub alloc: Global,
}

/// What has been read of a condition: how many terms and `true`.
#[derive(Drop)]
pub(crate) struct Leaves {
    pub count: usize,
}

/// Reads conditions with `<=>` between, whose leaves are counted in `leaves`; `room` says how many levels may be nested
/// in it.
#[cycle(condition)]
pub(crate) fn read_condition<'a>(
    asked: &Asked,
    words: &'a [Word],
    room: u8,
    leaves: &mut Leaves,
) -> Result<(Condition, &'a [Word]), Stop>
    ensures taken { IfOk result (λ p. ConditionTaken asked.now.harts 4 room leaves.old.count words.now p.0 p.1.now
        leaves.new.count) }
    ensures only { (syntax : AnySyntax) → (condition : AnyCondition) → (rest : List AnyWord)
        → CanBeRead asked.now.harts 4 room leaves.old.count words.now syntax condition rest → GivesOrMemory result
        (λ p. IsReadAs leaves.old.count syntax condition rest p.0 p.1.now leaves.new.count) }
{
    let (mut condition, mut rest) = read_implied(asked, words, room, leaves)?;
    while let Some(behind) = behind_mark(rest, Mark::Equivalent) {
        let (right, behind) = read_implied(asked, behind, room, leaves)?;
        condition = equivalence(condition, right, asked.alloc)?;
        rest = behind;
    }
    Ok((condition, rest))
}

/// Reads conditions with `=>` between, the last two first.
#[cycle(condition)]
fn read_implied<'a>(
    asked: &Asked,
    words: &'a [Word],
    room: u8,
    leaves: &mut Leaves,
) -> Result<(Condition, &'a [Word]), Stop>
    ensures taken { IfOk result (λ p. ConditionTaken asked.now.harts 3 room leaves.old.count words.now p.0 p.1.now
        leaves.new.count) }
    ensures only { (syntax : AnySyntax) → (condition : AnyCondition) → (rest : List AnyWord)
        → CanBeRead asked.now.harts 3 room leaves.old.count words.now syntax condition rest → GivesOrMemory result
        (λ p. IsReadAs leaves.old.count syntax condition rest p.0 p.1.now leaves.new.count) }
{
    let (left, rest) = read_either(asked, words, room, leaves)?;
    let Some(behind) = behind_mark(rest, Mark::Implies) else {
        return Ok((left, rest));
    };
    let (right, rest) = read_implied(asked, behind, room, leaves)?;
    let whole = implication(left, right, asked.alloc)?;
    Ok((whole, rest))
}

/// Reads conditions with `\/` between.
#[cycle(condition)]
fn read_either<'a>(
    asked: &Asked,
    words: &'a [Word],
    room: u8,
    leaves: &mut Leaves,
) -> Result<(Condition, &'a [Word]), Stop>
    ensures taken { IfOk result (λ p. ConditionTaken asked.now.harts 2 room leaves.old.count words.now p.0 p.1.now
        leaves.new.count) }
    ensures only { (syntax : AnySyntax) → (condition : AnyCondition) → (rest : List AnyWord)
        → CanBeRead asked.now.harts 2 room leaves.old.count words.now syntax condition rest → GivesOrMemory result
        (λ p. IsReadAs leaves.old.count syntax condition rest p.0 p.1.now leaves.new.count) }
{
    let (mut condition, mut rest) = read_both(asked, words, room, leaves)?;
    while let Some(behind) = behind_mark(rest, Mark::Or) {
        let (right, behind) = read_both(asked, behind, room, leaves)?;
        condition = either(condition, right, asked.alloc)?;
        rest = behind;
    }
    Ok((condition, rest))
}

/// Reads conditions with `/\` between.
#[cycle(condition)]
fn read_both<'a>(
    asked: &Asked,
    words: &'a [Word],
    room: u8,
    leaves: &mut Leaves,
) -> Result<(Condition, &'a [Word]), Stop>
    ensures taken { IfOk result (λ p. ConditionTaken asked.now.harts 1 room leaves.old.count words.now p.0 p.1.now
        leaves.new.count) }
    ensures only { (syntax : AnySyntax) → (condition : AnyCondition) → (rest : List AnyWord)
        → CanBeRead asked.now.harts 1 room leaves.old.count words.now syntax condition rest → GivesOrMemory result
        (λ p. IsReadAs leaves.old.count syntax condition rest p.0 p.1.now leaves.new.count) }
{
    let (mut condition, mut rest) = read_alone(asked, words, room, leaves)?;
    while let Some(behind) = behind_mark(rest, Mark::And) {
        let (right, behind) = read_alone(asked, behind, room, leaves)?;
        condition = both(condition, right, asked.alloc)?;
        rest = behind;
    }
    Ok((condition, rest))
}

/// Reads a term, `true`, `not` and a condition that stands alone, or a condition in parentheses.
#[cycle(condition)]
fn read_alone<'a>(
    asked: &Asked,
    words: &'a [Word],
    room: u8,
    leaves: &mut Leaves,
) -> Result<(Condition, &'a [Word]), Stop>
    ensures taken { IfOk result (λ p. ConditionTaken asked.now.harts 0 room leaves.old.count words.now p.0 p.1.now
        leaves.new.count) }
    ensures only { (syntax : AnySyntax) → (condition : AnyCondition) → (rest : List AnyWord)
        → CanBeRead asked.now.harts 0 room leaves.old.count words.now syntax condition rest → GivesOrMemory result
        (λ p. IsReadAs leaves.old.count syntax condition rest p.0 p.1.now leaves.new.count) }
{
    if let Some(behind) = behind_mark(words, Mark::Not) {
        let room = deeper(asked, words, room)?;
        let (inner, rest) = read_alone(asked, behind, room, leaves)?;
        return Ok((negation(inner, asked.alloc)?, rest));
    }
    if let Some(behind) = behind_mark(words, Mark::LeftParenthesis) {
        let room = deeper(asked, words, room)?;
        let (inner, rest) = read_condition(asked, behind, room, leaves)?;
        let rest = mark(rest, Mark::RightParenthesis, asked.end)?;
        return Ok((inner, rest));
    }
    read_leaf(asked, words, leaves)
}

/// How many levels may be nested in what is nested here.
fn deeper(asked: &Asked, words: &[Word], room: u8) -> Result<u8, Stop>
    ensures less { IfOk result (λ less. less + 1 ≡ room) }
    ensures only { 0 < room → Gives result (λ _. Unit {0}) }
{
    if room == 0 {
        return Err(Stop::at(start_of(words, asked.end), Fault::TooDeep));
    }
    Ok(room - 1)
}

/// Reads a term or `true`.
fn read_leaf<'a>(
    asked: &Asked,
    words: &'a [Word],
    leaves: &mut Leaves,
) -> Result<(Condition, &'a [Word]), Stop>
    ensures taken { IfOk result (λ p. ConditionTaken asked.now.harts 0 0 leaves.old.count words.now p.0 p.1.now
        leaves.new.count) }
    ensures only { (syntax : AnySyntax) → (condition : AnyCondition) → (rest : List AnyWord)
        → CanBeRead asked.now.harts 0 0 leaves.old.count words.now syntax condition rest → GivesOrMemory result
        (λ p. IsReadAs leaves.old.count syntax condition rest p.0 p.1.now leaves.new.count) }
{
    if let Some(behind) = behind_mark(words, Mark::True) {
        count_leaf(asked, words, leaves)?;
        return Ok((Condition::Always, behind));
    }
    read_term(asked, words, leaves)
}

/// Reads a term, with `=` or with `!=`.
fn read_term<'a>(
    asked: &Asked,
    words: &'a [Word],
    leaves: &mut Leaves,
) -> Result<(Condition, &'a [Word]), Stop>
    ensures taken { IfOk result (λ p. ConditionTaken asked.now.harts 0 0 leaves.old.count words.now p.0 p.1.now
        leaves.new.count) }
    ensures only_equal { (term : AnyTerm) → (rest : List AnyWord)
        → TermTaken (token.Mark mark_of.Equals) words.now term rest → IsThere asked.now.harts term.observed
        → NoIndex rest → NoOffset rest → leaves.old.count < most_terms → GivesOrMemory result (λ p.
        (p.0 ≡ Holds term) × (p.1.now ≡ rest) × (leaves.new.count ≡ leaves.old.count + 1)) }
    ensures only_other { (term : AnyTerm) → (rest : List AnyWord)
        → TermTaken (token.Mark mark_of.Differs) words.now term rest → IsThere asked.now.harts term.observed
        → NoIndex rest → NoOffset rest → leaves.old.count < most_terms → GivesOrMemory result (λ p.
        IsNegation (Holds term) p.0 × (p.1.now ≡ rest) × (leaves.new.count ≡ leaves.old.count + 1)) }
{
    let (observed, rest) = read_observed(asked, words)?;
    let width = width_at(words);
    if let Some(behind) = behind_mark(rest, Mark::Differs) {
        let (other, rest) = read_number(behind, width, asked.end)?;
        count_leaf(asked, words, leaves)?;
        let term = Term {
            observed,
            value: other,
            width,
        };
        let whole = differing(term, asked.alloc)?;
        return Ok((whole, rest));
    }
    let behind = mark(rest, Mark::Equals, asked.end)?;
    let (value, rest) = read_number(behind, width, asked.end)?;
    count_leaf(asked, words, leaves)?;
    let term = Term {
        observed,
        value,
        width,
    };
    Ok((Condition::Holds(term), rest))
}

/// Reads a value that fits in a width.
fn read_number(words: &[Word], width: Width, end: usize) -> Result<(Value, &[Word]), Stop>
    ensures taken { IfOk result (λ p. FittingTaken width words.now p.0 p.1.now) }
    ensures only { (value : AnyValue) → (rest : List AnyWord) → FittingTaken width words.now value rest → NoIndex rest
        → NoOffset rest → Gives result (λ p. (p.0 ≡ value) × (p.1.now ≡ rest)) }
{
    check_width(words, width, end)?;
    value(words, end)
}

/// Counts one more, `true` too: what follows a condition by recursion goes as deep as there are.
fn count_leaf(asked: &Asked, words: &[Word], leaves: &mut Leaves) -> Result<(), Stop>
    ensures counted { OnOk result (leaves.new.count ≡ leaves.old.count + 1) }
    ensures few { OnOk result (leaves.new.count ≤ most_terms) }
    ensures only { leaves.old.count < most_terms → Gives result (λ _. Unit {0}) }
{
    if leaves.count >= MOST_TERMS {
        return Err(Stop::at(start_of(words, asked.end), Fault::TooManyTerms));
    }
    leaves.count += 1;
    Ok(())
}

/// Reads what is looked at: `0:x7`, `x`, `[x]` or `x[1]`.
pub(crate) fn read_observed<'a>(
    asked: &Asked,
    words: &'a [Word],
) -> Result<(Observed, &'a [Word]), Stop>
    ensures taken { IfOk result (λ p. ObservedTaken words.now p.0 p.1.now) }
    ensures there { IfOk result (λ p. IsThere asked.now.harts p.0) }
    ensures only { (one : AnyObserved) → (rest : List AnyWord) → ObservedTaken words.now one rest
        → IsThere asked.now.harts one → NoIndex rest → Gives result (λ p. (p.0 ≡ one) × (p.1.now ≡ rest)) }
{
    let (word, rest) = next(words, asked.end)?;
    let Token::Number(hart) = word.token else {
        return read_location(words, asked.end);
    };
    if hart >= u32::from(asked.harts) {
        return Err(Stop::at(word.start, Fault::NoHart));
    }
    let rest = mark(rest, Mark::Colon, asked.end)?;
    let (register, rest) = register_but_zero(rest, asked.end)?;
    let hart = hart as u8;
    Ok((Observed::Register { hart, register }, rest))
}

/// Reads `x`, `[x]` or `x[1]`.
fn read_location(words: &[Word], end: usize) -> Result<(Observed, &[Word]), Stop>
    ensures taken { IfOk result (λ p. ObservedTaken words.now p.0 p.1.now) }
    ensures there { (harts : ℕ) → IfOk result (λ p. IsThere harts p.0) }
    ensures only { (index : ℕ) → (rest : List AnyWord) → LocationTaken words.now index rest → NoIndex rest
        → Gives result (λ p. (p.0 ≡ observed.Location index) × (p.1.now ≡ rest)) }
{
    let (index, rest) = location(words, end)?;
    Ok((Observed::Location(index), rest))
}

/// That a term doesn't hold.
fn differing(term: Term, alloc: Global) -> Result<Condition, AllocError>
    ensures { IfOk result (IsNegation (Holds term)) }
{
    negation(Condition::Holds(term), alloc)
}

fn negation(inner: Condition, alloc: Global) -> Result<Condition, AllocError>
    ensures { IfOk result (IsNegation inner) }
{
    Ok(Condition::Not(Box::new(alloc, inner)?))
}

fn both(left: Condition, right: Condition, alloc: Global) -> Result<Condition, AllocError>
    ensures { IfOk result (IsConjunction left right) }
{
    let left = Box::new(alloc, left)?;
    Ok(Condition::Both(left, Box::new(alloc, right)?))
}

fn either(left: Condition, right: Condition, alloc: Global) -> Result<Condition, AllocError>
    ensures { IfOk result (IsDisjunction left right) }
{
    let left = Box::new(alloc, left)?;
    Ok(Condition::Either(left, Box::new(alloc, right)?))
}

fn implication(left: Condition, right: Condition, alloc: Global) -> Result<Condition, AllocError>
    ensures { IfOk result (IsImplication left right) }
{
    let left = Box::new(alloc, left)?;
    Ok(Condition::Implies(left, Box::new(alloc, right)?))
}

fn equivalence(left: Condition, right: Condition, alloc: Global) -> Result<Condition, AllocError>
    ensures { IfOk result (IsEquivalence left right) }
{
    let left = Box::new(alloc, left)?;
    Ok(Condition::Equivalent(left, Box::new(alloc, right)?))
}
