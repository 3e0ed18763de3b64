//! What tells final states apart: what is listed, and what the terms of the filter and of the condition look at, in
//! order.

ghost use Rattle.std.specs.Prelude.{◌≡◌, ◌≤◌, ◌++◌, ◌∷◌, [], length, IfOk, OnOk};
ghost use Rattle.litmus_tests.specs.Limits.{most_observed};
ghost use Rattle.litmus_words.specs.Answered.{GivesOrMemory};
ghost use Rattle.litmus_reading.specs.Looked.{
  is_listed,
  is_named,
  is_same,
  looked_at,
  looks_at,
  registers_from,
  those_named,
};
ghost use Rattle.litmus_reading.specs.Questions.{elements_from};

use crate::question::Question;
use litmus_tests::test::MOST_OBSERVED;
use litmus_tests::{Condition, Observed};
use litmus_words::{Fault, Stop};
use std::alloc::Global;

/// What a question looks at, each once: the registers by hart and number, then the locations by index. More than
/// there may be are refused at this byte.
pub(crate) fn observed_of(
    question: &Question,
    harts: u8,
    locations: usize,
    at: usize,
    alloc: Global,
) -> Result<Vec<Observed>, Stop>
    ensures looked { IfOk result (λ observed. observed.items ≡ looked_at question.now.condition
        question.now.filter question.now.listed.observed.items harts locations) }
    ensures only { length (looked_at question.now.condition question.now.filter
        question.now.listed.observed.items harts locations) ≤ most_observed → GivesOrMemory result (λ _. Unit {0}) }
{
    let mut observed = Vec::new(alloc);
    for hart in 0..harts {
        add_registers(question, hart, &mut observed, at)?;
    }
    add_locations(question, locations, &mut observed, at)?;
    Ok(observed)
}

/// Adds the registers of a hart that the question names.
fn add_registers(
    question: &Question,
    hart: u8,
    observed: &mut Vec<Observed>,
    at: usize,
) -> Result<(), Stop>
    ensures added { OnOk result (observed.new.items ≡ observed.old.items ++ those_named question.now.condition
        question.now.filter question.now.listed.observed.items (registers_from 31 hart 1)) }
    ensures only { length (observed.old.items ++ those_named question.now.condition question.now.filter
        question.now.listed.observed.items (registers_from 31 hart 1)) ≤ most_observed
        → GivesOrMemory result (λ _. Unit {0}) }
{
    for register in 1..32 {
        add_named(
            question,
            Observed::Register { hart, register },
            observed,
            at,
        )?;
    }
    Ok(())
}

/// Adds the locations that the question names.
fn add_locations(
    question: &Question,
    locations: usize,
    observed: &mut Vec<Observed>,
    at: usize,
) -> Result<(), Stop>
    ensures added { OnOk result (observed.new.items ≡ observed.old.items ++ those_named question.now.condition
        question.now.filter question.now.listed.observed.items (elements_from locations 0)) }
    ensures only { length (observed.old.items ++ those_named question.now.condition question.now.filter
        question.now.listed.observed.items (elements_from locations 0)) ≤ most_observed
        → GivesOrMemory result (λ _. Unit {0}) }
{
    for index in 0..locations {
        add_named(question, Observed::Location(index), observed, at)?;
    }
    Ok(())
}

/// Adds a thing that the question names.
fn add_named(
    question: &Question,
    one: Observed,
    observed: &mut Vec<Observed>,
    at: usize,
) -> Result<(), Stop>
    ensures added { OnOk result (observed.new.items ≡ observed.old.items ++ those_named question.now.condition
        question.now.filter question.now.listed.observed.items (one ∷ [])) }
    ensures only { length (observed.old.items ++ those_named question.now.condition question.now.filter
        question.now.listed.observed.items (one ∷ [])) ≤ most_observed
        → GivesOrMemory result (λ _. Unit {0}) }
{
    if !is_named(question, one) {
        return Ok(());
    }
    if observed.len() >= MOST_OBSERVED {
        return Err(Stop::at(at, Fault::TooManyObserved));
    }
    observed.push(one)?;
    Ok(())
}

fn is_named(question: &Question, one: Observed) -> bool
    ensures { result ≡ is_named question.now.condition question.now.filter question.now.listed.observed.items one }
{
    if looks_at(&question.condition, one) {
        return true;
    }
    if looks_at(&question.filter, one) {
        return true;
    }
    is_listed(question.listed.observed.as_slice(), one)
}

fn is_listed(listed: &[Observed], one: Observed) -> bool
    ensures { result ≡ is_listed listed.now one }
{
    listed.iter().any(|other| is_same(*other, one))
}

/// Whether a condition looks at it.
fn looks_at(condition: &Condition, one: Observed) -> bool
    ensures { result ≡ looks_at condition.now one }
{
    match condition {
        Condition::Always => false,
        Condition::Holds(term) => is_same(term.observed, one),
        Condition::Not(inner) => looks_at(inner, one),
        Condition::Both(left, right) => {
            if looks_at(left, one) {
                return true;
            }
            looks_at(right, one)
        }
        Condition::Either(left, right) => {
            if looks_at(left, one) {
                return true;
            }
            looks_at(right, one)
        }
        Condition::Implies(left, right) => {
            if looks_at(left, one) {
                return true;
            }
            looks_at(right, one)
        }
        Condition::Equivalent(left, right) => {
            if looks_at(left, one) {
                return true;
            }
            looks_at(right, one)
        }
    }
}

fn is_same(one: Observed, other: Observed) -> bool
    ensures { result ≡ is_same one other }
{
    match one {
        Observed::Register { hart, register } => match other {
            Observed::Register {
                hart: other,
                register: number,
            } => hart == other && register == number,
            Observed::Location(_) => false,
        },
        Observed::Location(index) => match other {
            Observed::Register { .. } => false,
            Observed::Location(other) => index == other,
        },
    }
}
