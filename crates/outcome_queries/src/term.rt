//! The terms of a condition.

ghost use Rattle.std.specs.Prelude.{◌≡◌, [], true, false, codes, IfOk, IfErr, IfSome, IfNone};
ghost use Rattle.symbols.specs.Tables.{table_of};
ghost use Rattle.outcome_queries.specs.declared.term.Term.{Term as AnyTerm};
ghost use Rattle.outcome_queries.specs.declared.term.Harts.{Harts as AnyHarts};
ghost use Rattle.outcome_queries.specs.Terms.{Means, IsOfEnd, IsPut, HoldsNothing, IsNoTerm, SaysTerm, SpellsHarts};
ghost use Rattle.outcome_queries.specs.Terms.{SpellsCause, IsCause, of_term, trimmed};
ghost use Rattle.std.specs.Prelude.{ℕ, Option};

use crate::put::read_put;
use crate::quoted::split_outside;
use crate::refused::Expected;
use crate::relation::{Relation, is_equality};
use crate::sign::{Cut, cut_term};
use crate::watched::{Asked, read_watched};
use symbols::Symbols;
use text_fields::{read_decimal, read_value, split_field};

/// The harts of which a term speaks.
#[derive(Clone, Copy, Debug, PartialEq, Eq, Drop)]
pub enum Harts {
    /// The one with this number.
    One(u8),
    /// Each that the core has.
    Each,
}

/// What a condition says of an end, in part.
#[derive(Clone, Copy, Drop)]
pub enum Term<'a> {
    /// The hart has ended with such a number; so has each, where a term speaks of each.
    Ended {
        harts: Harts,
        relation: Relation,
        number: u32,
    },
    /// The hart has stopped, with this cause where one is said, or with `!=` hasn't.
    Stopped {
        harts: Harts,
        relation: Relation,
        cause: Option<u8>,
    },
    /// What is asked for has such a number.
    Holds {
        asked: Asked<'a>,
        relation: Relation,
        value: u32,
    },
    /// These bytes were put out, two hexadecimal digits each, or with `!=` others.
    Put {
        digits: &'a [u8],
        relation: Relation,
    },
}

impl Default for Term<'_> {
    fn default() -> Self {
        Term::Ended {
            harts: Harts::One(0),
            relation: Relation::Equal,
            number: 0,
        }
    }
}

/// What a text says: `h0=1` that a hart ended with a number, `h0=stopped 4` that it stopped with a cause, `h*=0` how
/// each did; `a0@1=2`, `counter<2` and `80001000:4!=0x2` what is watched; `out=4142` what was put out. White space may
/// stand around it.
pub(crate) fn read_term<'a>(text: &'a [u8], names: &Symbols<'_>) -> Result<Term<'a>, Expected>
    ensures found { IfOk result (SaysTerm (table_of names.now) text.now) }
    ensures refused { IfErr result (IsNoTerm (table_of names.now) text.now) }
{
    let Some(cut) = cut_term(trimmed(text)) else {
        return Err(Expected::Term);
    };
    if let Some(end) = read_end(cut) {
        return Ok(end);
    }
    match read_put(cut, names) {
        Some(put) => Ok(put),
        None => read_holds(cut, names),
    }
}

/// The text without the white space around it.
pub(crate) fn trimmed(text: &[u8]) -> &[u8]
    ensures { result.now ≡ trimmed text.now }
{
    text.trim_ascii()
}

/// How harts end.
fn read_end<'a>(cut: Cut<'a>) -> Option<Term<'a>>
    ensures found { IfSome result (λ term. IsOfEnd term
        × ((names : _) → Means names cut.entry.left.now cut.entry.relation cut.entry.right.now term)) }
    ensures none { IfNone result ((names : _) (term : AnyTerm) → IsOfEnd term
        → Means names cut.entry.left.now cut.entry.relation cut.entry.right.now term → ⊥) }
{
    let Some(harts) = read_harts(cut.left) else {
        return None;
    };
    let relation = cut.relation;
    if let Some(number) = read_value(cut.right) {
        return Some(Term::Ended {
            harts,
            relation,
            number,
        });
    }
    if !is_equality(relation) {
        return None;
    }
    match read_cause(cut.right) {
        Some(cause) => Some(Term::Stopped {
            harts,
            relation,
            cause,
        }),
        None => None,
    }
}

/// What is watched and its number. Where both are misspelled, the term is.
fn read_holds<'a>(cut: Cut<'a>, names: &Symbols<'_>) -> Result<Term<'a>, Expected>
    ensures found { IfOk result
        (Means (table_of names.now) cut.entry.left.now cut.entry.relation cut.entry.right.now) }
    ensures refused { IfErr result (HoldsNothing (table_of names.now) cut.entry.left.now cut.entry.right.now) }
{
    let Some(value) = read_value(cut.right) else {
        return Err(Expected::Term);
    };
    match read_watched(cut.left, names) {
        Ok(watched) => Ok(Term::Holds {
            asked: Asked {
                watched,
                spelled: cut.left,
            },
            relation: cut.relation,
            value,
        }),
        Err(expected) => Err(of_term(expected)),
    }
}

/// What was expected of a term, where this was expected of what it names.
fn of_term(expected: Expected) -> Expected
    ensures { result ≡ of_term expected }
{
    match expected {
        Expected::Watched => Expected::Term,
        other => other,
    }
}

/// `h` and the number of a hart, or `h*`.
fn read_harts(text: &[u8]) -> Option<Harts>
    ensures found { IfSome result (SpellsHarts text.now) }
    ensures none { IfNone result ((harts : AnyHarts) → SpellsHarts text.now harts → ⊥) }
{
    if is_each(text) {
        return Some(Harts::Each);
    }
    let (before, digits) = split_field(text, b'h');
    if !is_nothing(before) {
        return None;
    }
    match read_decimal(digits, 255) {
        Ok(hart) => Some(Harts::One(hart as u8)),
        Err(_) => None,
    }
}

/// `stopped`, or with a space and a cause behind it.
fn read_cause(text: &[u8]) -> Option<Option<u8>>
    ensures found { IfSome result (SpellsCause text.now) }
    ensures none { IfNone result ((cause : Option ℕ) → SpellsCause text.now cause → ⊥) }
{
    if is_stopped(text) {
        return Some(None);
    }
    let (word, digits) = split_field(text, b' ');
    if !is_stopped(word) {
        return None;
    }
    match read_decimal(digits, 255) {
        Ok(cause) => Some(Some(cause as u8)),
        Err(_) => None,
    }
}

fn is_each(text: &[u8]) -> bool
    ensures is { result ≡ true → text.now ≡ codes "h*" }
    ensures other { result ≡ false → text.now ≡ codes "h*" → ⊥ }
{
    text == b"h*".as_slice()
}

fn is_stopped(word: &[u8]) -> bool
    ensures is { result ≡ true → word.now ≡ codes "stopped" }
    ensures other { result ≡ false → word.now ≡ codes "stopped" → ⊥ }
{
    word == b"stopped".as_slice()
}

fn is_nothing(text: &[u8]) -> bool
    ensures is { result ≡ true → text.now ≡ [] }
    ensures other { result ≡ false → text.now ≡ [] → ⊥ }
{
    text.is_empty()
}
