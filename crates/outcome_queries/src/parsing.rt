//! Conditions, read from text. A text is cut at its joints, and what stands alone at the signs in front of it. The
//! recursion is as deep as there are terms, and as signs are nested, which are both bounded.

ghost use Rattle.std.specs.Prelude.{◌≡◌, ◌+◌, ◌≤◌, ◌<◌, ◌^◌, length, IfOk, IfErr, IfSome, IfNone};
ghost use Rattle.std.specs.List.{prefix_len};
ghost use Rattle.std.specs.Char.{is_ascii_whitespace};
ghost use Rattle.symbols.specs.Tables.{table_of};
ghost use Rattle.outcome_queries.specs.Conditions.{Says, IsJoint, StandsAlone, terms_in, levels_in};
ghost use Rattle.outcome_queries.specs.Terms.{SaysTerm};
ghost use Rattle.outcome_queries.specs.declared.refused.ConditionRefused.TheVariants.{Memory, Text};
ghost use Rattle.outcome_queries.specs.ConditionRefusals.{IsRefusal, IsInnerRefusal, IsLeafRefusal, at_start};
ghost use Rattle.outcome_queries.specs.Making.{IsAlone, IsBehindOpening, IsHolding, IsDenial, IsGroup, IsJoining};

use crate::condition::{Condition, Joint, MOST_LEVELS, MOST_TERMS};
use crate::outer::outer_place;
use crate::refused::{ConditionRefused, Expected, QueryRefused};
use crate::term::{read_term, trimmed};
use std::alloc::Global;
use symbols::Symbols;

/// Where a part of a condition stands.
#[derive(Clone, Copy, Drop)]
pub(crate) struct Place {
    /// The column at which it begins, from 1.
    pub column: usize,
    /// How many terms stand before it.
    pub before: usize,
    /// How many levels may be nested in it.
    pub levels: usize,
}

/// What has been read: a condition, and how many terms stand up to its end.
#[derive(Drop)]
pub(crate) struct Read<'a> {
    pub condition: Condition<'a>,
    pub count: usize,
}

/// Reads a condition: terms with `&` and `|` between, `!` before them and parentheses around, as
/// `h0=1 & !(a0@1=2 | counter>=2)`; at most `MOST_TERMS` terms, and `MOST_LEVELS` of `!` and parentheses.
pub fn read_condition<'a>(
    text: &'a [u8],
    names: &Symbols<'_>,
    alloc: Global,
) -> Result<Condition<'a>, ConditionRefused>
    ensures read { IfOk result (λ condition. Says (table_of names.now) condition text.now) }
    ensures few { IfOk result (λ condition. length (terms_in condition) ≤ 32) }
    ensures shallow { IfOk result (λ condition. levels_in condition ≤ 16) }
    ensures refused { IfErr result (IsRefusal (table_of names.now) text.now at_start) }
{
    let start = Place {
        column: 1,
        before: 0,
        levels: MOST_LEVELS,
    };
    match read_part(text, names, alloc, start) {
        Ok(read) => Ok(read.condition),
        Err(refused) => Err(refused),
    }
}

/// Reads a part of a condition.
#[cycle(condition)]
fn read_part<'a>(
    text: &'a [u8],
    names: &Symbols<'_>,
    alloc: Global,
    place: Place,
) -> Result<Read<'a>, ConditionRefused>
    requires small { place.column + length text.now ≤ 2 ^ 63 }
    ensures read { IfOk result (λ read. Says (table_of names.now) read.condition text.now) }
    ensures count { IfOk result (λ read. read.count ≡ place.before + length (terms_in read.condition)) }
    ensures few { IfOk result (λ read. read.count ≤ 32) }
    ensures shallow { IfOk result (λ read. levels_in read.condition ≤ place.levels) }
    ensures refused { IfErr result (IsRefusal (table_of names.now) text.now place) }
{
    let Some((joint, cut)) = joint_of(text) else {
        return read_alone(text, names, alloc, place);
    };
    let first = match read_part(&text[..cut], names, alloc, place) {
        Ok(first) => first,
        Err(refused) => return Err(refused),
    };
    let behind = Place {
        column: place.column + cut + 1,
        before: first.count,
        levels: place.levels,
    };
    let others = match read_part(&text[cut + 1..], names, alloc, behind) {
        Ok(others) => others,
        Err(refused) => return Err(refused),
    };
    joined(joint, first, others, alloc)
}

/// Where a text is cut, and what joins its parts.
fn joint_of(text: &[u8]) -> Option<(Joint, usize)>
    ensures found { IfSome result (λ p. IsJoint text.now p.0 p.1) }
    ensures inside { IfSome result (λ p. p.1 < length text.now) }
    ensures none { IfNone result (StandsAlone text.now) }
{
    if let Some(place) = outer_place(text, b'|') {
        return Some((Joint::Or, place));
    }
    match outer_place(text, b'&') {
        Some(place) => Some((Joint::And, place)),
        None => None,
    }
}

/// Reads what stands alone: a term, `!` and what is denied, or a condition in parentheses.
#[cycle(condition)]
fn read_alone<'a>(
    text: &'a [u8],
    names: &Symbols<'_>,
    alloc: Global,
    place: Place,
) -> Result<Read<'a>, ConditionRefused>
    requires alone { StandsAlone text.now }
    requires small { place.column + length text.now ≤ 2 ^ 63 }
    ensures read { IfOk result (λ read. Says (table_of names.now) read.condition text.now) }
    ensures count { IfOk result (λ read. read.count ≡ place.before + length (terms_in read.condition)) }
    ensures few { IfOk result (λ read. read.count ≤ 32) }
    ensures shallow { IfOk result (λ read. levels_in read.condition ≤ place.levels) }
    ensures refused { IfErr result (IsRefusal (table_of names.now) text.now place) }
{
    let column = place.column + blanks_before(text);
    match alone_of(trimmed(text)) {
        Alone::Term => read_leaf(text, names, place),
        Alone::Unclosed => Err(refused(column, Expected::Closing)),
        Alone::Denied(rest) => match read_inner(rest, names, alloc, place, column) {
            Ok(inner) => denied(inner, alloc),
            Err(why) => Err(why),
        },
        Alone::Grouped(rest) => match read_inner(rest, names, alloc, place, column) {
            Ok(inner) => grouped(inner, alloc),
            Err(why) => Err(why),
        },
    }
}

/// Reads what stands behind a `!` or a `(` at this column.
#[cycle(condition)]
fn read_inner<'a>(
    text: &'a [u8],
    names: &Symbols<'_>,
    alloc: Global,
    place: Place,
    column: usize,
) -> Result<Read<'a>, ConditionRefused>
    requires { column + 1 + length text.now ≤ 2 ^ 63 }
    ensures read { IfOk result (λ read. Says (table_of names.now) read.condition text.now) }
    ensures count { IfOk result (λ read. read.count ≡ place.before + length (terms_in read.condition)) }
    ensures few { IfOk result (λ read. read.count ≤ 32) }
    ensures shallow { IfOk result (λ read. levels_in read.condition + 1 ≤ place.levels) }
    ensures refused { IfErr result (IsInnerRefusal (table_of names.now) text.now place column) }
{
    if place.levels == 0 {
        return Err(refused(column, Expected::Levels));
    }
    let inside = Place {
        column: column + 1,
        before: place.before,
        levels: place.levels - 1,
    };
    read_part(text, names, alloc, inside)
}

/// Reads a term.
fn read_leaf<'a>(
    text: &'a [u8],
    names: &Symbols<'_>,
    place: Place,
) -> Result<Read<'a>, ConditionRefused>
    ensures read { IfOk result (λ read. IsHolding (SaysTerm (table_of names.now) text.now) read.condition) }
    ensures count { IfOk result (λ read. read.count ≡ place.before + 1) }
    ensures few { IfOk result (λ read. read.count ≤ 32) }
    ensures refused { IfErr result (IsLeafRefusal (table_of names.now) text.now place) }
{
    let term = match read_term(text, names) {
        Ok(term) => term,
        Err(expected) => return Err(refused(place.column, expected)),
    };
    if place.before >= MOST_TERMS {
        return Err(refused(place.column, Expected::Terms));
    }
    Ok(Read {
        condition: Condition::Holds(term),
        count: place.before + 1,
    })
}

/// What stands alone, without white space around it.
#[derive(Clone, Copy, Drop)]
enum Alone<'a> {
    Term,
    /// `!` and this.
    Denied(&'a [u8]),
    /// This in parentheses.
    Grouped(&'a [u8]),
    /// A parenthesis that isn't closed at the end.
    Unclosed,
}

fn alone_of(text: &[u8]) -> Alone<'_>
    ensures { IsAlone text.now result }
{
    let Some((first, rest)) = text.split_first() else {
        return Alone::Term;
    };
    match *first {
        b'!' => Alone::Denied(rest),
        b'(' => group_of(rest),
        _ => Alone::Term,
    }
}

/// What stands behind an opening parenthesis.
fn group_of(rest: &[u8]) -> Alone<'_>
    ensures { IsBehindOpening rest.now result }
{
    match rest.split_last() {
        Some((b')', inner)) => Alone::Grouped(inner),
        _ => Alone::Unclosed,
    }
}

/// How much white space a text begins with.
fn blanks_before(text: &[u8]) -> usize
    ensures count { result ≡ prefix_len is_ascii_whitespace text.now }
    ensures inside { result ≤ length text.now }
{
    text.len() - text.trim_ascii_start().len()
}

fn refused(column: usize, expected: Expected) -> ConditionRefused
    ensures { result ≡ Text (record { column = column; expected = expected }) }
{
    ConditionRefused::Text(QueryRefused { column, expected })
}

fn denied<'a>(inner: Read<'a>, alloc: Global) -> Result<Read<'a>, ConditionRefused>
    ensures made { IfOk result (λ read. IsDenial inner.entry.condition read.condition) }
    ensures count { IfOk result (λ read. read.count ≡ inner.entry.count) }
    ensures refused { IfErr result (λ why. why ≡ Memory) }
{
    let Read { condition, count } = inner;
    match Box::new(alloc, condition) {
        Ok(inner) => Ok(Read {
            condition: Condition::Not(inner),
            count,
        }),
        Err(_) => Err(ConditionRefused::Memory),
    }
}

fn grouped<'a>(inner: Read<'a>, alloc: Global) -> Result<Read<'a>, ConditionRefused>
    ensures made { IfOk result (λ read. IsGroup inner.entry.condition read.condition) }
    ensures count { IfOk result (λ read. read.count ≡ inner.entry.count) }
    ensures refused { IfErr result (λ why. why ≡ Memory) }
{
    let Read { condition, count } = inner;
    match Box::new(alloc, condition) {
        Ok(inner) => Ok(Read {
            condition: Condition::Grouped(inner),
            count,
        }),
        Err(_) => Err(ConditionRefused::Memory),
    }
}

fn joined<'a>(
    joint: Joint,
    first: Read<'a>,
    others: Read<'a>,
    alloc: Global,
) -> Result<Read<'a>, ConditionRefused>
    ensures made { IfOk result (λ read. IsJoining joint first.entry.condition others.entry.condition read.condition) }
    ensures count { IfOk result (λ read. read.count ≡ others.entry.count) }
    ensures refused { IfErr result (λ why. why ≡ Memory) }
{
    let Read { condition, count } = others;
    let Ok(first) = Box::new(alloc, first.condition) else {
        return Err(ConditionRefused::Memory);
    };
    match Box::new(alloc, condition) {
        Ok(others) => Ok(Read {
            condition: Condition::Joined(joint, first, others),
            count,
        }),
        Err(_) => Err(ConditionRefused::Memory),
    }
}
