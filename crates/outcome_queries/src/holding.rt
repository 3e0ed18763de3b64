//! Whether a condition holds of an outcome.

ghost use Rattle.std.specs.Prelude.{◌≡◌, ◌==◌, ◌&&◌, position, Some};
ghost use Rattle.std.specs.List.{list_all};
ghost use Rattle.outcome_queries.specs.Holding.{condition_holds, term_holds, hart_ended, hart_stopped};
ghost use Rattle.outcome_queries.specs.Holding.{harts_ended, harts_stopped, is_cause, number_of, cause_of};
ghost use Rattle.outcome_queries.specs.Holding.{register_in, word_in, is_same_bytes, at_place, watched_in};

use crate::condition::{Condition, Joint};
use crate::printed::is_printed;
use crate::relation::{Relation, compares, is_told};
use crate::term::{Harts, Term};
use crate::watched::Watched;
use smt_model::Status;
use watched_outcomes::{Outcome, Watch, WatchedBytes, WatchedRegister};

/// Whether a condition holds of an outcome, of which these registers and words were watched.
/// A hart that isn't there has no end, and what isn't watched no number.
pub fn holds(condition: &Condition<'_>, watch: &Watch, outcome: &Outcome) -> bool
    ensures { result ≡ condition_holds watch.now outcome.now condition.now }
{
    match condition {
        Condition::Holds(term) => term_holds(*term, watch, outcome),
        Condition::Not(inner) => !holds(inner, watch, outcome),
        Condition::Grouped(inner) => holds(inner, watch, outcome),
        Condition::Joined(Joint::And, first, others) => {
            holds(first, watch, outcome) && holds(others, watch, outcome)
        }
        Condition::Joined(Joint::Or, first, others) => {
            holds(first, watch, outcome) || holds(others, watch, outcome)
        }
    }
}

fn term_holds(term: Term<'_>, watch: &Watch, outcome: &Outcome) -> bool
    ensures { result ≡ term_holds watch.now outcome.now term.entry }
{
    match term {
        Term::Ended {
            harts,
            relation,
            number,
        } => harts_ended(outcome.statuses.as_slice(), harts, relation, number),
        Term::Stopped {
            harts,
            relation,
            cause,
        } => harts_stopped(outcome.statuses.as_slice(), harts, relation, cause),
        Term::Holds {
            asked,
            relation,
            value,
        } => compares(relation, watched_in(watch, outcome, asked.watched), value),
        Term::Put { digits, relation } => is_told(
            relation,
            is_printed(outcome.output.as_slice(), digits),
        ),
    }
}

/// Whether a hart has ended with such a number, or each has.
fn harts_ended(statuses: &[Status], harts: Harts, relation: Relation, number: u32) -> bool
    ensures { result ≡ harts_ended statuses.now harts relation number }
{
    match harts {
        Harts::One(hart) => hart_ended(statuses.get(usize::from(hart)).copied(), relation, number),
        Harts::Each => each_ended(statuses, relation, number),
    }
}

fn each_ended(statuses: &[Status], relation: Relation, number: u32) -> bool
    ensures { result ≡ list_all (λ status. hart_ended relation number (Some status)) statuses.now }
{
    statuses
        .iter()
        .all(|status| hart_ended(Some(*status), relation, number))
}

fn hart_ended(status: Option<Status>, relation: Relation, number: u32) -> bool
    ensures { result ≡ hart_ended relation number status }
{
    compares(relation, number_of(status), number)
}

/// The number that a hart has ended with.
fn number_of(status: Option<Status>) -> Option<u32>
    ensures { result ≡ number_of status }
{
    match status {
        Some(Status::Ended(number)) => Some(number),
        _ => None,
    }
}

/// Whether a hart has stopped so, or each has.
fn harts_stopped(statuses: &[Status], harts: Harts, relation: Relation, cause: Option<u8>) -> bool
    ensures { result ≡ harts_stopped statuses.now harts relation cause }
{
    match harts {
        Harts::One(hart) => hart_stopped(statuses.get(usize::from(hart)).copied(), relation, cause),
        Harts::Each => each_stopped(statuses, relation, cause),
    }
}

fn each_stopped(statuses: &[Status], relation: Relation, cause: Option<u8>) -> bool
    ensures { result ≡ list_all (λ status. hart_stopped relation cause (Some status)) statuses.now }
{
    statuses
        .iter()
        .all(|status| hart_stopped(Some(*status), relation, cause))
}

fn hart_stopped(status: Option<Status>, relation: Relation, cause: Option<u8>) -> bool
    ensures { result ≡ hart_stopped relation cause status }
{
    is_told(relation, is_cause(cause, cause_of(status)))
}

/// The cause that a hart has stopped with.
fn cause_of(status: Option<Status>) -> Option<u8>
    ensures { result ≡ cause_of status }
{
    match status {
        Some(Status::Stopped(cause)) => Some(cause),
        _ => None,
    }
}

/// Whether there is a cause, and the one that is said where one is.
fn is_cause(said: Option<u8>, found: Option<u8>) -> bool
    ensures { result ≡ is_cause said found }
{
    match (said, found) {
        (_, None) => false,
        (None, Some(_)) => true,
        (Some(said), Some(found)) => found == said,
    }
}

/// The number of what is watched at the end.
fn watched_in(watch: &Watch, outcome: &Outcome, watched: Watched) -> Option<u32>
    ensures { result ≡ watched_in watch.now outcome.now watched }
{
    match watched {
        Watched::Register { hart, register } => register_in(watch, outcome, hart, register),
        Watched::Bytes(bytes) => word_in(watch, outcome, bytes),
    }
}

/// The number of a register at the end, where it is watched.
fn register_in(watch: &Watch, outcome: &Outcome, hart: u8, register: u8) -> Option<u32>
    ensures { result ≡ register_in watch.now outcome.now hart register }
{
    number_at(
        outcome.registers.as_slice(),
        register_place(watch.registers.as_slice(), hart, register),
    )
}

fn register_place(registers: &[WatchedRegister], hart: u8, register: u8) -> Option<usize>
    ensures { result ≡ position (λ w. w.hart == hart && w.register == register) registers.now }
{
    registers.iter().position(|watched| watched.hart == hart && watched.register == register)
}

/// The number that bytes of memory are at the end, where they are watched.
fn word_in(watch: &Watch, outcome: &Outcome, bytes: WatchedBytes) -> Option<u32>
    ensures { result ≡ word_in watch.now outcome.now bytes }
{
    number_at(
        outcome.words.as_slice(),
        word_place(watch.words.as_slice(), bytes),
    )
}

fn word_place(words: &[WatchedBytes], bytes: WatchedBytes) -> Option<usize>
    ensures { result ≡ position (is_same_bytes bytes) words.now }
{
    words
        .iter()
        .position(|watched| is_same_bytes(bytes, *watched))
}

/// Whether bytes are the same: at one address, and as many.
fn is_same_bytes(bytes: WatchedBytes, other: WatchedBytes) -> bool
    ensures { result ≡ is_same_bytes bytes other }
{
    other.address == bytes.address && other.width.bytes() == bytes.width.bytes()
}

/// The number at a place.
fn number_at(numbers: &[u32], place: Option<usize>) -> Option<u32>
    ensures { result ≡ at_place numbers.now place }
{
    match place {
        Some(place) => numbers.get(place).copied(),
        None => None,
    }
}
