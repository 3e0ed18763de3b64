//! The line of a final state.

ghost use Rattle.std.specs.Prelude.{◌≡◌, ◌<◌, ◌≤◌, ◌++◌, ◌∷◌, [], codes, OnOk, Some, length, slice_get, position};
ghost use Rattle.litmus_text.specs.{State.whole_element, Value.observed_text};
ghost use Rattle.std.specs.Io.KnownBytes.{Appends};
ghost use Rattle.litmus_tests.specs.declared.condition.Observed.{Observed as AnyObserved};
ghost use Rattle.text_fields.specs.Each.{each_from};
ghost use Rattle.litmus_text.specs.State.{state_line, part_text, equation_text, space_of, stop_text, stopped_text};
ghost use Rattle.litmus_text.specs.State.{array_name, closing_text, element_in, element_of, opening_text};
ghost use Rattle.litmus_text.specs.State.{is_told, first_told, space_before};

use crate::value::{write_number, write_observed};
use arrayvec::ArrayString;
use litmus_images::value_in;
use litmus_tests::{Element, LitmusTest, Observed, type_of};
use smt_model::Status;
use std::io;
use std::io::Write;
use text_fields::push_decimal;
use watched_outcomes::Outcome;

/// Writes the line of a state: what is looked at, in the test's order, and each hart that stopped otherwise
/// than at its EBREAK; one space between two.
#[tactic(auto, unfolding(crate::specs::State::state_line))]
pub fn write_state<W: Write>(test: &LitmusTest, outcome: &Outcome, out: &mut W) -> io::Result<()>
    ensures { OnOk result (Appends (W.contents out.old) (W.contents out.new)
        (state_line test.now outcome.now)) }
{
    write_parts(test, outcome, out)?;
    write_told(test, outcome, out)?;
    out.write_all(b"\n")
}

/// Writes each hart that is told of.
fn write_told<W: Write>(test: &LitmusTest, outcome: &Outcome, out: &mut W) -> io::Result<()>
    ensures { OnOk result (Appends (W.contents out.old) (W.contents out.new)
        (each_from (stop_text (first_told test.now outcome.now.statuses)) 0 outcome.now.statuses)) }
{
    let first = first_told(test, outcome.statuses.as_slice());
    write_stops(first, outcome.statuses.as_slice(), out)
}

fn write_parts<W: Write>(test: &LitmusTest, outcome: &Outcome, out: &mut W) -> io::Result<()>
    ensures { OnOk result (Appends (W.contents out.old) (W.contents out.new)
        (each_from (part_text test.now outcome.now) 0 test.now.observed.items)) }
{
    for index in 0..observed_count(test) {
        write_part(test, outcome, index, out)?;
    }
    Ok(())
}

/// How many things are looked at.
fn observed_count(test: &LitmusTest) -> usize
    ensures { result ≡ length test.now.observed.items }
{
    test.observed.len()
}

/// Writes what the thing with this index holds, of those that are looked at.
fn write_part<W: Write>(
    test: &LitmusTest,
    outcome: &Outcome,
    index: usize,
    out: &mut W,
) -> io::Result<()>
    requires { index < length test.now.observed.items }
    ensures { OnOk result ((observed : AnyObserved) → slice_get test.now.observed.items index ≡ Some observed
        → Appends (W.contents out.old) (W.contents out.new)
        (part_text test.now outcome.now index observed)) }
{
    let number = value_in(test, outcome, index);
    write_equation(test, index, test.observed[index], number, out)
}

#[tactic(auto, unfolding(crate::specs::State::equation_text))]
fn write_equation<W: Write>(
    test: &LitmusTest,
    index: usize,
    observed: Observed,
    number: u32,
    out: &mut W,
) -> io::Result<()>
    ensures { OnOk result (Appends (W.contents out.old) (W.contents out.new)
        (equation_text test.now index observed number)) }
{
    let element = element_in(test, observed);
    write_opening(test, index, observed, element, out)?;
    write_number(test, type_of(&test.locations, observed), number, out)?;
    out.write_all(closing_text(element).as_bytes())
}

/// The element that is looked at of an array that is shown as a whole.
fn element_in(test: &LitmusTest, observed: Observed) -> Option<Element>
    ensures { result ≡ element_in test.now observed }
{
    match observed {
        Observed::Register { .. } => None,
        Observed::Location(index) => element_at(test, index),
    }
}

fn element_at(test: &LitmusTest, index: usize) -> Option<Element>
    ensures { result ≡ element_of (slice_get test.now.locations.items index) }
{
    match test.locations.get(index) {
        Some(location) => whole_element(location.element),
        None => None,
    }
}

fn whole_element(element: Option<Element>) -> Option<Element>
    ensures { result ≡ whole_element element }
{
    match element {
        Some(element) => {
            if element.is_whole {
                return Some(element);
            }
            None
        }
        None => None,
    }
}

/// Writes what stands before a number: what holds it, or of an array shown as a whole its name before the first
/// element.
fn write_opening<W: Write>(
    test: &LitmusTest,
    index: usize,
    observed: Observed,
    element: Option<Element>,
    out: &mut W,
) -> io::Result<()>
    ensures { OnOk result (Appends (W.contents out.old) (W.contents out.new)
        (opening_text test.now index observed element)) }
{
    match element {
        Some(element) => {
            if element.index == 0 {
                return write_array_name(test, index, observed, out);
            }
            out.write_all(b",")
        }
        None => write_equals(test, index, observed, out),
    }
}

/// Writes `x={`.
fn write_array_name<W: Write>(
    test: &LitmusTest,
    index: usize,
    observed: Observed,
    out: &mut W,
) -> io::Result<()>
    ensures { OnOk result (Appends (W.contents out.old) (W.contents out.new)
        (space_of index ++ (array_name test.now observed ++ (61 ∷ 123 ∷ [])))) }
{
    out.write_all(space_of(index).as_bytes())?;
    out.write_all(array_name(test, observed))?;
    out.write_all(b"={")
}

/// The name of the location that is looked at.
fn array_name(test: &LitmusTest, observed: Observed) -> &[u8]
    ensures { result.now ≡ array_name test.now observed }
{
    match observed {
        Observed::Register { .. } => &[],
        Observed::Location(index) => match test.locations.get(index) {
            Some(location) => location.name.as_slice(),
            None => &[],
        },
    }
}

/// Writes `0:x7=`.
fn write_equals<W: Write>(
    test: &LitmusTest,
    index: usize,
    observed: Observed,
    out: &mut W,
) -> io::Result<()>
    ensures { OnOk result (Appends (W.contents out.old) (W.contents out.new)
        (space_of index ++ (observed_text test.now observed ++ codes "="))) }
{
    out.write_all(space_of(index).as_bytes())?;
    write_observed(test, observed, out)?;
    out.write_all(b"=")
}

/// What stands behind a number.
fn closing_text(element: Option<Element>) -> &'static str
    ensures { result.now ≡ closing_text element }
{
    match element {
        Some(element) => {
            if element.count.saturating_sub(element.index) == 1 {
                return "};";
            }
            ""
        }
        None => ";",
    }
}

/// What stands before a part of the line.
fn space_of(index: usize) -> &'static str
    ensures { result.now ≡ space_of index }
{
    if index == 0 { "" } else { " " }
}

fn write_stops<W: Write>(first: Option<usize>, statuses: &[Status], out: &mut W) -> io::Result<()>
    ensures { OnOk result (Appends (W.contents out.old) (W.contents out.new)
        (each_from (stop_text first) 0 statuses.now)) }
{
    for (index, status) in statuses.iter().enumerate() {
        write_stop(first, index, *status, out)?;
    }
    Ok(())
}

/// The hart with which the line begins; none where it begins with what is looked at.
fn first_told(test: &LitmusTest, statuses: &[Status]) -> Option<usize>
    ensures { result ≡ first_told test.now statuses.now }
{
    if observed_count(test) == 0 {
        first_in(statuses)
    } else {
        None
    }
}

fn first_in(statuses: &[Status]) -> Option<usize>
    ensures { result ≡ position is_told statuses.now }
{
    statuses.iter().position(|status| is_told(*status))
}

/// Whether a hart stopped otherwise than at its EBREAK.
fn is_told(status: Status) -> bool
    ensures { result ≡ is_told status }
{
    match status {
        Status::Going => false,
        Status::Ended(_) => true,
        Status::Stopped(cause) => cause != 3,
    }
}

/// Writes how a hart stopped; nothing where it did so at its EBREAK. The line begins with `first`, where that is
/// a hart.
fn write_stop<W: Write>(
    first: Option<usize>,
    hart: usize,
    status: Status,
    out: &mut W,
) -> io::Result<()>
    ensures { OnOk result (Appends (W.contents out.old) (W.contents out.new)
        (stop_text first hart status)) }
{
    match status {
        Status::Going => Ok(()),
        Status::Ended(number) => write_stopped(first, hart, " ended ", number, out),
        Status::Stopped(3) => Ok(()),
        Status::Stopped(cause) => write_stopped(first, hart, " stopped ", u32::from(cause), out),
    }
}

/// What stands between a hart and what is before it on the line.
fn space_before(first: Option<usize>, hart: usize) -> &'static str
    ensures spaced { result.now ≡ space_before first hart }
    ensures short { length result.now ≤ 1 }
{
    match first {
        None => " ",
        Some(index) => { if index == hart { "" } else { " " } }
    }
}

fn write_stopped<W: Write>(
    first: Option<usize>,
    hart: usize,
    how: &'static str,
    number: u32,
    out: &mut W,
) -> io::Result<()>
    requires { length how.now ≤ 9 }
    ensures { OnOk result (Appends (W.contents out.old) (W.contents out.new)
        (stopped_text first hart how.now number)) }
{
    let mut part = ArrayString::<64>::new();
    part.push_str(space_before(first, hart));
    part.push_str("P");
    push_decimal(&mut part, hart);
    part.push_str(how);
    push_decimal(&mut part, number);
    part.push_str(";");
    out.write_all(part.as_bytes())
}
