//! The text of all final states.

ghost use Rattle.std.specs.Prelude.{◌≡◌, ◌≤◌, ◌<◌, ◌&&◌, [], if◌then◌else◌, nat_lt, flat_map, length, Some, slice_get, OnOk};
ghost use Rattle.std.specs.Io.KnownBytes.{Appends};
ghost use Rattle.litmus_tests.specs.WellFormed.{IsWellFormed};
ghost use Rattle.litmus_tests.specs.Conditions.{holding, holds};
ghost use Rattle.litmus_images.specs.Watching.{final_state};
ghost use Rattle.outcomes.specs.Found.{Told};
ghost use Rattle.litmus_text.specs.State.{told_line, state_line};
ghost use Rattle.litmus_text.specs.States.{states_text, states_in, told_in, passes, is_held, line_if};

use crate::state::write_state;
use crate::summary::{is_as_asked, write_head, write_summary};
use litmus_images::{holds_in, passes};
use litmus_tests::LitmusTest;
use outcomes::Outcomes;
use std::io;
use std::io::Write;
use watched_outcomes::Outcome;

/// Writes the final states of a test, which are the outcomes of its image of which its filter holds: a line for each,
/// whether they are as the test asks, of how many its condition holds, and the condition. Where it answers Ok, it has
/// written exactly these lines.
#[tactic(auto, unfolding(crate::specs::States::states_text))]
pub fn write_states<W: Write>(test: &LitmusTest, outcomes: &Outcomes, out: &mut W) -> io::Result<()>
    requires { IsWellFormed test.now }
    ensures { OnOk result (Appends (W.contents out.old) (W.contents out.new)
        (states_text test.now outcomes.now.listed)) }
{
    let count = passing_of(test, outcomes);
    let held = held_of(test, outcomes);
    let as_asked = is_as_asked(test, held, count);
    write_head(test, count, out)?;
    write_lines(test, outcomes, out)?;
    write_summary(test, as_asked, held, count, out)
}

/// Whether the condition of a test holds of one of its final states at least.
pub fn holds_of_any(test: &LitmusTest, outcomes: &Outcomes) -> bool
    requires { IsWellFormed test.now }
    ensures { result ≡ nat_lt 0 (holding (states_in test.now outcomes.now.listed) test.now.condition) }
{
    held_of(test, outcomes) > 0
}

/// Of how many final states the condition holds.
pub(crate) fn held_of(test: &LitmusTest, outcomes: &Outcomes) -> usize
    requires { IsWellFormed test.now }
    ensures held { result ≡ holding (states_in test.now outcomes.now.listed) test.now.condition }
    ensures few { result ≤ length (told_in test.now outcomes.now.listed) }
{
    let mut held = 0;
    for index in 0..outcomes.count() {
        held += usize::from(holds_at(test, outcomes, index));
    }
    held
}

/// How many outcomes are final states of the test.
pub(crate) fn passing_of(test: &LitmusTest, outcomes: &Outcomes) -> usize
    requires { IsWellFormed test.now }
    ensures { result ≡ length (told_in test.now outcomes.now.listed) }
{
    let mut passing = 0;
    for index in 0..outcomes.count() {
        passing += usize::from(passes_at(test, outcomes, index));
    }
    passing
}

/// Whether the outcome with this index is a final state of the test.
fn passes_at(test: &LitmusTest, outcomes: &Outcomes, index: usize) -> bool
    requires sound { IsWellFormed test.now }
    requires within { index < length outcomes.now.listed }
    ensures { (told : Told) → slice_get outcomes.now.listed index ≡ Some told
        → result ≡ passes test.now told }
{
    match outcomes.outcome(index) {
        Some(outcome) => passes(test, outcome),
        None => false,
    }
}

/// Whether the outcome with this index is a final state of the test of which the condition holds.
fn holds_at(test: &LitmusTest, outcomes: &Outcomes, index: usize) -> bool
    requires sound { IsWellFormed test.now }
    requires within { index < length outcomes.now.listed }
    ensures { (told : Told) → slice_get outcomes.now.listed index ≡ Some told
        → result ≡ is_held test.now told }
{
    match outcomes.outcome(index) {
        Some(outcome) => is_held(test, outcome),
        None => false,
    }
}

fn is_held(test: &LitmusTest, outcome: &Outcome) -> bool
    requires { IsWellFormed test.now }
    ensures { result ≡ (holds (final_state test.now outcome.now) test.now.filter
        && holds (final_state test.now outcome.now) test.now.condition) }
{
    passes(test, outcome) && holds_in(test, outcome)
}

fn write_lines<W: Write>(test: &LitmusTest, outcomes: &Outcomes, out: &mut W) -> io::Result<()>
    requires { IsWellFormed test.now }
    ensures { OnOk result (Appends (W.contents out.old) (W.contents out.new)
        (flat_map (told_line test.now) (told_in test.now outcomes.now.listed))) }
{
    for index in 0..outcomes.count() {
        write_line_at(test, outcomes, index, out)?;
    }
    Ok(())
}

/// Writes the line of the outcome with this index, if it is a final state of the test.
fn write_line_at<W: Write>(
    test: &LitmusTest,
    outcomes: &Outcomes,
    index: usize,
    out: &mut W,
) -> io::Result<()>
    requires sound { IsWellFormed test.now }
    requires within { index < length outcomes.now.listed }
    ensures { OnOk result ((told : Told) → slice_get outcomes.now.listed index ≡ Some told
        → Appends (W.contents out.old) (W.contents out.new) (line_if test.now told)) }
{
    match outcomes.outcome(index) {
        Some(outcome) => write_if_passing(test, outcome, out),
        None => Ok(()),
    }
}

fn write_if_passing<W: Write>(test: &LitmusTest, outcome: &Outcome, out: &mut W) -> io::Result<()>
    requires { IsWellFormed test.now }
    ensures { OnOk result (Appends (W.contents out.old) (W.contents out.new)
        (if holds (final_state test.now outcome.now) test.now.filter then state_line test.now outcome.now else [])) }
{
    if passes(test, outcome) {
        return write_state(test, outcome, out);
    }
    Ok(())
}
