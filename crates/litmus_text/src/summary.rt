//! What is said of all final states together.

ghost use Rattle.std.specs.Prelude.{◌≡◌, ◌≤◌, ◌-◌, List, OnOk, length};
ghost use Rattle.std.specs.Fmt.{decimal};
ghost use Rattle.std.specs.Io.KnownBytes.{Appends};
ghost use Rattle.litmus_tests.specs.Conditions.{FinalState, holding, is_as_asked};
ghost use Rattle.litmus_text.specs.Summary.{head_text, summary_text, witness_text, condition_line, observation_text};
ghost use Rattle.litmus_text.specs.Summary.{head_of, verdict_of, negative_text, positive_of};
ghost use Rattle.litmus_text.specs.Summary.{quantifier_of, observation_of};
ghost use Rattle.litmus_text.specs.Summary.{numbers_text, condition_end};

use crate::condition::write_condition;
use arrayvec::ArrayString;
use litmus_tests::{LitmusTest, Quantifier};
use shown_text::write_shown;
use std::io;
use std::io::Write;
use text_fields::push_decimal;

/// Writes how many there are.
fn write_count<W: Write>(count: usize, out: &mut W) -> io::Result<()>
    ensures { OnOk result (Appends (W.contents out.old) (W.contents out.new) (decimal count)) }
{
    let mut digits = ArrayString::<32>::new();
    push_decimal(&mut digits, count);
    out.write_all(digits.as_bytes())
}

/// Writes what the test is, and how many states there are.
#[tactic(auto, unfolding(crate::specs::Summary::head_text))]
pub(crate) fn write_head<W: Write>(test: &LitmusTest, count: usize, out: &mut W) -> io::Result<()>
    ensures { OnOk result (Appends (W.contents out.old) (W.contents out.new)
        (head_text test.now count)) }
{
    out.write_all(b"Test ")?;
    write_shown(test.name.as_slice(), out)?;
    out.write_all(head_of(test.quantifier).as_bytes())?;
    write_count(count, out)?;
    out.write_all(b"\n")
}

/// What herd says of a test by its quantifier.
fn head_of(quantifier: Quantifier) -> &'static str
    ensures { result.now ≡ head_of quantifier }
{
    match quantifier {
        Quantifier::Exists => " Allowed\nStates ",
        Quantifier::NotExists => " Forbidden\nStates ",
        Quantifier::ForAll => " Required\nStates ",
    }
}

/// Whether so many states, of which the condition holds of so many, are as the test asks.
pub(crate) fn is_as_asked(test: &LitmusTest, held: usize, count: usize) -> bool
    ensures { (states : List FinalState) → held ≡ holding states test.now.condition → count ≡ length states
        → result ≡ is_as_asked test.now.quantifier test.now.condition states }
{
    match test.quantifier {
        Quantifier::Exists => held > 0,
        Quantifier::NotExists => held == 0,
        Quantifier::ForAll => held == count,
    }
}

/// Writes whether the states are as the test asks, of how many the condition holds, and the condition.
#[tactic(auto, unfolding(crate::specs::Summary::summary_text))]
pub(crate) fn write_summary<W: Write>(
    test: &LitmusTest,
    is_as_asked: bool,
    held: usize,
    count: usize,
    out: &mut W,
) -> io::Result<()>
    requires { held ≤ count }
    ensures { OnOk result (Appends (W.contents out.old) (W.contents out.new)
        (summary_text test.now is_as_asked held count)) }
{
    out.write_all(verdict_of(is_as_asked).as_bytes())?;
    write_witnesses(positive_of(test.quantifier, held, count), count, out)?;
    write_condition_line(test, out)?;
    write_observation(test, held, count, out)
}

fn verdict_of(is_as_asked: bool) -> &'static str
    ensures { result.now ≡ verdict_of is_as_asked }
{
    match is_as_asked {
        true => "Ok\nWitnesses\nPositive: ",
        false => "No\nWitnesses\nPositive: ",
    }
}

/// How many states speak for what is asked.
fn positive_of(quantifier: Quantifier, held: usize, count: usize) -> usize
    requires { held ≤ count }
    ensures positive { result ≡ positive_of quantifier held count }
    ensures few { result ≤ count }
{
    match quantifier {
        Quantifier::Exists => held,
        Quantifier::NotExists => count - held,
        Quantifier::ForAll => held,
    }
}

fn write_witnesses<W: Write>(positive: usize, count: usize, out: &mut W) -> io::Result<()>
    requires { positive ≤ count }
    ensures { OnOk result (Appends (W.contents out.old) (W.contents out.new)
        (witness_text positive count)) }
{
    write_count(positive, out)?;
    write_negative(count - positive, out)
}

#[tactic(auto, unfolding(crate::specs::Summary::negative_text))]
fn write_negative<W: Write>(negative: usize, out: &mut W) -> io::Result<()>
    ensures { OnOk result (Appends (W.contents out.old) (W.contents out.new) (negative_text negative)) }
{
    let mut part = ArrayString::<64>::new();
    part.push_str(" Negative: ");
    push_decimal(&mut part, negative);
    part.push_str("\n");
    out.write_all(part.as_bytes())
}

#[tactic(auto, unfolding(crate::specs::Summary::condition_line))]
fn write_condition_line<W: Write>(test: &LitmusTest, out: &mut W) -> io::Result<()>
    ensures { OnOk result (Appends (W.contents out.old) (W.contents out.new)
        (condition_line test.now)) }
{
    out.write_all(quantifier_of(test.quantifier).as_bytes())?;
    write_condition(&test.condition, test, out)?;
    out.write_all(condition_end().as_bytes())
}

/// What stands behind the condition.
#[tactic(auto, unfolding(crate::specs::Summary::condition_end))]
fn condition_end() -> &'static str
    ensures { result.now ≡ condition_end }
{
    ")\nObservation "
}

fn quantifier_of(quantifier: Quantifier) -> &'static str
    ensures { result.now ≡ quantifier_of quantifier }
{
    match quantifier {
        Quantifier::Exists => "Condition exists (",
        Quantifier::NotExists => "Condition ~exists (",
        Quantifier::ForAll => "Condition forall (",
    }
}

#[tactic(auto, unfolding(crate::specs::Summary::observation_text))]
fn write_observation<W: Write>(
    test: &LitmusTest,
    held: usize,
    count: usize,
    out: &mut W,
) -> io::Result<()>
    requires { held ≤ count }
    ensures { OnOk result (Appends (W.contents out.old) (W.contents out.new)
        (observation_text test.now held count)) }
{
    write_shown(test.name.as_slice(), out)?;
    out.write_all(observation_of(held, count).as_bytes())?;
    write_numbers(held, count, out)
}

/// How often the condition holds, in a word.
#[tactic(auto, unfolding(crate::specs::Summary::observation_of))]
fn observation_of(held: usize, count: usize) -> &'static str
    ensures { result.now ≡ observation_of held count }
{
    if held == 0 {
        return " Never ";
    }
    if held == count {
        " Always "
    } else {
        " Sometimes "
    }
}

#[tactic(auto, unfolding(crate::specs::Summary::numbers_text))]
fn write_numbers<W: Write>(held: usize, count: usize, out: &mut W) -> io::Result<()>
    requires { held ≤ count }
    ensures { OnOk result (Appends (W.contents out.old) (W.contents out.new)
        (numbers_text held count)) }
{
    write_count(held, out)?;
    out.write_all(b" ")?;
    write_count(count - held, out)?;
    out.write_all(b"\n")
}
