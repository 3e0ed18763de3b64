//! What is said of all runs together.

ghost use Rattle.std.specs.Prelude.{◌≡◌, OnOk};
ghost use Rattle.std.specs.Fmt.{decimal};
ghost use Rattle.std.specs.Io.KnownBytes.{Appends};
ghost use Rattle.litmus_histograms.specs.Text.{
  condition_begin,
  condition_line,
  head_text,
  is_as_asked,
  kind_of_test,
  negative_text,
  often,
  observation_text,
  rest_text,
  runs_line,
  summary_text,
  validated,
  verdict_of,
  witness_line,
  witness_text,
};

use arrayvec::ArrayString;
use litmus_tests::{LitmusTest, Quantifier};
use litmus_text::write_condition;
use shown_text::write_shown;
use std::io;
use std::io::Write;
use text_fields::push_decimal;

/// Of how many runs the condition holds, of those that have ended in a final state, and of how many it doesn't; and how
/// many have ended otherwise, or not at all.
#[derive(Clone, Copy, Drop)]
pub(crate) struct Totals {
    pub(crate) held: u64,
    pub(crate) other: u64,
    pub(crate) left_out: u64,
    pub(crate) not_ended: u64,
}

/// Writes a number.
fn write_count<W: Write>(count: u64, out: &mut W) -> io::Result<()>
    ensures { OnOk result (Appends (W.contents out.old) (W.contents out.new) (decimal count)) }
{
    let mut digits = ArrayString::<24>::new();
    push_decimal(&mut digits, count);
    out.write_all(digits.as_bytes())
}

/// Writes what the test is, and to how many states runs have come.
#[tactic(auto, unfolding(crate::specs::Text::head_text))]
pub(crate) fn write_head<W: Write>(test: &LitmusTest, states: u64, out: &mut W) -> io::Result<()>
    ensures { OnOk result (Appends (W.contents out.old) (W.contents out.new)
        (head_text test.now states)) }
{
    out.write_all(b"Test ")?;
    write_shown(test.name.as_slice(), out)?;
    out.write_all(kind_of_test(test.quantifier).as_bytes())?;
    write_count(states, out)?;
    out.write_all(b" states)\n")
}

fn kind_of_test(quantifier: Quantifier) -> &'static str
    ensures { result.now ≡ kind_of_test quantifier }
{
    match quantifier {
        Quantifier::Exists => " Allowed\nHistogram (",
        Quantifier::NotExists => " Forbidden\nHistogram (",
        Quantifier::ForAll => " Required\nHistogram (",
    }
}

/// Writes whether the runs are as the test asks, of how many its condition holds, and the condition; and behind that how
/// many runs aren't told of by their states.
#[tactic(auto, unfolding(crate::specs::Text::summary_text))]
pub(crate) fn write_summary<W: Write>(
    test: &LitmusTest,
    totals: Totals,
    out: &mut W,
) -> io::Result<()>
    ensures { OnOk result (Appends (W.contents out.old) (W.contents out.new)
        (summary_text test.now totals.held totals.other totals.left_out totals.not_ended)) }
{
    let as_asked = is_as_asked(test.quantifier, totals.held, totals.other);
    out.write_all(verdict_of(as_asked).as_bytes())?;
    write_witnesses(test.quantifier, totals.held, totals.other, out)?;
    write_condition_line(test, as_asked, out)?;
    write_observation(test, totals.held, totals.other, out)?;
    write_rest(totals.left_out, totals.not_ended, out)
}

/// Whether runs are as the test asks, of which the condition holds of so many, and doesn't of so many others.
fn is_as_asked(quantifier: Quantifier, held: u64, other: u64) -> bool
    ensures { result ≡ is_as_asked quantifier held other }
{
    match quantifier {
        Quantifier::Exists => held > 0,
        Quantifier::NotExists => held == 0,
        Quantifier::ForAll => other == 0,
    }
}

fn verdict_of(as_asked: bool) -> &'static str
    ensures { result.now ≡ verdict_of as_asked }
{
    match as_asked {
        true => "Ok\n\nWitnesses\nPositive: ",
        false => "No\n\nWitnesses\nPositive: ",
    }
}

/// Writes how many runs speak for what is asked, and how many don't.
fn write_witnesses<W: Write>(
    quantifier: Quantifier,
    held: u64,
    other: u64,
    out: &mut W,
) -> io::Result<()>
    ensures { OnOk result (Appends (W.contents out.old) (W.contents out.new)
        (witness_line quantifier held other)) }
{
    match quantifier {
        Quantifier::Exists | Quantifier::ForAll => write_pair(held, other, out),
        Quantifier::NotExists => write_pair(other, held, out),
    }
}

fn write_pair<W: Write>(positive: u64, negative: u64, out: &mut W) -> io::Result<()>
    ensures { OnOk result (Appends (W.contents out.old) (W.contents out.new)
        (witness_text positive negative)) }
{
    write_count(positive, out)?;
    write_negative(negative, out)
}

#[tactic(auto, unfolding(crate::specs::Text::negative_text))]
fn write_negative<W: Write>(negative: u64, out: &mut W) -> io::Result<()>
    ensures { OnOk result (Appends (W.contents out.old) (W.contents out.new) (negative_text negative)) }
{
    let mut part = ArrayString::<64>::new();
    part.push_str(", Negative: ");
    push_decimal(&mut part, negative);
    part.push_str("\n");
    out.write_all(part.as_bytes())
}

#[tactic(auto, unfolding(crate::specs::Text::condition_line))]
fn write_condition_line<W: Write>(test: &LitmusTest, as_asked: bool, out: &mut W) -> io::Result<()>
    ensures { OnOk result (Appends (W.contents out.old) (W.contents out.new)
        (condition_line test.now as_asked)) }
{
    out.write_all(condition_begin(test.quantifier).as_bytes())?;
    write_condition(&test.condition, test, out)?;
    out.write_all(validated(as_asked).as_bytes())
}

fn condition_begin(quantifier: Quantifier) -> &'static str
    ensures { result.now ≡ condition_begin quantifier }
{
    match quantifier {
        Quantifier::Exists => "Condition exists (",
        Quantifier::NotExists => "Condition ~exists (",
        Quantifier::ForAll => "Condition forall (",
    }
}

fn validated(as_asked: bool) -> &'static str
    ensures { result.now ≡ validated as_asked }
{
    match as_asked {
        true => ") is validated\nObservation ",
        false => ") is NOT validated\nObservation ",
    }
}

#[tactic(auto, unfolding(crate::specs::Text::observation_text))]
fn write_observation<W: Write>(
    test: &LitmusTest,
    held: u64,
    other: u64,
    out: &mut W,
) -> io::Result<()>
    ensures { OnOk result (Appends (W.contents out.old) (W.contents out.new)
        (observation_text test.now held other)) }
{
    write_shown(test.name.as_slice(), out)?;
    out.write_all(often(held, other).as_bytes())?;
    write_count(held, out)?;
    out.write_all(b" ")?;
    write_count(other, out)?;
    out.write_all(b"\n")
}

/// How often the condition holds, in a word.
#[tactic(auto, unfolding(crate::specs::Text::often))]
fn often(held: u64, other: u64) -> &'static str
    ensures { result.now ≡ often held other }
{
    if held == 0 {
        return " Never ";
    }
    if other == 0 {
        " Always "
    } else {
        " Sometimes "
    }
}

/// Writes how many runs the filter leaves out, and how many haven't ended, where there are some.
#[tactic(auto, unfolding(crate::specs::Text::rest_text))]
fn write_rest<W: Write>(left_out: u64, not_ended: u64, out: &mut W) -> io::Result<()>
    ensures { OnOk result (Appends (W.contents out.old) (W.contents out.new)
        (rest_text left_out not_ended)) }
{
    write_runs("Left out by the filter: ", left_out, out)?;
    write_runs("Not ended: ", not_ended, out)
}

/// Writes a line of so many runs, where there are some.
fn write_runs<W: Write>(what: &'static str, runs: u64, out: &mut W) -> io::Result<()>
    ensures { OnOk result (Appends (W.contents out.old) (W.contents out.new)
        (runs_line what.now runs)) }
{
    if runs == 0 {
        return Ok(());
    }
    out.write_all(what.as_bytes())?;
    write_count(runs, out)?;
    out.write_all(b"\n")
}
