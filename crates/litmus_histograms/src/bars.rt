//! The line of a state: how many runs have ended so, whether the condition holds of it, and what it is.

ghost use Rattle.std.specs.Prelude.{◌≡◌, ◌≤◌, ◌<◌, ◌^◌, OnOk, length, replicate};
ghost use Rattle.std.specs.Io.KnownBytes.{Appends};
ghost use Rattle.litmus_tests.specs.WellFormed.{IsWellFormed};
ghost use Rattle.litmus_histograms.specs.Counting.{in_rows};
ghost use Rattle.litmus_histograms.specs.Text.{bar_of, bar_text, count_field, has_bar_of, sign_of};

use crate::counting::runs_of_state;
use arrayvec::ArrayString;
use litmus_images::{holds_in, passes};
use litmus_tests::LitmusTest;
use litmus_text::write_state;
use std::io;
use std::io::Write;
use stress_runs::Row;
use text_fields::push_decimal;
use watched_outcomes::Outcome;

/// How many characters a count has at the least.
const COUNT_WIDTH: usize = 6;

static BLANKS: [u8; COUNT_WIDTH] = [b' '; COUNT_WIDTH];

/// Whether a state has a line: it is a final state of the test, and runs have come to it.
pub(crate) fn has_bar(test: &LitmusTest, outcome: &Outcome, rows: &[Row]) -> bool
    requires sound { IsWellFormed test.now }
    requires few { length rows.now < 2 ^ 32 }
    ensures { result ≡ has_bar_of test.now (in_rows rows.now) outcome.now }
{
    passes(test, outcome) && runs_of_state(outcome, rows) > 0
}

/// Writes the line of a state, if it has one.
pub(crate) fn write_bar<W: Write>(
    test: &LitmusTest,
    outcome: &Outcome,
    rows: &[Row],
    out: &mut W,
) -> io::Result<()>
    requires sound { IsWellFormed test.now }
    requires few { length rows.now < 2 ^ 32 }
    ensures { OnOk result (Appends (W.contents out.old) (W.contents out.new)
        (bar_of test.now (in_rows rows.now) outcome.now)) }
{
    if !has_bar(test, outcome, rows) {
        return Ok(());
    }
    write_counted(test, outcome, runs_of_state(outcome, rows), out)
}

/// Writes how many runs have come to a state, and the state.
#[tactic(auto, unfolding(crate::specs::Text::bar_text))]
fn write_counted<W: Write>(
    test: &LitmusTest,
    outcome: &Outcome,
    runs: u64,
    out: &mut W,
) -> io::Result<()>
    requires { IsWellFormed test.now }
    ensures { OnOk result (Appends (W.contents out.old) (W.contents out.new)
        (bar_text test.now runs outcome.now)) }
{
    write_count_field(runs, out)?;
    out.write_all(sign_of(holds_in(test, outcome)).as_bytes())?;
    write_state(test, outcome, out)
}

/// Writes a count, with blanks behind it up to where the sign stands.
fn write_count_field<W: Write>(count: u64, out: &mut W) -> io::Result<()>
    ensures { OnOk result (Appends (W.contents out.old) (W.contents out.new) (count_field count)) }
{
    let mut digits = ArrayString::<24>::new();
    push_decimal(&mut digits, count);
    let bytes = digits.as_bytes();
    out.write_all(bytes)?;
    write_blanks(COUNT_WIDTH.saturating_sub(bytes.len()), out)
}

/// Writes blanks, `COUNT_WIDTH` at the most.
fn write_blanks<W: Write>(count: usize, out: &mut W) -> io::Result<()>
    requires { count ≤ 6 }
    ensures { OnOk result (Appends (W.contents out.old) (W.contents out.new) (replicate count 32)) }
{
    out.write_all(&BLANKS[..count])
}

/// What stands before a state: of which the condition holds, or doesn't.
fn sign_of(is_held: bool) -> &'static str
    ensures { result.now ≡ sign_of is_held }
{
    if is_held { "*>" } else { ":>" }
}
