//! The whole histogram.

ghost use Rattle.std.specs.Prelude.{◌≡◌, ◌≤◌, ◌<◌, ◌^◌, OnOk, Some, count_by, flat_map, length, slice_get};
ghost use Rattle.std.specs.Io.KnownBytes.{Appends};
ghost use Rattle.litmus_tests.specs.WellFormed.{IsWellFormed};
ghost use Rattle.outcomes.specs.Found.{Told};
ghost use Rattle.litmus_histograms.specs.Counting.{in_rows};
ghost use Rattle.litmus_histograms.specs.Text.{bar_for, has_bar_for, histogram_text};

use crate::bars::{has_bar, write_bar};
use crate::counting::runs_of_kind;
use crate::kinds::RunKind;
use crate::summary::{Totals, write_head, write_summary};
use litmus_tests::LitmusTest;
use outcomes::Outcomes;
use std::io;
use std::io::Write;
use stress_runs::Row;

/// Writes the histogram of runs of a test: a line for each of its final states, which are the outcomes of its image of
/// which its filter holds, to which runs have come; whether the runs are as the test asks, of how many its condition
/// holds, and the condition; and how many runs aren't told of. `rows` has the ends of the runs. Where it answers Ok, it
/// has written exactly these lines.
#[tactic(auto, unfolding(crate::specs::Text::histogram_text))]
pub fn write_histogram<W: Write>(
    test: &LitmusTest,
    outcomes: &Outcomes,
    rows: &[Row],
    out: &mut W,
) -> io::Result<()>
    requires sound { IsWellFormed test.now }
    requires few { length rows.now < 2 ^ 32 }
    ensures { OnOk result (Appends (W.contents out.old) (W.contents out.new)
        (histogram_text test.now (in_rows rows.now) outcomes.now.listed)) }
{
    let states = states_of(test, outcomes, rows);
    let totals = Totals {
        held: runs_of_kind(test, RunKind::Held, rows),
        other: runs_of_kind(test, RunKind::Other, rows),
        left_out: runs_of_kind(test, RunKind::LeftOut, rows),
        not_ended: runs_of_kind(test, RunKind::NotEnded, rows),
    };
    write_head(test, states as u64, out)?;
    write_bars(test, outcomes, rows, out)?;
    write_summary(test, totals, out)
}

/// To how many final states runs have come.
fn states_of(test: &LitmusTest, outcomes: &Outcomes, rows: &[Row]) -> usize
    requires sound { IsWellFormed test.now }
    requires few { length rows.now < 2 ^ 32 }
    ensures { result ≡ count_by (has_bar_for test.now (in_rows rows.now)) outcomes.now.listed }
{
    let mut states = 0;
    for index in 0..outcomes.count() {
        states += usize::from(has_bar_at(test, outcomes, rows, index));
    }
    states
}

/// Whether the outcome with this index has a line.
fn has_bar_at(test: &LitmusTest, outcomes: &Outcomes, rows: &[Row], index: usize) -> bool
    requires sound { IsWellFormed test.now }
    requires few { length rows.now < 2 ^ 32 }
    requires within { index < length outcomes.now.listed }
    ensures { (told : Told) → slice_get outcomes.now.listed index ≡ Some told
        → result ≡ has_bar_for test.now (in_rows rows.now) told }
{
    match outcomes.outcome(index) {
        Some(outcome) => has_bar(test, outcome, rows),
        None => false,
    }
}

fn write_bars<W: Write>(
    test: &LitmusTest,
    outcomes: &Outcomes,
    rows: &[Row],
    out: &mut W,
) -> io::Result<()>
    requires sound { IsWellFormed test.now }
    requires few { length rows.now < 2 ^ 32 }
    ensures { OnOk result (Appends (W.contents out.old) (W.contents out.new)
        (flat_map (bar_for test.now (in_rows rows.now)) outcomes.now.listed)) }
{
    for index in 0..outcomes.count() {
        write_bar_at(test, outcomes, rows, index, out)?;
    }
    Ok(())
}

/// Writes the line of the outcome with this index, if it has one.
fn write_bar_at<W: Write>(
    test: &LitmusTest,
    outcomes: &Outcomes,
    rows: &[Row],
    index: usize,
    out: &mut W,
) -> io::Result<()>
    requires sound { IsWellFormed test.now }
    requires few { length rows.now < 2 ^ 32 }
    requires within { index < length outcomes.now.listed }
    ensures { OnOk result ((told : Told) → slice_get outcomes.now.listed index ≡ Some told
        → Appends (W.contents out.old) (W.contents out.new) (bar_for test.now (in_rows rows.now) told)) }
{
    match outcomes.outcome(index) {
        Some(outcome) => write_bar(test, outcome, rows, out),
        None => Ok(()),
    }
}
