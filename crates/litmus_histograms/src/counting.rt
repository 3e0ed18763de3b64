//! How many runs there are of a kind, and how many have come to a state.

ghost use Rattle.std.specs.Prelude.{◌≡◌, ◌<◌, ◌≤◌, ◌^◌, length, if◌then◌else◌};
ghost use Rattle.litmus_tests.specs.WellFormed.{IsWellFormed};
ghost use Rattle.stress_runs.specs.Ends.{same_end};
ghost use Rattle.watched_outcomes.specs.Endings.{Ending};
ghost use Rattle.litmus_histograms.specs.Counting.{in_rows};
ghost use Rattle.litmus_histograms.specs.Kinds.{is_kind};

use crate::kinds::{RunKind, is_kind};
use litmus_tests::LitmusTest;
use stress_runs::Row;
use watched_outcomes::Outcome;

/// How many of the runs with these ends are of a kind.
pub fn runs_of_kind(test: &LitmusTest, kind: RunKind, rows: &[Row]) -> u64
    requires sound { IsWellFormed test.now }
    requires few { length rows.now < 2 ^ 32 }
    ensures { result ≡ in_rows rows.now (is_kind test.now kind) }
{
    let mut runs = 0;
    for row in rows {
        runs += count_if(is_kind(test, kind, &row.end), row.count);
    }
    runs
}

/// How many of the runs with these ends have ended as an outcome says.
pub(crate) fn runs_of_state(outcome: &Outcome, rows: &[Row]) -> u64
    requires { length rows.now < 2 ^ 32 }
    ensures { result ≡ in_rows rows.now (λ end. same_end end outcome.now) }
{
    let mut runs = 0;
    for row in rows {
        runs += count_if(is_one_end(&row.end, outcome), row.count);
    }
    runs
}

fn count_if(is_counted: bool, count: u32) -> u64
    ensures value { result ≡ (if is_counted then count else 0) }
    ensures small { result < 2 ^ 32 }
{
    if is_counted { u64::from(count) } else { 0 }
}

fn is_one_end(one: &Outcome, other: &Outcome) -> bool
    ensures { result ≡ same_end one.now other.now }
{
    one.is_same(other)
}
