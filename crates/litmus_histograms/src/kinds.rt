//! How the end of a run stands to the test.

ghost use Rattle.std.specs.Prelude.{◌≡◌, ◌&&◌, not};
ghost use Rattle.std.specs.List.{list_any};
ghost use Rattle.litmus_tests.specs.WellFormed.{IsWellFormed};
ghost use Rattle.smt_model.specs.Plain.{is_going_status};
ghost use Rattle.litmus_histograms.specs.Kinds.{is_kind, is_over};

use litmus_images::{holds_in, passes};
use litmus_tests::LitmusTest;
use smt_model::Status;
use watched_outcomes::Outcome;

/// How the end of a run stands to the test.
#[derive(Clone, Copy, Drop)]
pub enum RunKind {
    /// It is a final state of the test, and the condition holds of it.
    Held,
    /// It is a final state of which the condition doesn't hold.
    Other,
    /// The test's filter doesn't hold of it.
    LeftOut,
    /// A hart is still going.
    NotEnded,
}

/// Whether the end of a run is of this kind.
pub(crate) fn is_kind(test: &LitmusTest, kind: RunKind, end: &Outcome) -> bool
    requires { IsWellFormed test.now }
    ensures { result ≡ is_kind test.now kind end.now }
{
    match kind {
        RunKind::Held => is_over(end) && (passes(test, end) && holds_in(test, end)),
        RunKind::Other => is_over(end) && (passes(test, end) && !holds_in(test, end)),
        RunKind::LeftOut => is_over(end) && !passes(test, end),
        RunKind::NotEnded => !is_over(end),
    }
}

/// Whether no hart is going any more.
fn is_over(end: &Outcome) -> bool
    ensures { result ≡ is_over end.now }
{
    !any_going(end.statuses.as_slice())
}

fn any_going(statuses: &[Status]) -> bool
    ensures { result ≡ list_any is_going_status statuses.now }
{
    statuses.iter().any(|status| is_going(*status))
}

fn is_going(status: Status) -> bool
    ensures { result ≡ is_going_status status }
{
    match status {
        Status::Going => true,
        Status::Ended(_) | Status::Stopped(_) => false,
    }
}
