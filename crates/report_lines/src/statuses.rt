//! The exit status of a report.

ghost use Rattle.std.specs.Prelude.{◌≡◌, IsTrue};
ghost use Rattle.std.specs.List.{list_any, list_all};
ghost use Rattle.smt_model.specs.Plain.{is_going_status};
ghost use Rattle.report_lines.specs.Lines.{has_ended_well, status_number};
ghost use Rattle.report_lines.specs.Statuses.{says_harts};

use smt_model::Status;

/// The exit status that says how the harts stand: 3 where one is going, 0 where every one has ended
/// with 0, else 1.
pub fn status_of(statuses: &[Status]) -> u8
    ensures status { result ≡ status_number statuses.now }
    ensures harts { IsTrue (says_harts result) }
{
    if is_one_going(statuses) {
        3
    } else if have_all_ended_well(statuses) {
        0
    } else {
        1
    }
}

fn is_one_going(statuses: &[Status]) -> bool
    ensures { result ≡ list_any is_going_status statuses.now }
{
    statuses.iter().any(|status| status.is_going())
}

fn have_all_ended_well(statuses: &[Status]) -> bool
    ensures { result ≡ list_all has_ended_well statuses.now }
{
    statuses.iter().all(|status| has_ended_well(*status))
}

fn has_ended_well(status: Status) -> bool
    ensures { result ≡ has_ended_well status }
{
    match status {
        Status::Ended(number) => number == 0,
        Status::Going | Status::Stopped(_) => false,
    }
}
