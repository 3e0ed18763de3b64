//! How far back a round may begin with each event, for the rows that have marks of both.

ghost use Rattle.std.specs.Prelude.{◌≡◌, ◌==◌, ◌∷◌, [], ◌<◌, ℕ, length, max, slice_index_or, if◌then◌else◌};
ghost use Rattle.chart_columns.specs.Rounds.{marks};
ghost use Rattle.chart_columns.specs.Limits.{AreRaised, AreRaisedBy};

use crate::marks::{behind_marks, marks_of};
use chart_rows::Row;

/// Enters the marks of all rows into a table with a limit for each event: a round that goes on with the event begins
/// nowhere before its limit.
pub(crate) fn enter_rows(limits: &mut [u32], rows: &[Row])
    ensures { AreRaised rows.now limits.old limits.new }
{
    for index in 0..rows.len() {
        let marks = marks_of(&rows[index]);
        enter_marks(limits, &marks);
    }
}

/// Enters the marks of a row.
fn enter_marks(limits: &mut [u32], marks: &[Option<u32>])
    ensures { AreRaisedBy marks.now marks.now limits.old limits.new }
{
    for index in 0..marks.len() {
        enter_mark(limits, marks[index], marks);
    }
}

/// Enters one of the marks of a row.
fn enter_mark(limits: &mut [u32], mark: Option<u32>, marks: &[Option<u32>])
    ensures { AreRaisedBy (mark ∷ []) marks.now limits.old limits.new }
{
    if let Some(place) = mark {
        raise(limits, place, behind_marks(marks, place));
    }
}

/// Raises the limit of the event at a place to this one, where it is lower.
fn raise(limits: &mut [u32], place: u32, limit: u32)
    ensures count { length limits.new ≡ length limits.old }
    ensures each { (k d : ℕ) → k < length limits.old → slice_index_or limits.new k d
        ≡ (if k == place then max (slice_index_or limits.old k d) limit else slice_index_or limits.old k d) }
{
    let index = place as usize;
    if index < limits.len() {
        limits[index] = limits[index].max(limit);
    }
}
