//! Where a row has letters.

ghost use Rattle.std.specs.Prelude.{◌≡◌, max};
ghost use Rattle.chart_columns.specs.Rounds.{marks};
ghost use Rattle.chart_columns.specs.Limits.{AreBehind, IsBehind};

use chart_rows::Row;

/// How many marks a row may have: one of each kind of event, and that of what squashed it.
pub(crate) const MOST_MARKS: usize = 9;

/// Where a row has a mark: under each of its instruction's events, and under the one that squashed it.
pub(crate) fn marks_of(row: &Row) -> [Option<u32>; MOST_MARKS]
    ensures { result ≡ marks row.now }
{
    let squashed = match row.squashed {
        Some(squash) => Some(squash.place),
        None => None,
    };
    [
        Some(row.fetched),
        row.decoded,
        row.renamed,
        row.issued,
        row.completed,
        row.dropped,
        row.retired,
        row.refetched,
        squashed,
    ]
}

/// One more than the place of the last of these marks before a place; 0 where there is none.
pub(crate) fn behind_marks(marks: &[Option<u32>], place: u32) -> u32
    ensures { AreBehind place marks.now result }
{
    let mut latest = 0;
    for index in 0..marks.len() {
        latest = greater(latest, behind(marks[index], place));
    }
    latest
}

/// One more than the place of a mark, where it is before this place; else 0.
fn behind(mark: Option<u32>, place: u32) -> u32
    ensures { IsBehind place mark result }
{
    match mark {
        Some(at) if at < place => at + 1,
        _ => 0,
    }
}

fn greater(one: u32, other: u32) -> u32
    ensures { result ≡ max one other }
{
    one.max(other)
}
