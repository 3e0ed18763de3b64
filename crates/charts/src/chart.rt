//! What a picture and a log are made of.

use address_labels::Labels;
use chart_columns::ColumnTable;
use chart_rows::{Row, View};
use events::Event;

/// A chart of a history: the rows of its instructions by rising number, and where they stand.
#[derive(Clone, Copy, Drop)]
pub struct Chart<'a> {
    /// The rows, with the places of events.
    pub rows: &'a [Row],
    /// The same rows, with columns where the places of events are (`ColumnTable::place`).
    pub placed: &'a [Row],
    pub events: &'a [Event],
    pub columns: &'a ColumnTable,
    /// The columns that are drawn, and whose instructions are (`ColumnTable::view`).
    pub view: View,
    /// What is wanted beside the pc of a row.
    pub labels: Labels<'a>,
}
