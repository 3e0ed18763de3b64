//! The columns of a chart, and what is drawn in them.

ghost use Rattle.std.specs.Prelude.{◌≡◌, ◌≤◌, [], All, Decides, IfOk, count_by, length, map, nat_le, nat_lt, option_map};
ghost use Rattle.numbers.specs.Sizes.{most_events};
ghost use Rattle.chart_columns.specs.Rounds.{AreColumns};
ghost use Rattle.chart_columns.specs.Tables.{
  IsTable,
  KeepsApart,
  column,
  head,
  last,
  placed,
  placed_squash,
  placed_view,
};

use crate::rounds::round_columns;
use chart_rows::{Row, Squash, View};
use events::Event;
use std::alloc::{AllocError, Global};
use std::marker::Model;

/// The column of each event of a history. The first is at 0, and behind a column comes the next one.
#[derive(Drop)]
pub struct ColumnTable {
    /// None where each event has a column of its own.
    columns: Option<Vec<u32>>,
}

impl Model for ColumnTable {
    ghost use Rattle.std.specs.Prelude.{ℕ, List};
    ghost use Rattle.chart_columns.specs.Tables.{IsTable, listed};

    ghost Value = { List ℕ };

    ghost view = { λ table. listed table.columns };

    ghost invariant = { λ table. IsTable (listed table.columns) };
}

impl ColumnTable {
    /// Each event in a column of its own.
    pub fn events() -> ColumnTable
        ensures { result ≡ [] }
    {
        ColumnTable { columns: None }
    }

    /// The longest run of events in one column, from the first event on, in which no actor comes twice and no row has
    /// two marks: under each event of its instruction, and under the one that squashed it. Errors: want of memory.
    pub fn rounds(rows: &[Row], events: &[Event], alloc: Global) -> Result<ColumnTable, AllocError>
        requires few { length events.now ≤ most_events }
        ensures columns { IfOk result (AreColumns rows.now events.now) }
        ensures apart { IfOk result (λ columns. All (KeepsApart columns) rows.now) }
    {
        let columns = round_columns(rows, events, alloc)?;
        Ok(ColumnTable {
            columns: Some(columns),
        })
    }

    /// Whether each event has a column of its own.
    pub fn are_events(&self) -> bool
        ensures { Decides result (self.now ≡ []) }
    {
        self.listed().is_empty()
    }

    /// The column of the event at a place; where there is no event, the place itself.
    pub fn column(&self, place: u32) -> u32
        ensures { result ≡ column self.now place }
    {
        match self.listed().get(place as usize) {
            Some(column) => *column,
            None => place,
        }
    }

    /// The place of the first event in a column.
    pub fn head(&self, column: u32) -> u32
        ensures { result ≡ head self.now column }
    {
        let columns = self.listed();
        if columns.is_empty() {
            return column;
        }
        count_lower(columns, column) as u32
    }

    /// The place of the last event in a column.
    pub fn last(&self, column: u32) -> u32
        ensures { result ≡ last self.now column }
    {
        let columns = self.listed();
        if columns.is_empty() {
            return column;
        }
        (count_reached(columns, column) as u32).saturating_sub(1)
    }

    /// The row with columns where the places of events were.
    pub fn place(&self, row: &Row) -> Row
        ensures { result ≡ placed self.now row.now }
    {
        let mut placed = *row;
        placed.fetched = self.column(row.fetched);
        placed.decoded = self.column_of(row.decoded);
        placed.renamed = self.column_of(row.renamed);
        placed.issued = self.column_of(row.issued);
        placed.completed = self.column_of(row.completed);
        placed.dropped = self.column_of(row.dropped);
        placed.retired = self.column_of(row.retired);
        placed.refetched = self.column_of(row.refetched);
        placed.squashed = self.squash(row.squashed);
        placed
    }

    /// The rows, each with columns where the places of events were. Errors: want of memory.
    pub fn place_all(&self, rows: &[Row], alloc: Global) -> Result<Vec<Row>, AllocError>
        ensures { IfOk result (λ all. all.items ≡ map (placed self.now) rows.now) }
    {
        let mut placed = Vec::with_capacity(alloc, rows.len())?;
        for row in rows {
            placed.push(self.place(row))?;
        }
        Ok(placed)
    }

    /// What is drawn, from the column of its first event to that of its last.
    pub fn view(&self, view: &View) -> View
        ensures { result ≡ placed_view self.now view.now }
    {
        if view.from > view.to {
            return *view;
        }
        View {
            from: self.column(view.from),
            to: self.column(view.to),
            hart: view.hart,
        }
    }

    fn listed(&self) -> &[u32]
        ensures same { result.now ≡ self.now }
        ensures table { IsTable self.now }
    {
        match &self.columns {
            Some(columns) => columns.as_slice(),
            None => &[],
        }
    }

    fn column_of(&self, place: Option<u32>) -> Option<u32>
        ensures { result ≡ option_map (column self.now) place }
    {
        match place {
            Some(place) => Some(self.column(place)),
            None => None,
        }
    }

    fn squash(&self, squash: Option<Squash>) -> Option<Squash>
        ensures { result ≡ option_map (placed_squash self.now) squash }
    {
        match squash {
            Some(squash) => Some(Squash {
                place: self.column(squash.place),
                ..squash
            }),
            None => None,
        }
    }
}

/// How many of these columns, which don't fall, are lower than one.
fn count_lower(columns: &[u32], column: u32) -> usize
    requires { IsTable columns.now }
    ensures { result ≡ count_by (λ other. nat_lt other column) columns.now }
{
    columns.partition_point(|other| *other < column)
}

/// How many of these columns, which don't fall, are one or lower.
fn count_reached(columns: &[u32], column: u32) -> usize
    requires { IsTable columns.now }
    ensures { result ≡ count_by (λ other. nat_le other column) columns.now }
{
    columns.partition_point(|other| *other <= column)
}
