//! What stands in which column of a chart.

ghost use Rattle.std.specs.Prelude.{◌≡◌, ◌≤◌, IfOk, IfErr, length, reverse};
ghost use Rattle.numbers.specs.Sizes.{most_events};
ghost use Rattle.chart_rows.specs.Order.{AreByFetch};
ghost use Rattle.chart_rows.specs.Rows.{AreRows};
ghost use Rattle.chart_columns.specs.Tables.{IsTable, placed_view};
ghost use Rattle.command_parts.specs.declared.refused.Refused.TheVariants.{Memory};
ghost use Rattle.core_commands.specs.Chart.{AreColumnsAs, IsSheetOf, rows_as};
ghost use Rattle.core_commands.specs.Drawing.{placed_or, sheet_of};

use crate::chart_ends::Drawn;
use chart_columns::ColumnTable;
use chart_rows::{Row, View};
use command_parts::Refused;
use sim_inputs::{ChartCommand, Columns};
use std::alloc::{AllocError, Global};

/// The columns of a chart, and what stands in them.
#[derive(Drop)]
pub(crate) struct Columned {
    pub columns: ColumnTable,
    /// The columns that are drawn.
    pub view: View,
    /// The rows, with columns where the places of events were; none where both are the same.
    placed: Option<Vec<Row>>,
}

/// What stands in which column, of a history of which the view shows some events.
pub(crate) fn by_columns(
    chart: &ChartCommand<'_>,
    drawn: &Drawn<'_>,
    view: &View,
    alloc: Global,
) -> Result<Columned, Refused>
    requires few { length drawn.now.events.now ≤ most_events }
    requires rows { AreRows (reverse drawn.now.events.now) drawn.now.rows.now }
    requires by_fetch { AreByFetch drawn.now.rows.now }
    ensures sheet { IfOk result
        (λ columned. IsSheetOf chart.now drawn.now view.now (sheet_of drawn.now columned)) }
    ensures by_fetch { IfOk result (λ columned. AreByFetch (sheet_of drawn.now columned).rows) }
    ensures refused { IfErr result (λ refused. refused ≡ Memory) }
{
    let columns = columns_of(chart.columns, drawn, alloc)?;
    let placed = match placed_rows(chart.columns, drawn, &columns, alloc) {
        Ok(placed) => placed,
        Err(refused) => return Err(refused),
    };
    let view = columns.view(view);
    Ok(Columned {
        columns,
        view,
        placed,
    })
}

/// The columns that are wanted.
fn columns_of(wanted: Columns, drawn: &Drawn<'_>, alloc: Global) -> Result<ColumnTable, Refused>
    requires few { length drawn.now.events.now ≤ most_events }
    ensures columns { IfOk result (AreColumnsAs wanted drawn.now) }
    ensures refused { IfErr result (λ refused. refused ≡ Memory) }
{
    match wanted {
        Columns::Events => Ok(ColumnTable::events()),
        Columns::Rounds => match ColumnTable::rounds(drawn.rows, drawn.events, alloc) {
            Ok(columns) => Ok(columns),
            Err(AllocError) => Err(Refused::Memory),
        },
    }
}

/// The rows with columns where the places of events were; none where both are the same.
fn placed_rows(
    wanted: Columns,
    drawn: &Drawn<'_>,
    columns: &ColumnTable,
    alloc: Global,
) -> Result<Option<Vec<Row>>, Refused>
    requires columns { AreColumnsAs wanted drawn.now columns.now }
    requires table { IsTable columns.now }
    requires rows { AreRows (reverse drawn.now.events.now) drawn.now.rows.now }
    requires by_fetch { AreByFetch drawn.now.rows.now }
    ensures rows { IfOk result
        (λ placed. placed_or drawn.now.rows.now placed ≡ rows_as wanted columns.now drawn.now.rows.now) }
    ensures by_fetch { IfOk result (λ placed. AreByFetch (placed_or drawn.now.rows.now placed)) }
    ensures refused { IfErr result (λ refused. refused ≡ Memory) }
{
    match wanted {
        Columns::Events => Ok(None),
        Columns::Rounds => match columns.place_all(drawn.rows, alloc) {
            Ok(placed) => Ok(Some(placed)),
            Err(AllocError) => Err(Refused::Memory),
        },
    }
}

impl Columned {
    /// The rows of the history, with columns where the places of events were.
    pub(crate) fn rows<'a>(&'a self, drawn: &Drawn<'a>) -> &'a [Row]
        ensures { result.now ≡ placed_or drawn.now.rows.now self.now.placed }
    {
        match &self.placed {
            Some(placed) => placed.as_slice(),
            None => drawn.rows,
        }
    }
}
