//! A chart as it is drawn: what stands in which column, and the text, the picture and the log that are made of it.

ghost use Rattle.std.specs.Prelude.{◌≡◌, ◌≤◌, None, false, is_some, IfOk, IfErr, IfSome, IfNone, length, reverse};
ghost use Rattle.numbers.specs.Sizes.{most_events};
ghost use Rattle.chart_rows.specs.Order.{AreByFetch};
ghost use Rattle.chart_rows.specs.Rows.{AreRows};
ghost use Rattle.sim_inputs.specs.Files.{written_beside_chart, written_chart};
ghost use Rattle.charts.specs.Text.{chart_text};
ghost use Rattle.command_parts.specs.declared.refused.Refused.TheVariants.{Memory};
ghost use Rattle.core_commands.specs.Check.{AreHistory};
ghost use Rattle.core_commands.specs.Chart.{BetweenEnds, Fits, IsDrawingRefusal, IsTextOf, IsTooLarge};
ghost use Rattle.core_commands.specs.Drawing.{drawing_with, setup_in, sheet_of};
ghost use Rattle.symbols.specs.Tables.{table_of};
ghost use Rattle.address_labels.specs.Labels.{marks_of, marks_where};

use crate::chart_columned::{Columned, by_columns};
use crate::chart_ends::{Drawn, ends_of};
use crate::chart_told::{Told, Traced, tell_beside};
use address_labels::Labels;
use chart_rows::View;
use charts::{Chart, PictureForm, TextChart, last_pictured, write_kanata, write_svg, write_text};
use command_parts::Refused;
use sim_inputs::ChartCommand;
use std::alloc::Global;
use story_pictures::Theme;

/// What a chart comes to.
#[derive(Drop)]
pub(crate) struct Made {
    /// Its text, or what goes into its file.
    pub text: Vec<u8>,
    /// What goes into the second file of one that is two.
    pub beside: Option<Vec<u8>>,
}

/// What a chart of the history of a trace comes to.
pub(crate) fn made_of(
    traced: &Traced<'_>,
    drawn: &Drawn<'_>,
    chart: &ChartCommand<'_>,
    alloc: Global,
) -> Result<Made, Refused>
    requires few { length drawn.now.events.now ≤ most_events }
    requires rows { AreRows (reverse drawn.now.events.now) drawn.now.rows.now }
    requires by_fetch { AreByFetch drawn.now.rows.now }
    requires events { drawn.now.events.now ≡ traced.now.trace.now.events }
    requires history { AreHistory (setup_in traced.now) traced.now.trace.now.events }
    ensures text { IfOk result (λ made. BetweenEnds chart.now drawn.now
        (IsTextOf chart.now (setup_in traced.now) drawn.now made.text.items)) }
    ensures beside { IfOk result (λ made. is_some made.beside ≡ is_some (written_beside_chart chart.now)) }
    ensures refused { IfErr result (IsDrawingRefusal chart.now drawn.now) }
{
    let (from, to) = ends_of(chart, drawn)?;
    let view = View::new(from, to, drawn.hart, drawn.events.len());
    let columned = by_columns(chart, drawn, &view, alloc)?;
    if let Some(last) = too_large(drawn, &columned, chart) {
        return Err(Refused::Picture(last));
    }
    let told = tell_beside(traced, &columned, chart, alloc)?;
    let made = draw(drawn, &columned, &told, chart, alloc)?;
    Ok(made)
}

/// The last event to which a picture may be drawn, where one is wanted and would be too large.
fn too_large(drawn: &Drawn<'_>, columned: &Columned, chart: &ChartCommand<'_>) -> Option<u32>
    ensures some { IfSome result (IsTooLarge chart.now (sheet_of drawn.now columned.now)) }
    ensures none { IfNone result (Fits chart.now (sheet_of drawn.now columned.now)) }
{
    if chart.svg.is_none() {
        return None;
    }
    match last_pictured(columned.rows(drawn), &columned.view) {
        Some(column) => Some(columned.columns.last(column)),
        None => None,
    }
}

/// All that is drawn of a chart.
fn draw(
    drawn: &Drawn<'_>,
    columned: &Columned,
    told: &Told,
    chart: &ChartCommand<'_>,
    alloc: Global,
) -> Result<Made, Refused>
    requires by_fetch { AreByFetch (sheet_of drawn.now columned.now).rows }
    ensures text { IfOk result (λ made. is_some (written_chart chart.now) ≡ false
        → made.text.items ≡ chart_text (drawing_with chart.now drawn.now columned.now told.now)) }
    ensures beside { IfOk result (λ made. is_some made.beside ≡ is_some (written_beside_chart chart.now)) }
    ensures refused { IfErr result (λ refused. refused ≡ Memory) }
{
    let text = first_text(drawn, columned, told, chart, alloc)?;
    let beside = second_text(drawn, columned, chart, alloc)?;
    Ok(Made { text, beside })
}

/// The text of a chart, or what goes into its file: a picture, or else a log.
fn first_text(
    drawn: &Drawn<'_>,
    columned: &Columned,
    told: &Told,
    chart: &ChartCommand<'_>,
    alloc: Global,
) -> Result<Vec<u8>, Refused>
    requires by_fetch { AreByFetch (sheet_of drawn.now columned.now).rows }
    ensures text { IfOk result (λ text. is_some (written_chart chart.now) ≡ false
        → text.items ≡ chart_text (drawing_with chart.now drawn.now columned.now told.now)) }
    ensures refused { IfErr result (λ refused. refused ≡ Memory) }
{
    if chart.svg.is_some() {
        return picture_of(drawn, columned, told, chart, alloc);
    }
    if chart.kanata.is_some() {
        return log_of(drawn, columned, chart, alloc);
    }
    text_of(drawn, columned, told, chart, alloc)
}

/// What goes into the second file, where there are two: the log.
fn second_text(
    drawn: &Drawn<'_>,
    columned: &Columned,
    chart: &ChartCommand<'_>,
    alloc: Global,
) -> Result<Option<Vec<u8>>, Refused>
    ensures beside { IfOk result (λ beside. is_some beside ≡ is_some (written_beside_chart chart.now)) }
    ensures refused { IfErr result (λ refused. refused ≡ Memory) }
{
    if chart.written_beside().is_none() {
        return Ok(None);
    }
    match log_of(drawn, columned, chart, alloc) {
        Ok(log) => Ok(Some(log)),
        Err(refused) => Err(refused),
    }
}

/// The text of a chart.
fn text_of<'a>(
    drawn: &Drawn<'a>,
    columned: &'a Columned,
    told: &'a Told,
    chart: &ChartCommand<'_>,
    alloc: Global,
) -> Result<Vec<u8>, Refused>
    requires by_fetch { AreByFetch (sheet_of drawn.now columned.now).rows }
    ensures text { IfOk result
        (λ text. text.items ≡ chart_text (drawing_with chart.now drawn.now columned.now told.now)) }
    ensures refused { IfErr result (λ refused. refused ≡ Memory) }
{
    let drawing = TextChart {
        rows: columned.rows(drawn),
        events: drawn.events,
        columns: &columned.columns,
        view: columned.view,
        width: chart.width,
        harts: told.harts,
        labels: labels_of(chart, drawn),
        counters: told.counters.as_slice(),
        registers: told.registers.as_slice(),
    };
    let mut text = Vec::new(alloc);
    match write_text(&drawing, &mut text) {
        Ok(()) => Ok(text),
        Err(_) => Err(Refused::Memory),
    }
}

/// The picture of a chart.
fn picture_of<'a>(
    drawn: &Drawn<'_>,
    columned: &Columned,
    told: &'a Told,
    chart: &ChartCommand<'a>,
    alloc: Global,
) -> Result<Vec<u8>, Refused>
    ensures refused { IfErr result (λ refused. refused ≡ Memory) }
{
    let form = PictureForm {
        width: chart.width,
        harts: told.harts,
        title: match chart.title {
            Some(title) => Some(title.as_bytes()),
            None => None,
        },
        image: chart.image.as_bytes(),
        trace: chart.trace.as_bytes(),
        theme: theme_of(chart.theme),
        counters: told.counters.as_slice(),
        registers: told.registers.as_slice(),
    };
    let mut text = Vec::new(alloc);
    match write_svg(&drawing_of(drawn, columned, chart), &form, &mut text) {
        Ok(()) => Ok(text),
        Err(_) => Err(Refused::Memory),
    }
}

/// The log of a chart for Konata.
fn log_of(
    drawn: &Drawn<'_>,
    columned: &Columned,
    chart: &ChartCommand<'_>,
    alloc: Global,
) -> Result<Vec<u8>, Refused>
    ensures refused { IfErr result (λ refused. refused ≡ Memory) }
{
    let mut text = Vec::new(alloc);
    match write_kanata(&drawing_of(drawn, columned, chart), &mut text, alloc) {
        Ok(()) => Ok(text),
        Err(_) => Err(Refused::Memory),
    }
}

/// What a picture or a log is made of.
fn drawing_of<'a>(
    drawn: &Drawn<'a>,
    columned: &'a Columned,
    chart: &ChartCommand<'_>,
) -> Chart<'a> {
    Chart {
        rows: drawn.rows,
        placed: columned.rows(drawn),
        events: drawn.events,
        columns: &columned.columns,
        view: columned.view,
        labels: labels_of(chart, drawn),
    }
}

/// The colours of a picture.
fn theme_of(theme: Option<Theme>) -> charts::Theme {
    match theme {
        Some(Theme::Light) => charts::Theme::Light,
        Some(Theme::Dark) => charts::Theme::Dark,
        _ => charts::Theme::Automatic,
    }
}

/// What is wanted beside the pcs of a chart.
fn labels_of<'a>(chart: &ChartCommand<'_>, drawn: &Drawn<'a>) -> Labels<'a>
    ensures { marks_of result ≡ marks_where chart.now.names (table_of drawn.now.names.now) None }
{
    let names = if chart.names { Some(drawn.names) } else { None };
    Labels { names, lines: None }
}
