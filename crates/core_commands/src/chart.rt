//! The command `chart`: the pipeline of a trace, drawn.

ghost use Rattle.std.specs.Prelude.{◌≡◌, ◌≤◌, [], IfOk, IfErr, OnOk, if◌then◌else◌, is_some, length, reverse, true, false};
ghost use Rattle.numbers.specs.Sizes.{most_events};
ghost use Rattle.sim_inputs.specs.Files.{written_chart};
ghost use Rattle.chart_rows.specs.Rows.{AreRows};
ghost use Rattle.chart_rows.specs.Order.{AreByFetch};
ghost use Rattle.std.specs.Io.KnownBytes.{Appends};
ghost use Rattle.command_parts.specs.declared.refused.Refused.TheVariants.{Output};
ghost use Rattle.core_commands.specs.Check.{IsHistoryRefusal, AreHistory, setup_by};
ghost use Rattle.event_text.specs.Sinking.{HasPut};
ghost use Rattle.core_commands.specs.Drawing.{texts_with};
ghost use Rattle.core_commands.specs.Chart.{IsChartRefusal, IsHartRefusal, ChartComesTo, hart_fits};
ghost use Rattle.symbols.specs.Tables.{table_of};

use crate::chart_ends::Drawn;
use crate::chart_told::Traced;
use crate::check::{config_by, follow_all, read_events};
use crate::drawing::{Made, made_of};
use chart_rows::{Row, rows_of};
use command_parts::{Context, Refused, put_text, put_two_texts};
use elf_image::Image;
use event_text::Trace;
use sim_inputs::{ChartCommand, Settings};
use std::alloc::{AllocError, Global};
use std::io::Write;
use stress_runs::EndFiles;
use symbols::Symbols;

/// Checks a trace as `perform_check` does, and draws its history: as text on `out`, or as a picture or a log into
/// `files`, or both into two of them. Answers the exit status, 0.
///
/// Refused are, in this order, what `perform_check` refuses, a hart that the core hasn't, a name in the program of
/// which nothing is drawn, and a picture of too many instructions; then nothing is written. So it is where there isn't
/// enough memory: the whole chart is made before any of it is written. `Output` is answered where `out` or `files`
/// failed.
#[inline(never)]
pub fn perform_chart<R, G, P, S: EndFiles, W: Write>(
    context: &mut Context<'_, R, G, P, S, W>,
    image: &Image,
    settings: &Settings,
    trace: &[u8],
    chart: &ChartCommand<'_>,
    names: &Symbols<'_>,
) -> Result<u8, Refused>
    requires works { S.has_failed context.old.files ≡ false }
    requires finished { S.is_finished context.old.files ≡ true }
    ensures refused { IfErr result (IsChartRefusal settings.now image.now trace.now chart.now (table_of names.now)) }
    ensures ended { IfOk result (ChartComesTo settings.now image.now trace.now chart.now (table_of names.now)
        (W.contents context.old.out) (W.contents context.new.out)) }
    ensures unwanted { is_some (written_chart chart.now) ≡ false → context.new.files ≡ context.old.files }
    ensures unbroken { OnOk result (S.has_failed context.new.files ≡ false) }
    ensures finished { OnOk result (S.is_finished context.new.files ≡ true) }
    ensures unreported { S.has_failed context.new.files ≡ true
        → W.contents context.new.out ≡ W.contents context.old.out }
{
    let alloc = context.alloc;
    let trace = read_events(trace, alloc)?;
    let rows = history_rows(image, settings, &trace, alloc)?;
    let harts = config_by(settings, trace.head()).harts;
    let drawn = Drawn {
        rows: rows.as_slice(),
        events: trace.events(),
        hart: hart_in(chart.hart, harts)?,
        names,
    };
    // Handed on as it is: a `?` would leave the prover to find what the refusal becomes.
    let traced = Traced {
        image,
        settings,
        trace: &trace,
    };
    let made = match made_of(&traced, &drawn, chart, alloc) {
        Ok(made) => made,
        Err(refused) => return Err(refused),
    };
    put_chart(&made, chart, &mut context.files, &mut context.out)
}

/// The rows of the history of a trace, in the core that it is of.
fn history_rows(
    image: &Image,
    settings: &Settings,
    trace: &Trace,
    alloc: Global,
) -> Result<Vec<Row>, Refused>
    ensures history { OnOk result
        (AreHistory (setup_by settings.now image.now trace.now.head) trace.now.events) }
    ensures few { OnOk result (length trace.now.events ≤ most_events) }
    ensures rows { IfOk result (λ rows. AreRows (reverse trace.now.events) rows.items) }
    ensures by_fetch { IfOk result (λ rows. AreByFetch rows.items) }
    ensures refused { IfErr result
        (IsHistoryRefusal (setup_by settings.now image.now trace.now.head) trace.now.events) }
{
    follow_all(image, settings, trace, alloc)?;
    match rows_of(trace.events(), alloc) {
        Ok(rows) => Ok(rows),
        Err(AllocError) => Err(Refused::Memory),
    }
}

/// The hart that is to be drawn, of a core of so many; all of them, where none is named.
fn hart_in(hart: Option<u32>, harts: u8) -> Result<Option<u8>, Refused>
    ensures there { OnOk result (hart_fits harts hart ≡ true) }
    ensures same { IfOk result (λ one. one ≡ hart) }
    ensures refused { IfErr result (IsHartRefusal harts hart) }
{
    match hart {
        None => Ok(None),
        Some(one) if one < u32::from(harts) => Ok(Some(one as u8)),
        Some(one) => Err(Refused::NoHart(one)),
    }
}

/// Writes what a chart comes to, on `out` or into its files. Answers the exit status, 0.
fn put_chart<S: EndFiles, W: Write>(
    made: &Made,
    chart: &ChartCommand<'_>,
    files: &mut S,
    out: &mut W,
) -> Result<u8, Refused>
    requires works { S.has_failed files.old ≡ false }
    requires finished { S.is_finished files.old ≡ true }
    ensures refused { IfErr result (λ reason. reason ≡ Output) }
    ensures zero { IfOk result (λ status. status ≡ 0) }
    ensures printed { OnOk result (Appends (W.contents out.old) (W.contents out.new)
        (if is_some (written_chart chart.now) then [] else made.now.text.items)) }
    ensures unwanted { is_some (written_chart chart.now) ≡ false → files.new ≡ files.old }
    ensures unbroken { OnOk result (S.has_failed files.new ≡ false) }
    ensures finished { OnOk result (S.is_finished files.new ≡ true) }
    ensures unreported { S.has_failed files.new ≡ true
        → W.contents out.new ≡ W.contents out.old }
{
    if chart.written().is_some() {
        return put_files(made, files);
    }
    match out.write_all(made.text.as_slice()) {
        Ok(()) => Ok(0),
        Err(_) => Err(Refused::Output),
    }
}

/// Writes what a chart comes to into its file, or into both. Answers the exit status, 0.
fn put_files<S: EndFiles>(made: &Made, files: &mut S) -> Result<u8, Refused>
    requires works { S.has_failed files.old ≡ false }
    requires finished { S.is_finished files.old ≡ true }
    ensures put { OnOk result (HasPut S.written S.has_failed files.old files.new
        (texts_with made.now.text.items made.now.beside)) }
    ensures refused { IfErr result (λ reason. reason ≡ Output) }
    ensures zero { IfOk result (λ status. status ≡ 0) }
    ensures unbroken { OnOk result (S.has_failed files.new ≡ false) }
    ensures finished { OnOk result (S.is_finished files.new ≡ true) }
{
    match &made.beside {
        Some(beside) => put_two_texts(made.text.as_slice(), beside.as_slice(), files),
        None => put_text(made.text.as_slice(), files),
    }
}
