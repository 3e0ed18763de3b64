//! What is reported of a core: its trace, its story, its tables, how many of its loads looked again, its
//! records and its report, with the numbers of its history, how many asks of each actor were answered
//! idle, and why its harts stand where they do. Each command that has a core at its end reports it so.

ghost use Rattle.std.specs.Prelude.{◌≡◌, ◌++◌, OnOk, IfOk, IfErr, ◌⊎◌, true, false};
ghost use Rattle.std.specs.Prelude.{is_some, [], if◌then◌else◌, length};
ghost use Rattle.std.specs.Io.KnownBytes.{Appends};
ghost use Rattle.smt_model.specs.Basics.{how_many};
ghost use Rattle.address_labels.specs.Labels.{marks_of};
ghost use Rattle.report_lines.specs.Lines.{records_text};
ghost use Rattle.reports.specs.Report.{is_load_record, looks_line};
ghost use Rattle.command_parts.specs.declared.refused.Refused.TheVariants.{Memory, Output};
ghost use Rattle.core_commands.specs.Account.{AreEndReasons, AreTables, IsReported, IsTraceWritten, counts_in};
ghost use Rattle.core_commands.specs.Account.{body_text, numbers_text, idle_of};
ghost use Rattle.core_commands.specs.Wanted.{wants_of};
ghost use Rattle.reports.specs.CountLines.{count_lines};
ghost use Rattle.reports.specs.Counts.{idle_lines};

use crate::core_story::tell_story;
use crate::wanted::Wanted;
use address_labels::Labels;
use command_parts::Refused;
use events::Record;
use history_counts::{Counts, counts_of};
use numbers::sizes::MOST_ACTORS;
use report_lines::{report_records, status_of};
use reports::{
    RunEnd, report, report_counts, report_ends, report_idle, report_json, report_looks,
    write_tables,
};
use smt_core::Core;
use smt_model::Account;
use std::alloc::{AllocError, Global};
use std::io;
use std::io::Write;
use stress_runs::{EndFiles, put_trace_file};

/// Writes the trace of a core where it is wanted, and then what else is wanted of it and its report.
/// `idle` says how many asks of each actor were answered idle; `labels` stand beside the pcs of the records. Answers
/// the exit status: how the harts stand.
///
/// `Output` is answered where the sink or `out` took no more, `Memory` where there is none for what
/// is made before it is written. Where the sink failed, nothing is written.
pub(crate) fn write_account<S: EndFiles, W: Write>(
    core: &Core,
    idle: &[u64],
    wanted: Wanted<'_>,
    labels: &Labels<'_>,
    trace: &mut S,
    out: &mut W,
    alloc: Global,
) -> Result<u8, Refused>
    requires works { S.has_failed trace.old ≡ false }
    requires finished { S.is_finished trace.old ≡ true }
    ensures refused { IfErr result (λ reason. (reason ≡ Memory) ⊎ (reason ≡ Output)) }
    ensures traced { OnOk result (IsTraceWritten S.written S.has_failed trace.old trace.new
        wanted.entry.trace core.now) }
    ensures reported { IfOk result
        (IsReported core.now idle.now (wants_of wanted.entry) (marks_of labels.now)
        (W.contents out.old) (W.contents out.new)) }
    ensures unwanted { wanted.entry.trace ≡ false → trace.new ≡ trace.old }
    ensures unbroken { OnOk result (S.has_failed trace.new ≡ false) }
    ensures finished { OnOk result (S.is_finished trace.new ≡ true) }
    ensures unreported { S.has_failed trace.new ≡ true
        → W.contents out.new ≡ W.contents out.old }
{
    write_trace(core, wanted.trace, trace)?;
    report_core(core, idle, wanted, labels, out, alloc)
}

/// Puts the trace of a core into a sink and finishes its file, where it is wanted. `Output` is answered
/// where the sink failed.
fn write_trace<S: EndFiles>(core: &Core, wanted: bool, sink: &mut S) -> Result<(), Refused>
    requires works { S.has_failed sink.old ≡ false }
    requires finished { S.is_finished sink.old ≡ true }
    ensures refused { IfErr result (λ reason. reason ≡ Output) }
    ensures written { OnOk result
        (IsTraceWritten S.written S.has_failed sink.old sink.new wanted core.now) }
    ensures works { OnOk result (S.has_failed sink.new ≡ false) }
    ensures finished { OnOk result (S.is_finished sink.new ≡ true) }
    ensures unwanted { wanted ≡ false → sink.new ≡ sink.old }
{
    if !wanted {
        return Ok(());
    }
    match put_trace_file(core, sink) {
        Ok(()) => Ok(()),
        Err(_) => Err(Refused::Output),
    }
}

/// Writes what is wanted of a core, and its report. `idle` says how many asks of each actor were answered
/// idle; it is empty where nobody asked. Answers how the harts stand.
pub(crate) fn report_core<W: Write>(
    core: &Core,
    idle: &[u64],
    wanted: Wanted<'_>,
    labels: &Labels<'_>,
    out: &mut W,
    alloc: Global,
) -> Result<u8, Refused>
    ensures refused { IfErr result (λ reason. (reason ≡ Memory) ⊎ (reason ≡ Output)) }
    ensures reported { IfOk result
        (IsReported core.now idle.now (wants_of wanted.entry) (marks_of labels.now)
        (W.contents out.old) (W.contents out.new)) }
{
    match made_of(core, wanted, alloc) {
        Ok(made) => write_made(core, idle, wanted, labels, &made, out, alloc),
        Err(AllocError) => Err(Refused::Memory),
    }
}

/// What is made of a core before any of it is written.
#[derive(Drop)]
struct Made {
    counts: Option<Counts>,
    tables: Vec<u8>,
    ends: Vec<u8>,
}

/// What is wanted of a core that takes memory to make.
fn made_of(core: &Core, wanted: Wanted<'_>, alloc: Global) -> Result<Made, AllocError>
    ensures counts { IfOk result (λ made. made.counts ≡ counts_in wanted.entry.counts core.now) }
    ensures tables { IfOk result (λ made. AreTables wanted.entry.tables core.now made.tables.items) }
    ensures ends { IfOk result (λ made. AreEndReasons (is_some wanted.entry.ends) made.ends.items) }
{
    let counts = counts_in(core, wanted.counts, alloc)?;
    let tables = table_text(core, wanted.tables, alloc)?;
    let ends = ends_text(core, wanted.ends, alloc)?;
    Ok(Made {
        counts,
        tables,
        ends,
    })
}

/// Tells the story of a core where it is wanted, and then writes what was made of it and is wanted of it, and its
/// report. Answers how the harts stand.
fn write_made<W: Write>(
    core: &Core,
    idle: &[u64],
    wanted: Wanted<'_>,
    labels: &Labels<'_>,
    made: &Made,
    out: &mut W,
    alloc: Global,
) -> Result<u8, Refused>
    requires counts { made.now.counts ≡ counts_in wanted.counts core.now }
    requires tables { AreTables wanted.tables core.now made.now.tables.items }
    requires ends { AreEndReasons (is_some wanted.ends) made.now.ends.items }
    ensures refused { IfErr result (λ reason. (reason ≡ Memory) ⊎ (reason ≡ Output)) }
    ensures reported { IfOk result
        (IsReported core.now idle.now (wants_of wanted.entry) (marks_of labels.now)
        (W.contents out.old) (W.contents out.new)) }
{
    tell_story(core, &wanted.story, labels, out, alloc)?;
    if out.write_all(made.tables.as_slice()).is_err() {
        return Err(Refused::Output);
    }
    let account = core.account();
    write_looks(wanted.looks, core.looks(), account.records, out)?;
    match write_report(&account, idle, wanted, labels, made, out) {
        Ok(()) => Ok(status_of(account.statuses.as_slice())),
        Err(_) => Err(Refused::Output),
    }
}

/// Writes the records of an account where they are wanted, and its report.
fn write_report<W: Write>(
    account: &Account<'_>,
    idle: &[u64],
    wanted: Wanted<'_>,
    labels: &Labels<'_>,
    made: &Made,
    out: &mut W,
) -> io::Result<()>
    ensures { OnOk result (Appends (W.contents out.old) (W.contents out.new)
        (records_text wanted.entry.records (marks_of labels.now) account.now.records.now
        ++ body_text wanted.entry.json account.now.events account.now.records.now account.now.lent
        account.now.statuses.items account.now.output.now made.now.counts idle.now made.now.ends.items)) }
{
    report_records(wanted.records, account.records, labels, out)?;
    if wanted.json {
        return write_object(account, idle, made, out);
    }
    write_lines(account, idle, made, out)
}

/// Writes why the harts stand where they do, and behind it the report as an object.
fn write_object<W: Write>(
    account: &Account<'_>,
    idle: &[u64],
    made: &Made,
    out: &mut W,
) -> io::Result<()>
    ensures { OnOk result (Appends (W.contents out.old) (W.contents out.new)
        (body_text true account.now.events account.now.records.now account.now.lent
        account.now.statuses.items account.now.output.now made.now.counts idle.now made.now.ends.items)) }
{
    out.write_all(made.ends.as_slice())?;
    report_json(account, &made.counts, idle, out)
}

/// Writes the report, and behind it the numbers of the history and why the harts stand where they do.
fn write_lines<W: Write>(
    account: &Account<'_>,
    idle: &[u64],
    made: &Made,
    out: &mut W,
) -> io::Result<()>
    ensures { OnOk result (Appends (W.contents out.old) (W.contents out.new)
        (body_text false account.now.events account.now.records.now account.now.lent
        account.now.statuses.items account.now.output.now made.now.counts idle.now made.now.ends.items)) }
{
    report(account, false, &Labels::none(), out)?;
    write_numbers(account, idle, &made.counts, out)?;
    out.write_all(made.ends.as_slice())
}

/// Writes the numbers of the history and of the idle asks, where they are wanted.
fn write_numbers<W: Write>(
    account: &Account<'_>,
    idle: &[u64],
    counts: &Option<Counts>,
    out: &mut W,
) -> io::Result<()>
    ensures { OnOk result (Appends (W.contents out.old) (W.contents out.new)
        (numbers_text counts.now (length account.now.statuses.items) account.now.records.now
        idle.now)) }
{
    match counts {
        Some(counts) => write_counts(account, idle, counts, out),
        None => out.write_all(b""),
    }
}

fn write_counts<W: Write>(
    account: &Account<'_>,
    idle: &[u64],
    counts: &Counts,
    out: &mut W,
) -> io::Result<()>
    ensures { OnOk result (Appends (W.contents out.old) (W.contents out.new)
        (count_lines counts.now (length account.now.statuses.items) account.now.records.now
        ++ idle_lines idle.now)) }
{
    let harts = account.statuses.as_slice().len();
    report_counts(counts, harts, account.records, out)?;
    report_idle(idle, out)
}

/// How many asks of each actor of a core were answered idle, of those of each actor that there may be.
pub(crate) fn idle_of<'a>(core: &Core, idle: &'a [u64; MOST_ACTORS]) -> &'a [u64]
    ensures { result.now ≡ idle_of core.now idle.now }
{
    let actors = core.config().roles.len();
    &idle[..actors]
}

/// Writes how many of the loads among these records looked again, where that is wanted.
fn write_looks<W: Write>(
    wanted: bool,
    looks: u32,
    records: &[Record],
    out: &mut W,
) -> Result<(), Refused>
    ensures refused { IfErr result (λ reason. reason ≡ Output) }
    ensures written { OnOk result (Appends (W.contents out.old) (W.contents out.new)
        (if wanted then looks_line looks (how_many is_load_record records.now) else [])) }
{
    if !wanted {
        return Ok(());
    }
    match report_looks(looks, records, out) {
        Ok(()) => Ok(()),
        Err(_) => Err(Refused::Output),
    }
}

/// The text of the tables where they are wanted, else none.
fn table_text(core: &Core, wanted: bool, alloc: Global) -> Result<Vec<u8>, AllocError>
    ensures tables { IfOk result (λ text. AreTables wanted core.now text.items) }
{
    let mut text = Vec::new(alloc);
    if !wanted {
        return Ok(text);
    }
    match write_tables(core, &mut text) {
        Ok(()) => Ok(text),
        Err(_) => Err(AllocError),
    }
}

/// Why the harts stand where they do, where it is wanted, else nothing.
fn ends_text(core: &Core, wanted: Option<RunEnd>, alloc: Global) -> Result<Vec<u8>, AllocError>
    ensures { IfOk result (λ text. AreEndReasons (is_some wanted) text.items) }
{
    let mut text = Vec::new(alloc);
    let Some(end) = wanted else {
        return Ok(text);
    };
    match report_ends(core, end, &mut text) {
        Ok(()) => Ok(text),
        Err(_) => Err(AllocError),
    }
}

/// The numbers of a core's history, where they are wanted.
fn counts_in(core: &Core, wanted: bool, alloc: Global) -> Result<Option<Counts>, AllocError>
    ensures { IfOk result (λ counts. counts ≡ counts_in wanted core.now) }
{
    if !wanted {
        return Ok(None);
    }
    match counts_of(core.history(), alloc) {
        Ok(counts) => Ok(Some(counts)),
        Err(AllocError) => Err(AllocError),
    }
}
