ghost use Rattle.std.specs.Prelude.{◌++◌, length, OnOk};
ghost use Rattle.std.specs.Io.KnownBytes.{Appends};
ghost use Rattle.address_labels.specs.Labels.{marks_of};
ghost use Rattle.report_lines.specs.Lines.{records_text, plain_report_text};
ghost use Rattle.reports.specs.Report.{report_text};

use address_labels::Labels;
use plain_run::PlainRun;
use report_lines::{report_count, report_end, report_records, report_standing};
use smt_model::Account;
use std::io;
use std::io::Write;

/// Writes the report of an account: with `records` a line for each retired instruction, with its labels, then how
/// many events and retired instructions there are, how many jobs are with units, how each hart
/// stands, and the output's bytes in hexadecimal. Where it answers Ok, it has written exactly these
/// lines.
pub fn report<W: Write>(
    account: &Account<'_>,
    records: bool,
    labels: &Labels<'_>,
    out: &mut W,
) -> io::Result<()>
    ensures { OnOk result
        (Appends (W.contents out.old) (W.contents out.new)
        (records_text records (marks_of labels.now) account.now.records.now
        ++ report_text account.now.events (length account.now.records.now) account.now.lent
        account.now.statuses.items account.now.output.now)) }
{
    report_records(records, account.records, labels, out)?;
    report_count("events", u64::from(account.events), out)?;
    report_count("retired", account.records.len() as u64, out)?;
    report_count("lent", u64::from(account.lent), out)?;
    report_end(account.statuses.as_slice(), account.output, out)
}

/// Writes the report of a run of the plain machine: with `records` a line for each of its steps, with its labels,
/// then how many there are, how each hart stands, and the output's bytes in hexadecimal. Where it
/// answers Ok, it has written exactly these lines.
pub fn report_plain<W: Write>(
    ran: &PlainRun,
    records: bool,
    labels: &Labels<'_>,
    out: &mut W,
) -> io::Result<()>
    ensures { OnOk result
        (Appends (W.contents out.old) (W.contents out.new)
        (records_text records (marks_of labels.now) ran.now.records
        ++ plain_report_text (length ran.now.records) ran.now.statuses ran.now.machine.output)) }
{
    report_records(records, ran.records(), labels, out)?;
    let retired = ran.records().len() as u64;
    report_standing(retired, ran.statuses().as_slice(), ran.output(), out)
}
