//! The report as one JSON object.

ghost use Rattle.std.specs.Prelude.{◌≡◌, ◌+◌, ◌≤◌, ◌++◌, codes, length, OnOk};
ghost use Rattle.std.specs.Io.KnownBytes.{Appends};
ghost use Rattle.arrayvec.specs.ArrayString.{array_string_len};
ghost use Rattle.text_fields.specs.Each.{each_from};
ghost use Rattle.reports.specs.Json.{counts_member, counts_object, hart_object, harts_member, json_text};
ghost use Rattle.reports.specs.Json.{idle_array, idle_item, idle_member, lead_of, output_member};
ghost use Rattle.reports.specs.Json.{sizes_text, status_members};

use crate::counts::write_counts;
use crate::form::{Form, write_member};
use arrayvec::ArrayString;
use events::Record;
use history_counts::Counts;
use report_lines::write_bytes;
use smt_model::{Account, Status};
use std::io;
use std::io::Write;
use text_fields::{push_ascii, push_decimal};

/// Room for the object of a hart.
type Text = ArrayString<96>;

/// Writes the report of an account, and the numbers of its history where there are some, as one JSON
/// object on one line. `idle` says how many asks of each actor were answered idle; it is empty, and not
/// written, where nobody asked. Where it answers Ok, it has written exactly this object.
pub fn report_json<W: Write>(
    account: &Account<'_>,
    counts: &Option<Counts>,
    idle: &[u64],
    out: &mut W,
) -> io::Result<()>
    ensures { OnOk result
        (Appends (W.contents out.old) (W.contents out.new)
        (json_text account.now.events account.now.records.now account.now.lent
        account.now.statuses.items account.now.output.now counts.now idle.now)) }
{
    let statuses = account.statuses.as_slice();
    write_sizes(account.events, account.records.len(), account.lent, out)?;
    write_harts(statuses, out)?;
    write_output(account.output, out)?;
    write_end(counts, statuses, account.records, idle, out)
}

fn write_sizes<W: Write>(events: u32, retired: usize, lent: u32, out: &mut W) -> io::Result<()>
    ensures { OnOk result
        (Appends (W.contents out.old) (W.contents out.new) (sizes_text events retired lent)) }
{
    write_member("{", "events", events as u64, out)?;
    write_member(",", "retired", retired as u64, out)?;
    write_member(",", "lent", lent as u64, out)
}

fn write_harts<W: Write>(statuses: &[Status], out: &mut W) -> io::Result<()>
    ensures { OnOk result
        (Appends (W.contents out.old) (W.contents out.new) (harts_member statuses.now)) }
{
    out.write_all(b",\"harts\":[")?;
    write_objects(statuses, out)?;
    out.write_all(b"]")
}

fn write_objects<W: Write>(statuses: &[Status], out: &mut W) -> io::Result<()>
    ensures { OnOk result
        (Appends (W.contents out.old) (W.contents out.new)
        (each_from hart_object 0 statuses.now)) }
{
    for (hart, status) in statuses.iter().enumerate() {
        write_object(hart, *status, out)?;
    }
    Ok(())
}

fn write_object<W: Write>(hart: usize, status: Status, out: &mut W) -> io::Result<()>
    ensures { OnOk result
        (Appends (W.contents out.old) (W.contents out.new) (hart_object hart status)) }
{
    let mut text = Text::new();
    text.push_str(lead_of(hart));
    text.push_str("{\"hart\":");
    push_decimal(&mut text, hart);
    push_status(&mut text, status);
    push_ascii(&mut text, b'}');
    out.write_all(text.as_bytes())
}

/// What parts an item of an array from the one before.
fn lead_of(place: usize) -> &'static str
    ensures lead { result.now ≡ lead_of place }
    ensures short { length result.now ≤ 1 }
{
    if place == 0 { "" } else { "," }
}

fn push_status(text: &mut Text, status: Status)
    requires { array_string_len text.old + 48 ≤ 96 }
    ensures spelled { text.new.bytes ≡ text.old.bytes ++ status_members status }
    ensures length { array_string_len text.new ≤ array_string_len text.old + 48 }
{
    match status {
        Status::Going => text.push_str(",\"status\":\"going\""),
        Status::Ended(number) => {
            text.push_str(",\"status\":\"ended\",\"value\":");
            push_decimal(text, number);
        }
        Status::Stopped(cause) => {
            text.push_str(",\"status\":\"stopped\",\"cause\":");
            push_decimal(text, cause);
        }
    }
}

fn write_output<W: Write>(output: &[u8], out: &mut W) -> io::Result<()>
    ensures { OnOk result
        (Appends (W.contents out.old) (W.contents out.new) (output_member output.now)) }
{
    out.write_all(b",\"output\":\"")?;
    write_bytes(output, out)?;
    out.write_all(b"\"")
}

/// The numbers of the history, where there are some, and the end of the object.
fn write_end<W: Write>(
    counts: &Option<Counts>,
    statuses: &[Status],
    records: &[Record],
    idle: &[u64],
    out: &mut W,
) -> io::Result<()>
    ensures { OnOk result
        (Appends (W.contents out.old) (W.contents out.new)
        (counts_member counts.now (length statuses.now) records.now idle.now ++ codes "}\n")) }
{
    if let Some(counts) = counts {
        write_member_of_counts(counts, statuses.len(), records, idle, out)?;
    }
    out.write_all(b"}\n")
}

fn write_member_of_counts<W: Write>(
    counts: &Counts,
    harts: usize,
    records: &[Record],
    idle: &[u64],
    out: &mut W,
) -> io::Result<()>
    ensures { OnOk result
        (Appends (W.contents out.old) (W.contents out.new)
        (counts_object counts.now harts records.now idle.now)) }
{
    out.write_all(b",\"counts\":")?;
    write_counts(Form::Members, counts, harts, records, out)?;
    write_idle(idle, out)?;
    out.write_all(b"}")
}

/// How many asks of each actor were answered idle, where there are actors that asked.
fn write_idle<W: Write>(idle: &[u64], out: &mut W) -> io::Result<()>
    ensures { OnOk result
        (Appends (W.contents out.old) (W.contents out.new) (idle_member idle.now)) }
{
    if idle.len() == 0 {
        return out.write_all(b"");
    }
    write_array(idle, out)
}

fn write_array<W: Write>(idle: &[u64], out: &mut W) -> io::Result<()>
    ensures { OnOk result
        (Appends (W.contents out.old) (W.contents out.new) (idle_array idle.now)) }
{
    out.write_all(b",\"idle\":[")?;
    write_items(idle, out)?;
    out.write_all(b"]")
}

fn write_items<W: Write>(idle: &[u64], out: &mut W) -> io::Result<()>
    ensures { OnOk result
        (Appends (W.contents out.old) (W.contents out.new) (each_from idle_item 0 idle.now)) }
{
    for (actor, count) in idle.iter().enumerate() {
        write_item(actor, *count, out)?;
    }
    Ok(())
}

fn write_item<W: Write>(actor: usize, count: u64, out: &mut W) -> io::Result<()>
    ensures { OnOk result
        (Appends (W.contents out.old) (W.contents out.new) (idle_item actor count)) }
{
    let mut text = ArrayString::<32>::new();
    text.push_str(lead_of(actor));
    push_decimal(&mut text, count);
    out.write_all(text.as_bytes())
}
