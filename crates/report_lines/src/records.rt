ghost use Rattle.std.specs.Prelude.{flat_map, OnOk};
ghost use Rattle.std.specs.Io.KnownBytes.{Appends};
ghost use Rattle.address_labels.specs.Labels.{marks_of, no_marks};
ghost use Rattle.report_lines.specs.Lines.{record_line, records_text};

use address_labels::{Form, Labels, write_labels};
use arrayvec::ArrayString;
use event_text::print_record;
use events::Record;
use std::io;
use std::io::Write;
use text_fields::push_ascii;

/// Writes a line for each record where they are wanted: hart, pc, word, value, next, the address
/// and number written, and the byte put out; and behind them what is wanted beside the pc.
pub fn report_records<W: Write>(
    wanted: bool,
    records: &[Record],
    labels: &Labels<'_>,
    out: &mut W,
) -> io::Result<()>
    ensures { OnOk result (Appends (W.contents out.old) (W.contents out.new)
        (records_text wanted (marks_of labels.now) records.now)) }
{
    if !wanted {
        return out.write_all(b"");
    }
    write_records(records, labels, out)
}

fn write_records<W: Write>(records: &[Record], labels: &Labels<'_>, out: &mut W) -> io::Result<()>
    ensures { OnOk result (Appends (W.contents out.old) (W.contents out.new)
        (flat_map (record_line (marks_of labels.now)) records.now)) }
{
    for record in records {
        write_record(record, labels, out)?;
    }
    Ok(())
}

/// Writes the line of a record, with what is wanted beside its pc as its last fields.
pub fn write_record<W: Write>(record: &Record, labels: &Labels<'_>, out: &mut W) -> io::Result<()>
    ensures { OnOk result (Appends (W.contents out.old) (W.contents out.new)
        (record_line (marks_of labels.now) record.now)) }
{
    if labels.are_none() {
        return write_bare_record(record, out);
    }
    out.write_all(print_record(record).as_bytes())?;
    write_labels(labels, Form::Word, record.pc, out)?;
    out.write_all(b"\n")
}

/// Writes the line of a record, by one write.
fn write_bare_record<W: Write>(record: &Record, out: &mut W) -> io::Result<()>
    ensures { OnOk result
        (Appends (W.contents out.old) (W.contents out.new) (record_line no_marks record.now)) }
{
    let mut line = ArrayString::<80>::new();
    line.push_str(print_record(record).as_str());
    push_ascii(&mut line, b'\n');
    out.write_all(line.as_bytes())
}
