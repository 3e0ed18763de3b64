//! How many loads looked again.

ghost use Rattle.std.specs.Prelude.{◌≡◌, OnOk};
ghost use Rattle.std.specs.Io.KnownBytes.{Appends};
ghost use Rattle.smt_model.specs.Basics.{how_many};
ghost use Rattle.reports.specs.Report.{is_load_record, looks_line};

use arrayvec::ArrayString;
use events::Record;
use load_store::gives_loaded;
use rv_decode::decode_op;
use std::io;
use std::io::Write;
use text_fields::push_decimal;

/// Writes the line that tells how many of the loads among these records looked again as they
/// retired: `looks`. Loads are counted that have an rd other than x0 and didn't stop.
pub fn report_looks<W: Write>(looks: u32, records: &[Record], out: &mut W) -> io::Result<()>
    ensures { OnOk result
        (Appends (W.contents out.old) (W.contents out.new)
        (looks_line looks (how_many is_load_record records.now))) }
{
    let mut line = ArrayString::<64>::new();
    line.push_str("looks ");
    push_decimal(&mut line, looks);
    line.push_str(" of ");
    push_decimal(&mut line, count_loads(records));
    line.push_str(" loads\n");
    out.write_all(line.as_bytes())
}

fn count_loads(records: &[Record]) -> usize
    ensures { result ≡ how_many is_load_record records.now }
{
    records
        .iter()
        .filter(|record| is_load_record(record))
        .count()
}

fn is_load_record(record: &Record) -> bool
    ensures { result ≡ is_load_record record.now }
{
    gives_loaded(decode_op(record.word), &record.effect)
}
