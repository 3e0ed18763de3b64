ghost use Rattle.std.specs.Prelude.{◌≡◌, ◌+◌, OnOk};
ghost use Rattle.std.specs.Io.KnownBytes.{Appends};
ghost use Rattle.stress_runs.specs.Table.{came_text, row_text, row_texts, tally_text};

use crate::tally::{Row, Tally};
use arrayvec::ArrayString;
use outcome_queries::Columns;
use outcome_text::write_watched;
use report_lines::{report_count, report_end};
use std::io;
use std::io::Write;
use text_fields::push_decimal;

/// Room for the line of an end.
type Line = ArrayString<64>;

/// Writes the table of so many runs, of which this was watched: a line that says how many there were;
/// for each end its number, from 1, how often it came, what is watched of it, and what a report tells of
/// it; and a line that says how many ends there are.
pub fn report_tally<W: Write>(
    runs: u32,
    tally: &Tally,
    columns: &Columns<'_>,
    out: &mut W,
) -> io::Result<()>
    ensures { OnOk result (Appends (W.contents out.old) (W.contents out.new)
        (tally_text columns.now.registers.items columns.now.words.items runs tally.now.rows)) }
{
    report_count("times", u64::from(runs), out)?;
    report_rows(tally.rows(), columns, out)?;
    report_count("ends", tally.rows().len() as u64, out)
}

fn report_rows<W: Write>(rows: &[Row], columns: &Columns<'_>, out: &mut W) -> io::Result<()>
    ensures { OnOk result (Appends (W.contents out.old) (W.contents out.new)
        (row_texts columns.now.registers.items columns.now.words.items 1 rows.now)) }
{
    for (index, row) in rows.iter().enumerate() {
        report_row(index as u64 + 1, row, columns, out)?;
    }
    Ok(())
}

#[tactic(auto, unfolding(crate::specs::Table::row_text))]
fn report_row<W: Write>(
    number: u64,
    row: &Row,
    columns: &Columns<'_>,
    out: &mut W,
) -> io::Result<()>
    ensures { OnOk result (Appends (W.contents out.old) (W.contents out.new)
        (row_text columns.now.registers.items columns.now.words.items number row.now)) }
{
    report_came(number, row.count, out)?;
    write_watched(columns, &row.end, out)?;
    out.write_all(b"\n")?;
    report_end(row.end.statuses.as_slice(), row.end.output.as_slice(), out)
}

fn report_came<W: Write>(number: u64, count: u32, out: &mut W) -> io::Result<()>
    ensures { OnOk result
        (Appends (W.contents out.old) (W.contents out.new) (came_text number count)) }
{
    let mut line = Line::new();
    line.push_str("end ");
    push_decimal(&mut line, number);
    line.push_str(" came ");
    push_decimal(&mut line, count);
    line.push_str(" times");
    out.write_all(line.as_bytes())
}
