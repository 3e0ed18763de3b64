//! The line of a row in a band.

ghost use Rattle.std.specs.Prelude.{◌≡◌, ◌∷◌, [], OnOk};
ghost use Rattle.std.specs.Io.KnownBytes.{Appends};
ghost use Rattle.address_labels.specs.Labels.{marks_of};
ghost use Rattle.chart_rows.specs.Cells.{letter_at};
ghost use Rattle.charts.specs.Text.{by_text, cells_text, line_text, remark_text, replayed_text, squashed_text};
ghost use Rattle.address_labels.specs.declared.writing.Form.TheVariants.{Word};

use crate::label::{Named, Widths};
use arrayvec::ArrayString;
use chart_rows::{Band, Row};
use std::io;
use std::io::Write;
use text_fields::push_decimal;

/// Writes the line of a row with this number.
#[tactic(auto, unfolding(crate::specs::Text::line_text))]
pub(crate) fn write_line<W: Write>(
    row: &Row,
    number: usize,
    band: &Band,
    widths: &Widths,
    named: Named<'_>,
    out: &mut W,
) -> io::Result<()>
    requires { named.form ≡ Word }
    ensures { OnOk result (Appends (W.contents out.old) (W.contents out.new)
        (line_text widths.now (marks_of named.entry.labels.now) named.entry.registers.now band.now number row.now)) }
{
    widths.write_name(row, number, named, out)?;
    write_cells(row, band, out)?;
    write_remark(row, band, out)
}

/// What stands in the columns of a row, as far as something does.
fn write_cells<W: Write>(row: &Row, band: &Band, out: &mut W) -> io::Result<()>
    ensures { OnOk result (Appends (W.contents out.old) (W.contents out.new) (cells_text row.now band.now)) }
{
    for place in band.from..=band.last_column(row) {
        write_letter(row, place, out)?;
    }
    Ok(())
}

/// Writes what stands in a row under the event at this place.
fn write_letter<W: Write>(row: &Row, place: u32, out: &mut W) -> io::Result<()>
    ensures { OnOk result (Appends (W.contents out.old) (W.contents out.new) (letter_at row.now place ∷ [])) }
{
    let letter = row.cell(place).letter();
    out.write_all(&[letter])
}

/// Behind a row that was squashed in this band the number of the instruction that squashed it, or a word where it is
/// fetched again; behind a load that was replayed in it a word; and the end of the line.
#[tactic(auto, unfolding(crate::specs::Text::remark_text))]
fn write_remark<W: Write>(row: &Row, band: &Band, out: &mut W) -> io::Result<()>
    ensures { OnOk result (Appends (W.contents out.old) (W.contents out.new) (remark_text row.now band.now)) }
{
    write_squashed(row, band, out)?;
    write_replayed(row, band, out)?;
    out.write_all(b"\n")
}

/// What squashed a row in this band: its own refetch, or the event of another instruction.
fn write_squashed<W: Write>(row: &Row, band: &Band, out: &mut W) -> io::Result<()>
    ensures { OnOk result (Appends (W.contents out.old) (W.contents out.new) (squashed_text band.now row.now)) }
{
    if row.refetched.is_none() {
        return write_by(row, band, out);
    }
    if band.has(row.refetched) {
        return out.write_all(b" refetched");
    }
    out.write_all(b"")
}

fn write_by<W: Write>(row: &Row, band: &Band, out: &mut W) -> io::Result<()>
    ensures { OnOk result (Appends (W.contents out.old) (W.contents out.new) (by_text band.now row.now.squashed)) }
{
    let Some(squash) = row.squashed else {
        return out.write_all(b"");
    };
    if !band.has(Some(squash.place)) {
        return out.write_all(b"");
    }
    let mut text = ArrayString::<14>::new();
    text.push_str(" by ");
    push_decimal(&mut text, squash.by);
    out.write_all(text.as_bytes())
}

fn write_replayed<W: Write>(row: &Row, band: &Band, out: &mut W) -> io::Result<()>
    ensures { OnOk result (Appends (W.contents out.old) (W.contents out.new) (replayed_text band.now row.now)) }
{
    let is_said = row.replayed && band.has(row.retired);
    if is_said {
        return out.write_all(b" replayed");
    }
    out.write_all(b"")
}
