//! The ruler over a band: the place of the first event of every tenth column.

ghost use Rattle.std.specs.Prelude.{◌≡◌, ◌<◌, ◌^◌, IfOk, OnOk};
ghost use Rattle.std.specs.Io.KnownBytes.{Appends};
ghost use Rattle.charts.specs.Text.{free_behind, number_over, places, ruler_from, ruler_text};

use crate::label::{Widths, write_spaces};
use arrayvec::ArrayString;
use chart_columns::ColumnTable;
use chart_rows::Band;
use std::io;
use std::io::Write;
use text_fields::push_decimal;

/// How many columns lie from one number over them to the next.
const COLUMNS_A_NUMBER: u64 = 10;

/// Writes over every tenth column the place of its first event, which begins there.
#[tactic(auto, unfolding(crate::specs::Text::ruler_text))]
pub(crate) fn write_ruler<W: Write>(
    columns: &ColumnTable,
    band: &Band,
    widths: &Widths,
    out: &mut W,
) -> io::Result<()>
    ensures { OnOk result (Appends (W.contents out.old) (W.contents out.new)
        (ruler_text columns.now band.now widths.now)) }
{
    write_spaces(widths.name(), out)?;
    write_numbers(columns, band, out)?;
    out.write_all(b"\n")
}

fn write_numbers<W: Write>(columns: &ColumnTable, band: &Band, out: &mut W) -> io::Result<()>
    ensures { OnOk result (Appends (W.contents out.old) (W.contents out.new)
        (ruler_from columns.now band.now.from (places band.now.from band.now.to))) }
{
    let mut free = u64::from(band.from);
    for column in band.from..=band.to {
        let number = columns.head(column);
        free = write_number(u64::from(column), number, free, out)?;
    }
    Ok(())
}

/// Writes the number of a column, from there on, where it is to have one and the first free column isn't behind it.
/// Answers the first that is free then.
fn write_number<W: Write>(column: u64, number: u32, free: u64, out: &mut W) -> io::Result<u64>
    requires { column < 2 ^ 32 }
    ensures { IfOk result (λ next. (next ≡ free_behind free column number)
        × Appends (W.contents out.old) (W.contents out.new) (number_over free column number)) }
{
    if column % COLUMNS_A_NUMBER != 0 || column < free {
        return Ok(free);
    }
    write_spaces((column - free) as usize, out)?;
    let mut text = ArrayString::<10>::new();
    push_decimal(&mut text, number);
    out.write_all(text.as_bytes())?;
    Ok(column + text.len() as u64)
}
