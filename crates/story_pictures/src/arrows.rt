//! The arrows from writes to the reads that found them.

ghost use Rattle.std.specs.Prelude.{◌≡◌, ◌<◌, ◌≤◌, OnOk, length};
ghost use Rattle.std.specs.Io.KnownBytes.{Appends};
ghost use Rattle.story_pictures.specs.Form.{most_rows};
ghost use Rattle.story_pictures.specs.Arrows.{arrow_from, arrow_text, arrows_text, arrows_to, curve_begin, curve_end, curve_text};

use crate::elements::write_point;
use crate::geometry::{Way, row_coming, row_leaving, way_of};
use crate::relations::reads_from;
use std::io;
use std::io::Write;
use stories::Row;

/// Writes all arrows of a story.
pub(crate) fn write_arrows<W: Write>(rows: &[Row], out: &mut W) -> io::Result<()>
    requires { length rows.now ≤ most_rows }
    ensures { OnOk result (Appends (W.contents out.old) (W.contents out.new) (arrows_text rows.now)) }
{
    for (index, read) in rows.iter().enumerate() {
        write_arrows_to(&rows[..index], read, out)?;
    }
    Ok(())
}

/// Writes the arrows to a read from the rows before it.
fn write_arrows_to<W: Write>(earlier: &[Row], read: &Row, out: &mut W) -> io::Result<()>
    requires { length earlier.now ≤ most_rows }
    ensures { OnOk result (Appends (W.contents out.old) (W.contents out.new) (arrows_to earlier.now read.now)) }
{
    for (index, write) in earlier.iter().enumerate() {
        write_arrow_from(earlier, read, index, write, out)?;
    }
    Ok(())
}

/// Writes an arrow from the row at `index` of those before a read, where that one is its source.
fn write_arrow_from<W: Write>(
    earlier: &[Row],
    read: &Row,
    index: usize,
    write: &Row,
    out: &mut W,
) -> io::Result<()>
    requires few { length earlier.now ≤ most_rows }
    requires there { index < length earlier.now }
    ensures { OnOk result (Appends (W.contents out.old) (W.contents out.new)
        (arrow_from earlier.now read.now index write.now)) }
{
    if reads_from(earlier, index, write, read) {
        return write_arrow(index, write.hart, earlier.len(), read.hart, out);
    }
    out.write_all(b"")
}

/// Writes an arrow from a row of a hart to a later one.
fn write_arrow<W: Write>(
    from: usize,
    from_hart: u8,
    to: usize,
    to_hart: u8,
    out: &mut W,
) -> io::Result<()>
    requires few { to ≤ most_rows }
    requires later { from < to }
    ensures { OnOk result (Appends (W.contents out.old) (W.contents out.new)
        (arrow_text from from_hart to to_hart)) }
{
    let way = way_of(from_hart, to_hart, to - from);
    write_curve(&way, row_leaving(from), row_coming(to), out)
}

fn write_curve<W: Write>(way: &Way, y: u32, to_y: u32, out: &mut W) -> io::Result<()>
    ensures { OnOk result (Appends (W.contents out.old) (W.contents out.new) (curve_text way.now y to_y)) }
{
    write_curve_begin(way, y, out)?;
    write_curve_end(way, to_y, out)
}

#[tactic(auto, unfolding(crate::specs::Arrows::curve_begin))]
fn write_curve_begin<W: Write>(way: &Way, y: u32, out: &mut W) -> io::Result<()>
    ensures { OnOk result (Appends (W.contents out.old) (W.contents out.new) (curve_begin way.now y)) }
{
    out.write_all(b"<path class=\"arrow\" marker-end=\"url(#point)\" d=\"M")?;
    write_point(way.from, y, out)?;
    out.write_all(b"C")?;
    write_point(way.near, y, out)
}

#[tactic(auto, unfolding(crate::specs::Arrows::curve_end))]
fn write_curve_end<W: Write>(way: &Way, y: u32, out: &mut W) -> io::Result<()>
    ensures { OnOk result (Appends (W.contents out.old) (W.contents out.new) (curve_end way.now y)) }
{
    out.write_all(b" ")?;
    write_point(way.far, y, out)?;
    out.write_all(b" ")?;
    write_point(way.to, y, out)?;
    out.write_all(b"\"/>\n")
}
