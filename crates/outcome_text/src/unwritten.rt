//! The places in memory that are watched for nothing: where 0 stands throughout.

ghost use Rattle.std.specs.Prelude.{◌≡◌, slice_index_or, OnOk};
ghost use Rattle.std.specs.Io.KnownBytes.{Appends};
ghost use Rattle.searches.specs.declared.extent.Extent.TheVariants.{Whole};
ghost use Rattle.text_fields.specs.Each.{each_from};
ghost use Rattle.outcome_text.specs.Unwritten.{place_text, unwritten_line, unwritten_text};

use arrayvec::ArrayString;
use outcome_queries::{Asked, Watched};
use outcomes::Outcomes;
use std::io;
use std::io::Write;
use text_fields::{push_ascii, push_hex};
use watched_outcomes::WatchedBytes;

/// Writes a line for each of these places in memory that is 0 in whatever state an order leads to, from the start on.
pub(crate) fn write_unwritten<W: Write>(
    outcomes: &Outcomes,
    words: &[Asked<'_>],
    out: &mut W,
) -> io::Result<()>
    requires { outcomes.now.extent ≡ Whole }
    ensures { OnOk result (Appends (W.contents out.old) (W.contents out.new)
        (each_from (unwritten_text outcomes.now.unwritten) 0 words.now)) }
{
    for (index, asked) in words.iter().enumerate() {
        write_if_unwritten(outcomes.is_unwritten(index), asked.watched, out)?;
    }
    Ok(())
}

/// Writes the line of a place in memory, if it is unwritten.
fn write_if_unwritten<W: Write>(is_unwritten: bool, watched: Watched, out: &mut W) -> io::Result<()>
    ensures { OnOk result (Appends (W.contents out.old) (W.contents out.new)
        (unwritten_line is_unwritten watched)) }
{
    if !is_unwritten {
        return Ok(());
    }
    match watched {
        Watched::Register { .. } => Ok(()),
        Watched::Bytes(bytes) => write_place(bytes, out),
    }
}

fn write_place<W: Write>(bytes: WatchedBytes, out: &mut W) -> io::Result<()>
    ensures { OnOk result (Appends (W.contents out.old) (W.contents out.new) (place_text bytes)) }
{
    let mut line = ArrayString::<32>::new();
    line.push_str("unwritten ");
    push_hex(&mut line, bytes.address, 8);
    push_ascii(&mut line, b'\n');
    out.write_all(line.as_bytes())
}
