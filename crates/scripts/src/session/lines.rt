//! The lines that are printed: they are held back, and written many together.

ghost use Rattle.std.specs.Prelude.{◌≡◌, ◌+◌, ◌≤◌, [], OnOk};
ghost use Rattle.std.specs.Io.KnownBytes.{Appends, Keeps, append_known};
ghost use Rattle.arrayvec.specs.ArrayString.{array_string_len};

use arrayvec::ArrayString;
use std::io::Write;

/// Whole lines that are held back, to be written together: a write costs more than a line.
///
/// No other text has this room, so LLVM finds one caller of what prints an event into it, and puts
/// it there.
pub type Lines = ArrayString<3072>;

/// The room that the lines of one action take: at most two, each of an event.
const ROOM: usize = 140;

/// The writer failed. Its error is dropped where it comes: it is large, and nothing is told of it.
#[derive(Clone, Copy, PartialEq, Eq, Drop)]
pub struct Unwritten;

/// Writes the lines that are held back, where those of one more action might not fit beside them.
#[inline(always)]
pub fn make_room<W: Write>(lines: &mut Lines, out: &mut W) -> Result<(), Unwritten>
    ensures room { OnOk result (array_string_len lines.new + 140 ≤ 3072) }
    ensures kept { OnOk result (Keeps (append_known (W.contents out.old) lines.old.bytes)
        (append_known (W.contents out.new) lines.new.bytes)) }
{
    if lines.remaining_capacity() >= ROOM {
        return Ok(());
    }
    write_lines(lines, out)?;
    Ok(())
}

/// Writes the lines that are held back, and holds none then.
#[cold]
#[inline(never)]
pub fn write_lines<W: Write>(lines: &mut Lines, out: &mut W) -> Result<(), Unwritten>
    ensures written { OnOk result
        (Appends (W.contents out.old) (W.contents out.new) lines.old.bytes) }
    ensures left { OnOk result (lines.new.bytes ≡ []) }
{
    match out.write_all(lines.as_bytes()) {
        Ok(()) => {
            lines.clear();
            Ok(())
        }
        Err(_) => Err(Unwritten),
    }
}
