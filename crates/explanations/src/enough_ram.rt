//! How much RAM has room for all segments of a file.

ghost use Rattle.std.specs.Prelude.{IfSome, IfNone};
ghost use Rattle.explanations.specs.ImageRefusal.{IsEnough, HasNone, IsHighest};

use elf_image::{ProgramHeader, RAM_START};

/// The size of a page of RAM, of which it has a whole number.
const PAGE: u64 = 4096;

/// The greatest size of RAM.
const MOST_RAM: u64 = 16_777_216;

/// The least size of RAM in which all of the segments would be, in bytes; none where no size has them.
pub(crate) fn ram_that_would_do(headers: &[ProgramHeader]) -> Option<u32>
    ensures { IsEnough headers.now result }
{
    let highest = highest(headers)?;
    let bytes = highest.div_ceil(PAGE) * PAGE;
    if bytes <= MOST_RAM {
        Some(bytes as u32)
    } else {
        None
    }
}

/// How many bytes there are from the start of RAM to the end of the last segment, one at least; none where one begins
/// before RAM.
fn highest(headers: &[ProgramHeader]) -> Option<u64>
    ensures some { IfSome result (IsHighest headers.now) }
    ensures none { IfNone result (HasNone headers.now) }
{
    let mut bytes: u64 = 1;
    for header in headers {
        if header.address < RAM_START {
            return None;
        }
        let end = header.address as u64 + header.memory_size as u64;
        bytes = bytes.max(end - RAM_START as u64);
    }
    Some(bytes)
}
