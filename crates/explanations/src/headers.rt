//! The headers of a file's segments, read once more where `elf_image` has refused it.

ghost use Rattle.std.specs.Prelude.{◌≡◌, ◌+◌, ◌*◌, ◌≤◌, length, IfOk};
ghost use Rattle.elf_image.specs.Layout.{loadable, loadable_from, table_offset, table_count};

use elf_image::{LOADABLE, ProgramHeader, read_half, read_header, read_word};
use std::alloc::{AllocError, Global};

/// The headers of a file's loadable segments, in the file's order.
pub(crate) fn read_loadable(file: &[u8], alloc: Global) -> Result<Vec<ProgramHeader>, AllocError>
    requires whole { 52 ≤ length file.now }
    requires table { table_offset file.now + 32 * table_count file.now ≤ length file.now }
    ensures { IfOk result (λ headers. headers.items ≡ loadable file.now) }
{
    let place = read_word(file, 28) as usize;
    let count = read_half(file, 44) as usize;
    read_headers(file, place, count, alloc)
}

/// The headers of the loadable segments among so many headers from a place on, in that order.
#[tactic(auto, using(elf_image::proofs::Table::loadable_without))]
fn read_headers(
    file: &[u8],
    place: usize,
    count: usize,
    alloc: Global,
) -> Result<Vec<ProgramHeader>, AllocError>
    requires { place + 32 * count ≤ length file.now }
    ensures { IfOk result (λ headers. headers.items ≡ loadable_from file.now place count) }
{
    let mut headers = Vec::new(alloc);
    for i in 0..count {
        let header = read_header(file, place + 32 * i);
        if header.kind != LOADABLE {
            continue;
        }
        headers.push(header)?;
    }
    Ok(headers)
}
