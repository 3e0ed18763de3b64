//! Program headers: what a file says of each of its segments (ELF32, "Program Header").

ghost use Rattle.std.specs.Prelude.{◌≡◌, ◌+◌, ◌*◌, ◌<◌, ◌≤◌, length, IfSome, IfNone};
ghost use Rattle.elf_image.specs.Layout.{header_at, loadable_from};

use crate::fields::read_word;
use arrayvec::ArrayVec;

/// The most loadable segments that an image has (this project's own choice).
pub(crate) const MOST_SEGMENTS: usize = 8;

/// The type of a loadable segment, PT_LOAD.
pub const LOADABLE: u32 = 1;

/// The fields of a program header, without p_paddr and p_align, which nothing here reads.
#[derive(Clone, Copy, Default)]
pub struct ProgramHeader {
    pub kind: u32,
    pub offset: u32,
    pub address: u32,
    pub file_size: u32,
    pub memory_size: u32,
    pub flags: u32,
}

/// The program header at a place.
#[tactic(auto, unfolding(crate::specs::Layout::header_at))]
pub fn read_header(file: &[u8], place: usize) -> ProgramHeader
    requires { place + 32 ≤ length file.now }
    ensures { result ≡ header_at file.now place }
{
    ProgramHeader {
        kind: read_word(file, place),
        offset: read_word(file, place + 4),
        address: read_word(file, place + 8),
        file_size: read_word(file, place + 16),
        memory_size: read_word(file, place + 20),
        flags: read_word(file, place + 24),
    }
}

#[tactic(auto, using(crate::proofs::Table::loadable_with, crate::proofs::Table::loadable_without, crate::proofs::Table::loadable_none))]
/// The headers of the loadable segments among so many headers from a place on, in that order. None
/// where there are more than an image has.
pub(crate) fn read_loadable(
    file: &[u8],
    place: usize,
    count: usize,
) -> Option<ArrayVec<ProgramHeader, MOST_SEGMENTS>>
    requires { place + 32 * count ≤ length file.now }
    ensures some { IfSome result (λ headers. headers.items ≡ loadable_from file.now place count) }
    ensures none { IfNone result (8 < length (loadable_from file.now place count)) }
{
    let mut headers = ArrayVec::new();
    for i in 0..count {
        let header = read_header(file, place + 32 * i);
        if header.kind != LOADABLE {
            continue;
        }
        if headers.is_full() {
            return None;
        }
        headers.push(header);
    }
    Some(headers)
}

impl ProgramHeader {
    ghost use Rattle.std.specs.Prelude.{◌↔◌, IsTrue};
    ghost use Rattle.elf_image.specs.Checks.{is_executable, AreApart};

    /// Whether the flags have X.
    pub(crate) fn is_executable(&self) -> bool
        ensures { result ≡ is_executable self.now }
    {
        self.flags % 2 == 1
    }

    /// Whether no address in memory is in both segments.
    pub(crate) fn is_apart_from(&self, other: &ProgramHeader) -> bool
        ensures { IsTrue result ↔ AreApart self.now other.now }
    {
        self.address as u64 + self.memory_size as u64 <= other.address as u64
            || other.address as u64 + other.memory_size as u64 <= self.address as u64
    }
}
