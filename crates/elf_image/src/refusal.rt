//! Why a file is no program image.

ghost use Rattle.std.specs.Prelude.{◌≡◌};
ghost use Rattle.elf_image.specs.Refusal.{reason_number};

use std::fmt;
use thiserror::Error;

/// The first check that a file fails, in the order in which they are made.
#[derive(Clone, Copy, Debug, PartialEq, Eq, Drop, Error)]
pub enum LoadRefused {
    /// There are fewer than 52 bytes, so no whole ELF32 header.
    TooShort,
    NotElf,
    NotClass32,
    NotLittleEndian,
    WrongVersion,
    NotExecutable,
    NotRiscV,
    /// The file header's size isn't 52, or a program header's isn't 32.
    WrongHeaderSize,
    TableOutsideFile,
    /// No segment is loadable, or more than 8 are.
    WrongSegmentCount,
    SegmentOutsideFile,
    /// A segment has no bytes in memory, or fewer than in the file.
    WrongMemorySize,
    SegmentOutsideRam,
    SegmentsOverlap,
    /// Not exactly one segment is executable.
    WrongCodeSegment,
    MisalignedCode,
    WrongEntry,
    /// All checks hold, but there is no memory for the image.
    OutOfMemory,
}

impl LoadRefused {
    /// The number of the check, from 1 to 18.
    pub fn number(self) -> u8
        ensures { result ≡ reason_number self }
    {
        match self {
            LoadRefused::TooShort => 1,
            LoadRefused::NotElf => 2,
            LoadRefused::NotClass32 => 3,
            LoadRefused::NotLittleEndian => 4,
            LoadRefused::WrongVersion => 5,
            LoadRefused::NotExecutable => 6,
            LoadRefused::NotRiscV => 7,
            LoadRefused::WrongHeaderSize => 8,
            LoadRefused::TableOutsideFile => 9,
            LoadRefused::WrongSegmentCount => 10,
            LoadRefused::SegmentOutsideFile => 11,
            LoadRefused::WrongMemorySize => 12,
            LoadRefused::SegmentOutsideRam => 13,
            LoadRefused::SegmentsOverlap => 14,
            LoadRefused::WrongCodeSegment => 15,
            LoadRefused::MisalignedCode => 16,
            LoadRefused::WrongEntry => 17,
            LoadRefused::OutOfMemory => 18,
        }
    }

    fn text(self) -> &'static str {
        match self {
            LoadRefused::TooShort => "the file is shorter than an ELF header",
            LoadRefused::NotElf => "the file does not begin as an ELF file does",
            LoadRefused::NotClass32 => "the file is not a 32-bit one",
            LoadRefused::NotLittleEndian => "the file is not little-endian",
            LoadRefused::WrongVersion => "the file's version is not 1",
            LoadRefused::NotExecutable => "the file is not an executable one",
            LoadRefused::NotRiscV => "the file is not for RISC-V",
            LoadRefused::WrongHeaderSize => "a header has another size than ELF32 gives it",
            LoadRefused::TableOutsideFile =>
                "the table of program headers is past the end of the file",
            LoadRefused::WrongSegmentCount => "the number of loadable segments is not 1 to 8",
            LoadRefused::SegmentOutsideFile => "a segment's bytes are past the end of the file",
            LoadRefused::WrongMemorySize => "a segment's memory size is 0 or below its file size",
            LoadRefused::SegmentOutsideRam => "a segment is not wholly in RAM",
            LoadRefused::SegmentsOverlap => "two segments overlap",
            LoadRefused::WrongCodeSegment => "there is not exactly one executable segment",
            LoadRefused::MisalignedCode => "the code's address or size is not a multiple of 4",
            LoadRefused::WrongEntry => "the entry is not a multiple of 4 in the code",
            LoadRefused::OutOfMemory => "out of memory",
        }
    }
}

// Not by `#[error]`: the proof of one call that writes is far cheaper than that of eighteen.
impl fmt::Display for LoadRefused {
    fn fmt<W: fmt::Write>(&self, f: &mut fmt::Formatter<W>) -> fmt::Result {
        f.write_str(self.text())
    }
}
