//! What is said of a check that a file fails, whatever the file has.

ghost use Rattle.std.specs.Prelude.{◌≡◌};
ghost use Rattle.explanations.specs.ImageRefusal.{check_words, mended};

use elf_image::LoadRefused;

/// What the check is, in words, as `Display` has them.
#[tactic(auto, unfolding(crate::specs::ImageRefusal::check_words))]
pub fn words_of_check(check: LoadRefused) -> &'static str
    ensures { result.now ≡ check_words check }
{
    match check {
        LoadRefused::TooShort => "the file is shorter than an ELF header",
        LoadRefused::NotElf => "the file does not begin as an ELF file does",
        LoadRefused::NotClass32 => "the file is not a 32-bit one",
        LoadRefused::NotLittleEndian => "the file is not little-endian",
        LoadRefused::WrongVersion => "the file's version is not 1",
        LoadRefused::NotExecutable => "the file is not an executable one",
        LoadRefused::NotRiscV => "the file is not for RISC-V",
        LoadRefused::WrongHeaderSize => "a header has another size than ELF32 gives it",
        LoadRefused::TableOutsideFile => "the table of program headers is past the end of the file",
        LoadRefused::WrongSegmentCount => "the number of loadable segments is not 1 to 8",
        LoadRefused::SegmentOutsideFile => "a segment's bytes are past the end of the file",
        LoadRefused::WrongMemorySize => "a segment's memory size is 0 or below its file size",
        LoadRefused::SegmentOutsideRam => "a segment is not wholly in RAM",
        LoadRefused::SegmentsOverlap => "two segments overlap",
        LoadRefused::WrongCodeSegment => "there is not exactly one executable segment",
        LoadRefused::MisalignedCode => "the code's address or size is not a multiple of 4",
        LoadRefused::WrongEntry => "the entry is not a multiple of 4 in the code",
        LoadRefused::OutOfMemory => "out of memory",
    }
}

/// What was expected, and what usually mends it. Of segments outside RAM that is said with the size of RAM.
#[tactic(auto, unfolding(crate::specs::ImageRefusal::mended))]
pub(crate) fn mended(check: LoadRefused) -> &'static str
    ensures { result.now ≡ mended check }
{
    match check {
        LoadRefused::TooShort => "usually: an empty file, or another one than the linked program\n",
        LoadRefused::NotElf => "expected: 7f 45 4c 46\n\
            usually: a source, or what objcopy made of it: take what the linker has written\n",
        LoadRefused::NotClass32 => "expected: 1, for 32 bits\n\
            usually: compiled for this machine, or for RV64: `-march=rv32ima -mabi=ilp32`\n",
        LoadRefused::NotLittleEndian => "expected: 1, for little-endian\n\
            usually: compiled for this machine: take a cross compiler for RISC-V\n",
        LoadRefused::WrongVersion => "expected: 1 and 1\n\
            usually: the file is damaged: link the program again\n",
        LoadRefused::NotExecutable => "expected: 2, an executable\n\
            usually: 1 is an object file: link it; 3 is for any address: link without `-pie`\n",
        LoadRefused::NotRiscV => "expected: 243, RISC-V\n\
            usually: compiled for this machine: take a cross compiler for RISC-V\n",
        LoadRefused::WrongHeaderSize => "expected: 52 and 32\n\
            usually: the file is damaged: link the program again\n",
        LoadRefused::TableOutsideFile =>
            "expected: all of the table, 32 bytes a header, within the file\n\
            usually: the file was cut: link the program again\n",
        LoadRefused::WrongSegmentCount =>
            "usually: an object file, which has none: link it; or a segment for each section: link \
            by `examples/start/program.ld`\n",
        LoadRefused::SegmentOutsideFile => "usually: the file was cut: link the program again\n",
        LoadRefused::WrongMemorySize =>
            "expected: a byte in memory at least, and no fewer than in the file\n\
            usually: a segment of an empty section: leave it out of the linker script\n",
        LoadRefused::SegmentOutsideRam => "",
        LoadRefused::SegmentsOverlap => "expected: no address in two of them\n\
            usually: two sections at one address in the linker script\n",
        LoadRefused::WrongCodeSegment => "expected: X on one of them alone\n\
            usually: code in two segments: put it into one by `examples/start/program.ld`\n",
        LoadRefused::MisalignedCode =>
            "expected: an address and a size in memory that are multiples of 4\n\
            usually: no `. = ALIGN(4)` behind the code in the linker script\n",
        LoadRefused::WrongEntry => "expected: a multiple of 4 in the segment with X\n\
            usually: no `_start`, or no `ENTRY(_start)` in the linker script\n",
        LoadRefused::OutOfMemory => "",
    }
}
