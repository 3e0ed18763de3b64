//! The image of a litmus test.

ghost use Rattle.std.specs.Prelude.{◌≡◌, ◌++◌, flat_map, All, IfOk, OnOk};
ghost use Rattle.rv_instr.specs.Table.{IsInstructionInRange};
ghost use Rattle.elf_image.specs.Written.{word_bytes};
ghost use Rattle.litmus_tests.specs.WellFormed.{IsWellFormed, IsValue};
ghost use Rattle.litmus_tests.specs.Limits.{most_locations};
ghost use Rattle.litmus_images.specs.Image.{initial_words, locations_segment, SpellEach, IsSpelled};
ghost use Rattle.litmus_images.specs.{Image.IsLitmusImage, Image.code_begin, Code.code_of};

use crate::code::code_of;
use crate::constants::number_of;
use byteorder::{ByteOrder, LittleEndian};
use elf_image::{Image, RAM_START, RamSize, Segment};
use litmus_tests::{LitmusTest, Value};
use rv_decode::encode;
use rv_instr::Instr;
use std::alloc::{AllocError, Global};

/// Where the code begins.
const CODE_BEGIN: u32 = RAM_START + 256;

/// How many bytes RAM has.
const RAM_BYTES: u32 = 65536;

/// The flags of a segment of data, R and W, and of one of code, R and X.
const DATA: u8 = 6;

const CODE: u8 = 5;

/// Words that spell instructions, one each.
fn words_of(code: &[Instr], alloc: Global) -> Result<Vec<u32>, AllocError>
    requires { All IsInstructionInRange code.now }
    ensures { IfOk result (λ words. SpellEach words.items code.now) }
{
    let mut words = Vec::new(alloc);
    for instruction in code {
        words.push(encode(*instruction))?;
    }
    Ok(words)
}

/// The numbers that the locations' words hold at the start.
fn initial_words(values: &[Value], alloc: Global) -> Result<Vec<u32>, AllocError>
    requires { All (IsValue most_locations) values.now }
    ensures { IfOk result (λ words. words.items ≡ initial_words values.now) }
{
    let mut words = Vec::new(alloc);
    for value in values {
        words.push(number_of(*value))?;
    }
    Ok(words)
}

/// The bytes of words, the lowest byte of each first.
#[tactic(auto, unfolding(elf_image::specs::Written::word_bytes))]
fn bytes_of(words: &[u32], alloc: Global) -> Result<Vec<u8>, AllocError>
    ensures { IfOk result (λ bytes. bytes.items ≡ flat_map word_bytes words.now) }
{
    let mut bytes = Vec::new(alloc);
    for word in words {
        let mut part = [0; 4];
        LittleEndian::write_u32(&mut part, *word);
        bytes.extend_from_slice(&part)?;
    }
    Ok(bytes)
}

/// The bytes of the code.
fn code_bytes(test: &LitmusTest, alloc: Global) -> Result<Vec<u8>, AllocError>
    requires { IsWellFormed test.now }
    ensures { IfOk result (λ bytes. IsSpelled bytes.items (code_of test.now)) }
{
    let code = code_of(test, alloc)?;
    let words = words_of(&code, alloc)?;
    bytes_of(&words, alloc)
}

/// Appends the segment of the locations, if there are any.
fn push_locations(
    segments: &mut Vec<Segment>,
    values: &[Value],
    alloc: Global,
) -> Result<(), AllocError>
    requires { All (IsValue most_locations) values.now }
    ensures { OnOk result (segments.new.items ≡ segments.old.items ++ locations_segment values.now) }
{
    if values.is_empty() {
        return Ok(());
    }
    let words = initial_words(values, alloc)?;
    let bytes = bytes_of(&words, alloc)?;
    segments.push(Segment::new(RAM_START, bytes, DATA))?;
    Ok(())
}

/// The segments of a test.
fn segments_of(test: &LitmusTest, alloc: Global) -> Result<Vec<Segment>, AllocError>
    requires { IsWellFormed test.now }
    ensures { IfOk result (λ segments. IsLitmusImage test.now
        (record { ram = 65536; entry = code_begin; segments = segments.items })) }
{
    let bytes = code_bytes(test, alloc)?;
    let mut segments = Vec::new(alloc);
    push_locations(&mut segments, &test.words, alloc)?;
    segments.push(Segment::new(CODE_BEGIN, bytes, CODE))?;
    Ok(segments)
}

/// The program that a litmus test is: its locations as words from the start of RAM on, and its code, in which every
/// hart begins at the same entry. Wants memory.
pub fn image_of(test: &LitmusTest, alloc: Global) -> Result<Image, AllocError>
    requires { IsWellFormed test.now }
    ensures { IfOk result (λ image. IsLitmusImage test.now image) }
{
    let segments = segments_of(test, alloc)?;
    let ram = RamSize::new(RAM_BYTES).unwrap();
    Ok(Image::new(ram, CODE_BEGIN, segments))
}
