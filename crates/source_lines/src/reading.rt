//! The lines of a text.

ghost use Rattle.std.specs.Prelude.{◌≡◌, ◌∷◌, ◌++◌, true, IfOk, IfErr, Some, None};
ghost use Rattle.text_fields.specs.Splitting.{rest};
ghost use Rattle.source_lines.specs.Lines.{AreLinesOf, AreRising, IsOriginIn, line_text, origin_of, origins_of};
ghost use Rattle.source_lines.specs.Faults.{IsLinesRefusal, fault_of, is_behind};

use crate::line::{LineFault, SourceLine, read_line};
use elf_image::Image;
use std::alloc::Global;
use text_fields::{field_count, split_field};

/// The lines of an image's sources, by rising address.
#[derive(Drop)]
pub struct SourceLines<'a> {
    pub(crate) lines: Vec<SourceLine<'a>>,
    ghost rising: { AreRising (origins_of lines.items) },
}

/// Why there are no lines.
#[derive(Clone, Copy, Debug, PartialEq, Eq, Drop)]
pub enum LinesRefused {
    /// The line with this number, from 1, is the first that isn't one of this image, and why it isn't.
    Line { number: usize, fault: LineFault },
    /// There isn't enough memory.
    Memory,
}

/// The lines of the sources of this image that a text says. An empty text says none.
pub fn read_lines<'a>(
    text: &'a [u8],
    image: &Image,
    alloc: Global,
) -> Result<SourceLines<'a>, LinesRefused>
    ensures read { IfOk result (λ read. AreLinesOf image.now text.now (origins_of read.lines.items)) }
    ensures refused { IfErr result (IsLinesRefusal image.now text.now) }
{
    let mut lines = Vec::new(alloc);
    let mut left = text;
    let mut last = None;
    while !left.is_empty() {
        let line = match next_line(left, last, image) {
            Ok(line) => line,
            Err(fault) => {
                let number = lines.len() + 1;
                return Err(LinesRefused::Line { number, fault });
            }
        };
        if lines.push(line).is_err() {
            return Err(LinesRefused::Memory);
        }
        left = split_field(left, b'\n').1;
        last = Some(line.address);
    }
    Ok(SourceLines { lines })
}

/// The first line of a text, where it is one of the image's code, and behind the one with this address.
fn next_line<'a>(
    text: &'a [u8],
    last: Option<u32>,
    image: &Image,
) -> Result<SourceLine<'a>, LineFault>
    ensures cut { IfOk result
        (λ line. text.now ≡ line_text (origin_of line) ++ 10 ∷ rest 10 text.now) }
    ensures one { IfOk result (λ line. IsOriginIn image.now (origin_of line)) }
    ensures behind { IfOk result (λ line. is_behind last line.address ≡ true) }
    ensures fits { IfOk result (λ line. fault_of image.now last text.now ≡ None) }
    ensures refused { IfErr result (λ fault. fault_of image.now last text.now ≡ Some fault) }
{
    if field_count(text, b'\n') == 1 {
        return Err(LineFault::End);
    }
    let line = read_line(split_field(text, b'\n').0)?;
    if image.code_word(line.address).is_none() {
        return Err(LineFault::Outside);
    }
    if !is_behind(last, line.address) {
        return Err(LineFault::Order);
    }
    Ok(line)
}

/// Whether an address is behind the last one, if there is one.
fn is_behind(last: Option<u32>, address: u32) -> bool
    ensures { result ≡ is_behind last address }
{
    match last {
        None => true,
        Some(last) => last < address,
    }
}
