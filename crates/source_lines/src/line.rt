//! A line, as its text has it.

ghost use Rattle.std.specs.Prelude.{◌≡◌, ◌≢◌, ◌≤◌, IfOk, IfErr, Some, None, [], reverse};
ghost use Rattle.text_fields.specs.Splitting.{rest};
ghost use Rattle.source_lines.specs.Lines.{line_text, origin_of};
ghost use Rattle.source_lines.specs.Faults.{address_in, number_in, spelling_fault};

use std::fmt;
use text_fields::{read_decimal, read_hex, split_field};

/// Where a word of the code comes from.
#[derive(Clone, Copy, Drop)]
pub struct SourceLine<'a> {
    /// The word's address.
    pub address: u32,
    /// The name of the file, not empty.
    pub file: &'a [u8],
    /// The line in it, from 1.
    pub number: u32,
}

/// Why a line is refused, in the order in which it is looked at.
#[derive(Clone, Copy, Debug, PartialEq, Eq, Drop)]
pub enum LineFault {
    /// No newline stands behind it.
    End,
    /// It doesn't begin with an address.
    Address,
    /// No name of a file stands behind the address.
    File,
    /// No number of a line stands behind the name.
    Number,
    /// No word of the image's code is at its address.
    Outside,
    /// Its address isn't behind that of the line before.
    Order,
}

impl fmt::Display for LineFault {
    fn fmt<W: fmt::Write>(&self, f: &mut fmt::Formatter<W>) -> fmt::Result {
        match self {
            LineFault::End => f.write_str("no newline behind it"),
            LineFault::Address => f.write_str("no address"),
            LineFault::File => f.write_str("no file"),
            LineFault::Number => f.write_str("no line number"),
            LineFault::Outside => f.write_str("no word of the code is there"),
            LineFault::Order => f.write_str("not behind the address before"),
        }
    }
}

/// The line that a text is, without its newline: an address, a file and a number, with one space between two of them.
pub(crate) fn read_line(text: &[u8]) -> Result<SourceLine<'_>, LineFault>
    ensures read { IfOk result (λ line. line_text (origin_of line) ≡ text.now) }
    ensures address { IfOk result (λ line. address_in text.now ≡ line.address) }
    ensures named { IfOk result (λ line. line.file.now ≢ []) }
    ensures from_one { IfOk result (λ line. 1 ≤ line.number) }
    ensures fits { IfOk result (λ line. spelling_fault text.now ≡ None) }
    ensures refused { IfErr result (λ fault. spelling_fault text.now ≡ Some fault) }
{
    let (address, others) = split_field(text, b' ');
    let Ok(address) = read_hex(address, 8) else {
        return Err(LineFault::Address);
    };
    let (file, number) = split_last(others);
    if file.is_empty() {
        return Err(LineFault::File);
    }
    match read_decimal(number, u32::MAX) {
        Ok(0) | Err(_) => Err(LineFault::Number),
        Ok(number) => Ok(SourceLine {
            address,
            file,
            number,
        }),
    }
}

/// What stands before the last space, and what behind it; nothing before it where there is none.
fn split_last(text: &[u8]) -> (&[u8], &[u8])
    ensures before { result.0.now ≡ reverse (rest 32 (reverse text.now)) }
    ensures behind { result.1.now ≡ number_in text.now }
{
    for back in 0..text.len() {
        let place = text.len() - 1 - back;
        if text[place] == b' ' {
            return (&text[..place], &text[place + 1..]);
        }
    }
    (&[], text)
}
