//! What the tests share: assertions that name the row of a table where they fail, and the rows of
//! tables of words. An assertion with a message of its own costs more to prove than a call of one of
//! these.

ghost use Rattle.std.specs.Prelude.{IfSome};
ghost use Rattle.rv_instr.specs.Table.{IsInstructionInRange};

use rv_decode::decode;
use rv_instr::Instr;
use rv_text::print;
use std::alloc::Global;
use std::fmt::Display;
use std::process::Abort;
use text_fields::read_hex;

/// Asserts what was found of a row, and names the row where it fails.
pub fn holds(rt: &impl Abort, row: &str, is: bool) {
    assert!(rt; is, "at {row:?}");
}

/// Asserts what was found of a word or a number, and names it where it fails.
pub fn holds_at(rt: &impl Abort, word: u32, is: bool) {
    assert!(rt; is, "at {word:#x}");
}

/// Asserts that a file is refused as wanted, and names its row and the number of the refusal that
/// came where it is not; 0 stands for none.
pub fn refuses(rt: &impl Abort, row: usize, found: Option<u8>, wanted: Option<u8>) {
    let came = found.unwrap_or(0);
    assert!(rt; found == wanted, "at row {row} came {came}");
}

/// The word and the text of a row: eight digits, a space, and the text.
pub fn word_and_text(row: &str) -> Option<(u32, &str)> {
    let (word, text) = row.split_once(' ')?;
    match read_hex(word.as_bytes(), 8) {
        Ok(word) => Some((word, text)),
        Err(_) => None,
    }
}

/// What a word is read as, where it is printed as this text at this address.
pub fn instr_of(word: u32, pc: u32, text: &str) -> Option<Instr>
    ensures { IfSome result IsInstructionInRange }
{
    let instr = decode(word)?;
    if print(instr, pc).as_str() == text {
        Some(instr)
    } else {
        None
    }
}

/// Whether a value is printed as this text.
pub fn says<T: Display>(value: &T, text: &str, alloc: Global) -> bool {
    match value.to_string(alloc) {
        Ok(printed) => printed.as_str() == text,
        Err(_) => false,
    }
}
