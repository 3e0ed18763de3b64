ghost use Rattle.std.specs.Prelude.{◌≡◌, ◌+◌, ◌≤◌, ◌++◌, OnOk};
ghost use Rattle.std.specs.Io.KnownBytes.{Appends};
ghost use Rattle.arrayvec.specs.ArrayString.{array_string_len};
ghost use Rattle.rv_instr.specs.Decode.{decoded};
ghost use Rattle.address_labels.specs.Labels.{marks_of};
ghost use Rattle.reports.specs.Listing.{text_of, field_of, listing_line, listing_text};

use address_labels::{Form, Labels, write_labels};
use arrayvec::ArrayString;
use elf_image::Image;
use rv_decode::decode;
use std::io;
use std::io::Write;
use text_fields::{push_ascii, push_hex};

/// Room for an address, a word and the spelling of an instruction.
type Line = ArrayString<64>;

/// Writes a line for each word of the code, by rising address: the address and the word as eight
/// hexadecimal digits, the spelling of its instruction there, or `.word` where it is none, and what is
/// wanted beside the address. The code ends behind its zeros. Where it answers Ok, it has written
/// exactly these lines.
pub fn list<W: Write>(image: &Image, labels: &Labels<'_>, out: &mut W) -> io::Result<()>
    ensures { OnOk result (Appends (W.contents out.old) (W.contents out.new)
        (listing_text (marks_of labels.now) image.now)) }
{
    let (start, size) = image.code();
    for index in 0..size / 4 {
        let pc = start + 4 * index;
        // Each address of the code that is a multiple of 4 has a word.
        let word = image.code_word(pc).unwrap();
        write_line(pc, word, labels, out)?;
    }
    Ok(())
}

fn write_line<W: Write>(pc: u32, word: u32, labels: &Labels<'_>, out: &mut W) -> io::Result<()>
    ensures { OnOk result (Appends (W.contents out.old) (W.contents out.new)
        (listing_line (marks_of labels.now) pc word)) }
{
    let mut line = Line::new();
    push_field(&mut line, pc);
    push_field(&mut line, word);
    push_text(&mut line, pc, word);
    out.write_all(line.as_bytes())?;
    write_labels(labels, Form::Listing, pc, out)?;
    out.write_all(b"\n")
}

/// Appends an address or a word, and a space.
#[tactic(auto, unfolding(crate::specs::Listing::field_of))]
fn push_field(line: &mut Line, number: u32)
    requires { array_string_len line.old + 9 ≤ 64 }
    ensures spelled { line.new.bytes ≡ line.old.bytes ++ field_of number }
    ensures length { array_string_len line.new ≡ array_string_len line.old + 9 }
{
    push_hex(line, number, 8);
    push_ascii(line, b' ');
}

/// Appends what a word says at an address.
fn push_text(line: &mut Line, pc: u32, word: u32)
    requires { array_string_len line.old + 40 ≤ 64 }
    ensures spelled { line.new.bytes ≡ line.old.bytes ++ text_of (decoded word) pc }
    ensures length { array_string_len line.new ≤ array_string_len line.old + 40 }
{
    match decode(word) {
        Some(instr) => line.push_str(rv_text::print(instr, pc).as_str()),
        None => line.push_str(".word"),
    }
}
