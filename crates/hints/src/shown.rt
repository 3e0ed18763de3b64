//! A text as it stands in a hint.

ghost use Rattle.std.specs.Prelude.{◌≡◌, IfOk, true};
ghost use Rattle.shown_text.specs.Shown.{shown};
ghost use Rattle.hints.specs.Lines.{are_shown};

use arrayvec::ArrayString;
use shown_text::write_shown;
use std::alloc::{AllocError, Global};
use std::str;
use text_fields::push_hex;

/// The most bytes of a text that are shown.
pub(crate) const MOST_SHOWN: usize = 200;

/// The text as it is shown: of a longer one the first 200 bytes, or a few less where these end within a
/// character, and `...`; each control character as `\x` and two hexadecimal digits, and where the text isn't
/// UTF-8 each byte from 80 on too.
pub(crate) fn shown_text(text: &[u8], alloc: Global) -> Result<Vec<u8>, AllocError>
    ensures { IfOk result (λ shown. are_shown shown.items ≡ true) }
{
    let (begin, is_cut) = beginning(text);
    if str::from_utf8(begin).is_ok() {
        return escaped(begin, is_cut, alloc);
    }
    let ascii = ascii_of(begin, alloc)?;
    escaped(&ascii, is_cut, alloc)
}

/// A text without control characters, and what tells that it was cut, where it was.
#[tactic(auto, using(crate::proofs::AllShown::shown_is_shown, crate::proofs::AllShown::cut_shown))]
fn escaped(text: &[u8], is_cut: bool, alloc: Global) -> Result<Vec<u8>, AllocError>
    ensures { IfOk result (λ shown. are_shown shown.items ≡ true) }
{
    let mut shown = escaped_whole(text, alloc)?;
    if is_cut {
        shown.extend_from_slice(b"...")?;
    }
    Ok(shown)
}

/// A text without control characters.
fn escaped_whole(text: &[u8], alloc: Global) -> Result<Vec<u8>, AllocError>
    ensures { IfOk result (λ escaped. escaped.items ≡ shown text.now) }
{
    let mut escaped = Vec::new(alloc);
    match write_shown(text, &mut escaped) {
        Ok(()) => Ok(escaped),
        Err(_) => Err(AllocError),
    }
}

/// As much of a text as is shown, and whether there is more of it.
fn beginning(text: &[u8]) -> (&[u8], bool) {
    match text.get(..whole_characters(text)) {
        Some(begin) => (begin, begin.len() < text.len()),
        None => (text, false),
    }
}

/// How many bytes of a longer text are shown: so many that the next one begins a character, where one of the
/// last four does.
fn whole_characters(text: &[u8]) -> usize {
    for less in 0..4 {
        let count = MOST_SHOWN - less;
        match text.get(count) {
            Some(next) if is_within(*next) => {}
            _ => return count,
        }
    }
    MOST_SHOWN
}

/// Whether a byte goes on with a character of UTF-8.
fn is_within(byte: u8) -> bool {
    byte & 0xc0 == 0x80
}

/// A text with `\x` and two hexadecimal digits for each byte from 80 on.
fn ascii_of(text: &[u8], alloc: Global) -> Result<Vec<u8>, AllocError> {
    let mut ascii = Vec::new(alloc);
    for byte in text {
        if *byte < 0x80 {
            ascii.push(*byte)?;
        } else {
            let mut escape = ArrayString::<4>::new();
            escape.push_str("\\x");
            push_hex(&mut escape, u32::from(*byte), 2);
            ascii.extend_from_slice(escape.as_bytes())?;
        }
    }
    Ok(ascii)
}
