//! The name of a file, to be typed.

use crate::shown::{escape_of, is_control};
use std::io;
use std::io::Write;

/// Writes the name of a file so that a shell takes it as one word, and a command line as a file: as it
/// is, where that does; else in single quotes, with `'\''` for a quote; and where a control character is
/// in it, in `$'..'`, with `\x` and its two hexadecimal digits for each. `./` stands before a name that
/// would be an option.
pub fn write_file_name<W: Write>(name: &str, out: &mut W) -> io::Result<()> {
    let bytes = name.as_bytes();
    if is_option(bytes) {
        out.write_all(b"./")?;
    }
    write_word(bytes, out)
}

/// Whether a command line would take a name for options; a dash alone is standard input.
fn is_option(name: &[u8]) -> bool {
    name.len() > 1 && name.first() == Some(&b'-')
}

fn write_word<W: Write>(bytes: &[u8], out: &mut W) -> io::Result<()> {
    if is_plain(bytes) {
        return out.write_all(bytes);
    }
    if bytes.iter().any(|byte| is_control(*byte)) {
        write_escaped(bytes, out)
    } else {
        write_quoted(bytes, out)
    }
}

/// Whether no shell sees more in a word than its letters.
fn is_plain(word: &[u8]) -> bool {
    !word.is_empty() && word.iter().all(|byte| is_plain_byte(*byte))
}

fn is_plain_byte(byte: u8) -> bool {
    byte.is_ascii_alphanumeric()
        || matches!(
            byte,
            b'_' | b'-' | b'.' | b'/' | b',' | b':' | b'+' | b'@' | b'%'
        )
}

/// Writes a word without control characters in single quotes.
fn write_quoted<W: Write>(word: &[u8], out: &mut W) -> io::Result<()> {
    out.write_all(b"'")?;
    for byte in word {
        match byte {
            b'\'' => out.write_all(b"'\\''")?,
            _ => out.write_all(&[*byte])?,
        }
    }
    out.write_all(b"'")
}

/// Writes a word in the quotes in which a shell reads escapes.
fn write_escaped<W: Write>(word: &[u8], out: &mut W) -> io::Result<()> {
    out.write_all(b"$'")?;
    for byte in word {
        match byte {
            b'\'' => out.write_all(b"\\'")?,
            b'\\' => out.write_all(b"\\\\")?,
            _ if is_control(*byte) => out.write_all(escape_of(*byte).as_bytes())?,
            _ => out.write_all(&[*byte])?,
        }
    }
    out.write_all(b"'")
}
