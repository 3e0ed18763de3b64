//! What the tests share: assertions that name the row of a table where they fail. An assertion with
//! a message of its own costs more to prove than a call of one of these.

use std::alloc::Global;
use std::fmt::Display;
use std::process::Abort;
use std::str;

/// Asserts what was found of a row, and names the row where it fails.
pub fn holds(rt: &impl Abort, row: &str, is: bool) {
    assert!(rt; is, "at {row:?}");
}

/// Asserts what was found of a row, and shows what came where it fails.
pub fn shows(rt: &impl Abort, row: &str, came: &str, is: bool) {
    assert!(rt; is, "at {row:?} came {came:?}");
}

/// Asserts what was found of a line, and shows how it ended where it fails.
pub fn ends(rt: &impl Abort, row: &str, status: u8, printed: &str, is: bool) {
    assert!(rt; is, "at {row:?} came status {status} and {printed:?}");
}

/// The text of bytes.
pub fn text_of(bytes: &[u8]) -> &str {
    str::from_utf8(bytes).unwrap_or("not UTF-8")
}

/// Whether a value is printed as this text.
pub fn says<T: Display>(value: &T, text: &str, alloc: Global) -> bool {
    match value.to_string(alloc) {
        Ok(printed) => printed.as_str() == text,
        Err(_) => false,
    }
}
