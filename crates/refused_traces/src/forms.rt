//! What the fields of a trace's lines may be.

use event_text::Ranges;
use events::{EventKind, Role};
use numbers::sizes::{FEWEST_QUEUED, MOST_EXTRA, MOST_HARTS, MOST_QUEUED};
use std::io;
use std::io::Write;
use text_fields::{FieldError, read_decimal, read_hex, read_optional_decimal, read_optional_hex};

/// What may stand in a field.
#[derive(Clone, Copy, Drop)]
pub(crate) enum Form {
    /// A decimal number in a range.
    Number { least: u32, most: u32 },
    /// One of at most so much, or none.
    OptionalNumber(u32),
    /// A word as eight hexadecimal digits.
    Word,
    OptionalWord,
    /// What comes next.
    Next,
    /// What is written, as digits of 1, 2 or 4 bytes, or none.
    OptionalSized,
    OptionalByte,
    Role,
}

/// A field by its name.
#[derive(Clone, Copy, Drop)]
pub(crate) struct Field {
    pub(crate) name: &'static str,
    pub(crate) form: Form,
}

fn up_to(name: &'static str, most: u32) -> Field {
    Field {
        name,
        form: Form::Number { least: 0, most },
    }
}

/// The field at a place behind the letter of an event, the first at 0.
pub(crate) fn event_field(kind: EventKind, place: usize, ranges: Ranges) -> Field {
    match kind {
        _ if place == 0 => up_to("actor", u32::from(ranges.actor)),
        EventKind::Fetch => fetch_field(place, ranges),
        _ if place == 1 => up_to("number", ranges.seq),
        EventKind::Rename => Field {
            name: "register",
            form: Form::OptionalNumber(u32::from(ranges.phys)),
        },
        EventKind::Retire if place == 5 => Field {
            name: "data",
            form: Form::OptionalSized,
        },
        _ => result_field(place),
    }
}

fn fetch_field(place: usize, ranges: Ranges) -> Field {
    match place {
        1 => up_to("hart", u32::from(ranges.hart)),
        2 => up_to("number", ranges.seq),
        3 => Field {
            name: "pc",
            form: Form::Word,
        },
        4 => Field {
            name: "word",
            form: Form::OptionalWord,
        },
        _ => Field {
            name: "predicted",
            form: Form::Word,
        },
    }
}

/// A field of a completion behind its number, or of a retirement.
fn result_field(place: usize) -> Field {
    match place {
        2 => Field {
            name: "value",
            form: Form::OptionalWord,
        },
        3 => Field {
            name: "next",
            form: Form::Next,
        },
        4 => Field {
            name: "address",
            form: Form::OptionalWord,
        },
        5 => Field {
            name: "data",
            form: Form::OptionalWord,
        },
        _ => Field {
            name: "out",
            form: Form::OptionalByte,
        },
    }
}

/// The field at a place of the line of a core, the first behind `config` at 0.
pub(crate) fn config_field(place: usize) -> Field {
    match place {
        0 => Field {
            name: "harts",
            form: Form::Number {
                least: 1,
                most: u32::from(MOST_HARTS),
            },
        },
        1 => Field {
            name: "extra",
            form: Form::Number {
                least: 1,
                most: u32::from(MOST_EXTRA),
            },
        },
        2 => Field {
            name: "queue",
            form: Form::Number {
                least: u32::from(FEWEST_QUEUED),
                most: MOST_QUEUED as u32,
            },
        },
        _ => Field {
            name: "role",
            form: Form::Role,
        },
    }
}

impl Form {
    /// Whether a field may be this text.
    pub(crate) fn accepts(self, text: &[u8]) -> bool {
        match self {
            Form::Number { least, most } => is_number(text, least, most),
            Form::OptionalNumber(most) => read_optional_decimal(text, most).is_ok(),
            Form::Word => read_hex(text, 8).is_ok(),
            Form::OptionalWord => read_optional_hex(text, 8).is_ok(),
            Form::Next => is_next(text),
            Form::OptionalSized => is_sized(text),
            Form::OptionalByte => read_optional_hex(text, 2).is_ok(),
            Form::Role => Role::named(text).is_some(),
        }
    }

    /// Writes what may stand there.
    pub(crate) fn write<W: Write>(self, out: &mut W) -> io::Result<()> {
        match self {
            Form::Number { least, most } => write!(out, "a number from {least} to {most}"),
            Form::OptionalNumber(most) => write!(out, "a number from 0 to {most}, or -"),
            form => out.write_all(form.text().as_bytes()),
        }
    }

    /// The words of a form that has no range.
    fn text(self) -> &'static str {
        match self {
            Form::Word => "8 hexadecimal digits",
            Form::OptionalWord => "8 hexadecimal digits, or -",
            Form::Next => "p and 8 hexadecimal digits, e and 8, or s and a cause from 0 to 8",
            Form::OptionalSized => "2, 4 or 8 hexadecimal digits, or -",
            Form::OptionalByte => "2 hexadecimal digits, or -",
            Form::Role => "fetch, front, retire, alu, mul or mem",
            Form::Number { .. } | Form::OptionalNumber(_) => "a number",
        }
    }
}

fn is_number(text: &[u8], least: u32, most: u32) -> bool {
    match read_decimal(text, most) {
        Ok(number) => least <= number,
        Err(FieldError::Misspelled | FieldError::OutOfRange) => false,
    }
}

fn is_next(text: &[u8]) -> bool {
    if text.is_empty() {
        return false;
    }
    match text[0] {
        b'p' | b'e' => read_hex(&text[1..], 8).is_ok(),
        b's' => read_decimal(&text[1..], 8).is_ok(),
        _ => false,
    }
}

fn is_sized(text: &[u8]) -> bool {
    match text.len() {
        1 => text[0] == b'-',
        2 | 4 | 8 => read_hex(text, text.len()).is_ok(),
        _ => false,
    }
}
