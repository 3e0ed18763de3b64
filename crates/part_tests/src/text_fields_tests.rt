//! Fields of a line: printed, read, and read as the first of a text.

use crate::rows::holds;
use arrayvec::ArrayString;
use text_fields::{
    FieldError, field_count, first_decimal, first_hex, first_optional_hex, push_ascii,
    push_decimal, push_hex, push_number, push_small_number, read_decimal, read_hex,
    read_optional_decimal, read_optional_hex, read_signed_decimal, split_field,
};

#[test]
fn prints_one_field_after_the_other(rt: HostRuntime) {
    let mut text = ArrayString::<64>::new();
    push_decimal(&mut text, 0u8);
    push_ascii(&mut text, b' ');
    push_decimal(&mut text, 4_294_967_295u32);
    push_ascii(&mut text, b',');
    push_decimal(&mut text, -2048i16);
    push_ascii(&mut text, b' ');
    push_hex(&mut text, 0x8000_0018, 8);
    push_ascii(&mut text, b' ');
    push_hex(&mut text, 0xab, 2);
    push_hex(&mut text, 7, 4);
    push_hex(&mut text, 0x80001, 5);
    assert!(rt; text.as_str() == "0 4294967295,-2048 80000018 ab000780001");
}

/// Numbers of every length.
static NUMBERS: [(u32, &str); 16] = [
    (0, "0"),
    (9, "9"),
    (10, "10"),
    (99, "99"),
    (100, "100"),
    (503, "503"),
    (1000, "1000"),
    (9999, "9999"),
    (10_000, "10000"),
    (70_605, "70605"),
    (240_100, "240100"),
    (1_000_000, "1000000"),
    (16_777_215, "16777215"),
    (99_999_999, "99999999"),
    (100_000_000, "100000000"),
    (u32::MAX, "4294967295"),
];

#[test]
fn prints_numbers_of_every_length(rt: HostRuntime) {
    for (number, want) in &NUMBERS {
        let mut text = ArrayString::<10>::new();
        push_decimal(&mut text, *number);
        holds(&rt, want, text.as_str() == *want);
    }
}

#[test]
fn prints_a_space_and_numbers_of_every_length(rt: HostRuntime) {
    for (number, want) in &NUMBERS {
        let mut text = ArrayString::<11>::new();
        push_ascii(&mut text, b' ');
        push_number(&mut text, *number);
        let (before, digits) = split_field(text.as_bytes(), b' ');
        holds(&rt, want, before.is_empty() && digits == want.as_bytes());
    }
}

#[test]
fn prints_numbers_of_one_byte(rt: HostRuntime) {
    let mut text = ArrayString::<12>::new();
    push_small_number(&mut text, 7);
    push_small_number(&mut text, 15);
    push_small_number(&mut text, 100);
    push_small_number(&mut text, 255);
    assert!(rt; text.as_str() == "715100255");
}

const MISSPELLED: Result<u32, FieldError> = Err(FieldError::Misspelled);

const OUT_OF_RANGE: Result<u32, FieldError> = Err(FieldError::OutOfRange);

/// Numbers up to 15.
static DECIMAL: [(&str, Result<u32, FieldError>); 10] = [
    ("0", Ok(0)),
    ("15", Ok(15)),
    ("16", OUT_OF_RANGE),
    ("99999999999999999999999", OUT_OF_RANGE),
    ("", MISSPELLED),
    ("00", MISSPELLED),
    ("015", MISSPELLED),
    ("+5", MISSPELLED),
    ("5 ", MISSPELLED),
    ("a", MISSPELLED),
];

#[test]
fn reads_decimal_numbers_in_their_one_spelling(rt: HostRuntime) {
    for (text, want) in &DECIMAL {
        holds(&rt, text, read_decimal(text.as_bytes(), 15) == *want);
    }
}

#[test]
fn reads_a_dash_as_no_number(rt: HostRuntime) {
    let decimal = [
        read_optional_decimal(b"-", 503),
        read_optional_decimal(b"503", 503),
        read_optional_decimal(b"504", 503),
    ];
    assert!(rt; decimal == [Ok(None), Ok(Some(503)), Err(FieldError::OutOfRange)]);
    let hex = [
        read_optional_hex(b"-", 8),
        read_optional_hex(b"ffffffff", 8),
    ];
    assert!(rt; hex == [Ok(None), Ok(Some(u32::MAX))]);
}

/// Numbers of twelve bits.
static SIGNED: [(&str, Result<i32, FieldError>); 8] = [
    ("-2048", Ok(-2048)),
    ("-1", Ok(-1)),
    ("2047", Ok(2047)),
    ("2048", Err(FieldError::OutOfRange)),
    ("-2049", Err(FieldError::OutOfRange)),
    ("-0", Err(FieldError::Misspelled)),
    ("-", Err(FieldError::Misspelled)),
    ("--1", Err(FieldError::Misspelled)),
];

#[test]
fn reads_signed_numbers_of_twelve_bits(rt: HostRuntime) {
    for (text, want) in &SIGNED {
        holds(
            &rt,
            text,
            read_signed_decimal(text.as_bytes(), 2048) == *want,
        );
    }
}

/// Numbers of five digits.
static HEXADECIMAL: [(&str, Result<u32, FieldError>); 7] = [
    ("80001", Ok(0x80001)),
    ("000af", Ok(0xaf)),
    ("000AF", MISSPELLED),
    ("0000af", MISSPELLED),
    ("00af", MISSPELLED),
    ("0x0af", MISSPELLED),
    ("000ag", MISSPELLED),
];

#[test]
fn reads_lower_case_hexadecimal_of_the_given_length(rt: HostRuntime) {
    for (text, want) in &HEXADECIMAL {
        holds(&rt, text, read_hex(text.as_bytes(), 5) == *want);
    }
}

/// A text, how many fields it has, the first field, and what comes behind its separator.
#[derive(Clone, Copy, Drop)]
struct Cut {
    text: &'static str,
    count: usize,
    first: &'static str,
    others: &'static str,
}

macro_rules! cut {
    ($text:expr, $count:expr, $first:expr, $others:expr) => {
        Cut {
            text: $text,
            count: $count,
            first: $first,
            others: $others,
        }
    };
}

static CUT: [Cut; 5] = [
    cut!("C 5 5", 3, "C", "5 5"),
    cut!("C", 1, "C", ""),
    cut!(" C", 2, "", "C"),
    cut!("C ", 2, "C", ""),
    cut!("", 1, "", ""),
];

#[test]
fn cuts_a_text_at_its_first_separator(rt: HostRuntime) {
    for cut in &CUT {
        let text = cut.text.as_bytes();
        holds(&rt, cut.text, field_count(text, b' ') == cut.count);
        let (first, others) = split_field(text, b' ');
        holds(&rt, cut.text, first == cut.first.as_bytes());
        holds(&rt, cut.text, others == cut.others.as_bytes());
    }
}

/// A text, and its first field with the text of the others.
type First<N> = (&'static str, Result<(N, &'static [u8]), FieldError>);

/// Numbers of 24 bits before a newline.
static FIRST_DECIMAL: [First<u32>; 12] = [
    ("7\nD 1 8\n", Ok((7, b"D 1 8\n"))),
    ("1234567\nD 1 8\n", Ok((1_234_567, b"D 1 8\n"))),
    ("0\nD 1 8\n", Ok((0, b"D 1 8\n"))),
    ("07\nD 1 8\n", Err(FieldError::Misspelled)),
    ("12 34567\n", Err(FieldError::Misspelled)),
    ("\n1234567\n", Err(FieldError::Misspelled)),
    ("12345678\n", Ok((12_345_678, b""))),
    ("7", Ok((7, b""))),
    ("16777215\n\n", Ok((16_777_215, b"\n"))),
    ("16777216\n7", Err(FieldError::OutOfRange)),
    ("99999999999999999999999\n7", Err(FieldError::OutOfRange)),
    ("99999999999999999999999x\n7", Err(FieldError::Misspelled)),
];

#[test]
fn reads_a_decimal_number_that_a_newline_ends(rt: HostRuntime) {
    for (text, want) in &FIRST_DECIMAL {
        holds(
            &rt,
            text,
            first_decimal(text.as_bytes(), 16_777_215, b'\n') == *want,
        );
    }
}

/// Numbers up to 15 before a space.
static FIRST_SMALL: [First<u32>; 5] = [
    ("9 1", Ok((9, b"1"))),
    ("15 1 2 3", Ok((15, b"1 2 3"))),
    ("16 1 2 3", Err(FieldError::OutOfRange)),
    ("9\n", Err(FieldError::Misspelled)),
    ("a 1", Err(FieldError::Misspelled)),
];

#[test]
fn reads_a_small_number_that_a_space_ends(rt: HostRuntime) {
    for (text, want) in &FIRST_SMALL {
        holds(&rt, text, first_decimal(text.as_bytes(), 15, b' ') == *want);
    }
}

/// Numbers of eight digits before a space.
static FIRST_HEX: [First<u32>; 6] = [
    ("8000000c 1", Ok((0x8000_000c, b"1"))),
    ("8000000c", Ok((0x8000_000c, b""))),
    ("8000000c\n", Err(FieldError::Misspelled)),
    ("8000000C 1", Err(FieldError::Misspelled)),
    ("800000c 1", Err(FieldError::Misspelled)),
    ("8000000cc 1", Err(FieldError::Misspelled)),
];

#[test]
fn reads_a_hexadecimal_number_that_a_space_ends(rt: HostRuntime) {
    for (text, want) in &FIRST_HEX {
        holds(&rt, text, first_hex(text.as_bytes(), 8, b' ') == *want);
    }
}

/// Numbers of two digits, or none, before a newline.
static FIRST_OPTIONAL: [First<Option<u32>>; 6] = [
    ("-\nI", Ok((None, b"I"))),
    ("-", Ok((None, b""))),
    ("0a\nI", Ok((Some(10), b"I"))),
    ("- I", Err(FieldError::Misspelled)),
    ("-I", Err(FieldError::Misspelled)),
    ("0\nI", Err(FieldError::Misspelled)),
];

#[test]
fn reads_a_dash_that_a_newline_ends_as_no_number(rt: HostRuntime) {
    for (text, want) in &FIRST_OPTIONAL {
        holds(
            &rt,
            text,
            first_optional_hex(text.as_bytes(), 2, b'\n') == *want,
        );
    }
}
