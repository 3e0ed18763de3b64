//! The hexadecimal digits of a byte, from a table. Each digit computed by itself, and decimal numbers without
//! `numbers`, took 105 instructions more of an event of `step`, of some 1,000.

ghost use Rattle.std.specs.Prelude.{◌≡◌, ◌+◌, ◌/◌, ◌%◌, ◌<◌, false, IsAscii};
ghost use Rattle.std.specs.Fmt.{digit_glyph};
ghost use Rattle.text_fields.specs.Spelling.{hex};

// The two digits of each byte, from `00` to `ff`.
static PAIRS: [u8; 512] = *b"000102030405060708090a0b0c0d0e0f101112131415161718191a1b1c1d1e1f\
    202122232425262728292a2b2c2d2e2f303132333435363738393a3b3c3d3e3f\
    404142434445464748494a4b4c4d4e4f505152535455565758595a5b5c5d5e5f\
    606162636465666768696a6b6c6d6e6f707172737475767778797a7b7c7d7e7f\
    808182838485868788898a8b8c8d8e8f909192939495969798999a9b9c9d9e9f\
    a0a1a2a3a4a5a6a7a8a9aaabacadaeafb0b1b2b3b4b5b6b7b8b9babbbcbdbebf\
    c0c1c2c3c4c5c6c7c8c9cacbcccdcecfd0d1d2d3d4d5d6d7d8d9dadbdcdddedf\
    e0e1e2e3e4e5e6e7e8e9eaebecedeeeff0f1f2f3f4f5f6f7f8f9fafbfcfdfeff";

// The digit of the sixteens.
#[inline]
pub(crate) fn high_digit(byte: u8) -> u8
    ensures spelled { result ≡ digit_glyph false (byte / 16) }
    ensures ascii { result < 128 }
{
    PAIRS[2 * byte as usize]
}

// The digit of the ones.
#[inline]
pub(crate) fn low_digit(byte: u8) -> u8
    ensures spelled { result ≡ digit_glyph false (byte % 16) }
    ensures ascii { result < 128 }
{
    PAIRS[2 * byte as usize + 1]
}

// The eight digits of a number.
#[inline]
pub(crate) fn word_digits(value: u32) -> [u8; 8]
    ensures spelled { result ≡ hex 8 value }
    ensures ascii { IsAscii result }
{
    let first = (value / 0x100_0000) as u8;
    let second = (value / 0x1_0000 % 256) as u8;
    let third = (value / 0x100 % 256) as u8;
    let last = (value % 256) as u8;
    [
        high_digit(first),
        low_digit(first),
        high_digit(second),
        low_digit(second),
        high_digit(third),
        low_digit(third),
        high_digit(last),
        low_digit(last),
    ]
}
