//! What a word is that begins with a digit.

ghost use Rattle.std.specs.Prelude.{◌≡◌, ◌≤◌, ◌<◌, ◌+◌, ◌*◌, ◌^◌, ℕ, true, false, List};
ghost use Rattle.std.specs.Prelude.{All, IfErr, IfNone, IfOk, IfSome};
ghost use Rattle.litmus_words.specs.Numbers.{
  IsHexadecimal,
  SpellsDigits,
  SpellsNumeral,
  digit_value,
  is_digit,
  number_after,
};

use crate::refused::Fault;

/// The number that a word spells: decimal, also with zeros before it, or hexadecimal behind `0x` or `0X`.
pub fn number_of_word(word: &[u8]) -> Result<u32, Fault>
    ensures found { IfOk result (SpellsNumeral word.now) }
    ensures refused { IfErr result (λ _. (number : ℕ) → number < 2 ^ 32 → SpellsNumeral word.now number → ⊥) }
{
    match hexadecimal_digits(word) {
        Some(digits) => number_of(16, digits),
        None => number_of(10, word),
    }
}

/// The digits behind `0x` or `0X`.
fn hexadecimal_digits(word: &[u8]) -> Option<&[u8]>
    ensures found { IfSome result (λ digits. IsHexadecimal word.now digits.now) }
    ensures none { IfNone result ((digits : List ℕ) → IsHexadecimal word.now digits → ⊥) }
{
    let Some((zero, rest)) = word.split_first() else {
        return None;
    };
    if *zero != b'0' {
        return None;
    }
    let Some((letter, digits)) = rest.split_first() else {
        return None;
    };
    if *letter == b'x' {
        return Some(digits);
    }
    if *letter == b'X' {
        return Some(digits);
    }
    None
}

/// The number that digits of a base spell, of which there is one at least.
fn number_of(base: u8, digits: &[u8]) -> Result<u32, Fault>
    requires { (1 ≤ base) × (base ≤ 16) }
    ensures found { IfOk result (SpellsDigits base digits.now) }
    ensures refused { IfErr result (λ _. (number : ℕ) → number < 2 ^ 32 → SpellsDigits base digits.now number → ⊥) }
{
    if digits.is_empty() {
        return Err(Fault::NotOfSubset);
    }
    if !are_digits(base, digits) {
        return Err(Fault::NotOfSubset);
    }
    match number_after(base, digits) {
        Some(number) => Ok(number),
        None => Err(Fault::NumberTooLarge),
    }
}

fn are_digits(base: u8, digits: &[u8]) -> bool
    ensures are { result ≡ true → All (λ digit. is_digit base digit ≡ true) digits.now }
    ensures other { result ≡ false → All (λ digit. is_digit base digit ≡ true) digits.now → ⊥ }
{
    for digit in digits {
        if !is_digit(base, *digit) {
            return false;
        }
    }
    true
}

/// The number that digits write, if it has 32 bits.
fn number_after(base: u8, digits: &[u8]) -> Option<u32>
    requires { (1 ≤ base) × (base ≤ 16) }
    ensures found { IfSome result (λ number. number ≡ number_after base 0 digits.now) }
    ensures none { IfNone result (2 ^ 32 ≤ number_after base 0 digits.now) }
{
    let mut number = 0;
    for digit in digits {
        let Some(more) = with_digit(base, number, *digit) else {
            return None;
        };
        number = more;
    }
    Some(number)
}

/// The number with one digit more.
fn with_digit(base: u8, number: u32, digit: u8) -> Option<u32>
    requires { base ≤ 16 }
    ensures found { IfSome result (λ more. more ≡ number * base + digit_value digit) }
    ensures none { IfNone result (2 ^ 32 ≤ number * base + digit_value digit) }
{
    let more = u64::from(number) * u64::from(base) + u64::from(digit_value(digit));
    if more > u64::from(u32::MAX) {
        return None;
    }
    Some(more as u32)
}

/// Whether a byte is a digit of base 10, or of base 16 in either case.
fn is_digit(base: u8, digit: u8) -> bool
    ensures { result ≡ is_digit base digit }
{
    if base == 16 {
        digit.is_ascii_hexdigit()
    } else {
        digit.is_ascii_digit()
    }
}

/// The number that a digit stands for.
fn digit_value(digit: u8) -> u8
    ensures { result ≡ digit_value digit }
{
    if digit < 58 {
        return digit.saturating_sub(48);
    }
    if digit < 97 {
        return digit.saturating_sub(55);
    }
    digit.saturating_sub(87)
}
