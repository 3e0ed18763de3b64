//! What a name and a number are.

ghost use Rattle.std.specs.Prelude.{◌≡◌, ◌∷◌, ◌<◌, ◌^◌, ℕ, true, length, slice_index, IfNone, IfSome};
ghost use Rattle.std.specs.Fmt.{decimal};
ghost use Rattle.litmus_tests.specs.declared.number_type.NumberType.{NumberType as AnyType};
ghost use Rattle.litmus_words.specs.declared.word.Mark.{Mark as AnyMark};
ghost use Rattle.litmus_words.specs.Words.{
  is_of_name,
  IsKeywordNamed,
  IsNameToken,
  IsRegisterNamed,
  IsSignNamed,
  IsTypeNamed,
};

use crate::mnemonic::mnemonic_named;
use crate::word::{Mark, Token};
use litmus_tests::{NumberType, Width};
use numbers::Reg;
use rv_text::register_named;
use std::str;
use text_fields::read_decimal;

/// Whether a name or a number goes on with this byte.
pub fn is_of_name(byte: u8) -> bool
    ensures { result ≡ is_of_name byte }
{
    byte.is_ascii_alphanumeric() || byte == b'_' || byte == b'.'
}

/// What a name is: a register, a keyword, a type, an instruction, a hart, or a name of which no more is known.
pub fn name_token(name: &[u8]) -> Token
    requires { (i : ℕ) → i < length name.now → is_of_name (slice_index name.now i) ≡ true }
    ensures { IsNameToken name.now result }
{
    if let Some(register) = register_of(name) {
        return Token::Register(register);
    }
    match str::from_utf8(name) {
        Ok(name) => text_token(name),
        Err(_) => Token::Name,
    }
}

/// What a name is that is no register.
fn text_token(name: &str) -> Token
    requires { (register : ℕ) → IsRegisterNamed name.now register → ⊥ }
    ensures { IsNameToken name.now result }
{
    if let Some(mark) = keyword_named(name) {
        return Token::Mark(mark);
    }
    if let Some(number_type) = type_named(name) {
        return Token::Type(number_type);
    }
    if let Some(mnemonic) = mnemonic_named(name) {
        return Token::Mnemonic(mnemonic);
    }
    match hart_named(name.as_bytes()) {
        Some(hart) => Token::Hart(hart),
        None => Token::Name,
    }
}

/// The register of this name, x0 to x31.
fn register_of(name: &[u8]) -> Option<Reg>
    ensures found { IfSome result (IsRegisterNamed name.now) }
    ensures none { IfNone result ((register : ℕ) → IsRegisterNamed name.now register → ⊥) }
{
    if name == b"x0".as_slice() || name == b"zero".as_slice() {
        return Some(0);
    }
    if name == b"fp".as_slice() {
        return Some(8);
    }
    register_named(name)
}

/// The sign that these bytes are.
pub fn sign_of(bytes: &[u8]) -> Option<Mark>
    ensures found { IfSome result (IsSignNamed bytes.now) }
    ensures none { IfNone result ((mark : AnyMark) → IsSignNamed bytes.now mark → ⊥) }
{
    match str::from_utf8(bytes) {
        Ok(name) => sign_named(name),
        Err(_) => None,
    }
}

/// The marks that aren't names.
fn sign_named(name: &str) -> Option<Mark>
    ensures found { IfSome result (IsSignNamed name.now) }
    ensures none { IfNone result ((mark : AnyMark) → IsSignNamed name.now mark → ⊥) }
{
    Some(match name {
        "," => Mark::Comma,
        ":" => Mark::Colon,
        ";" => Mark::Semicolon,
        "|" => Mark::Bar,
        "=" => Mark::Equals,
        "-" => Mark::Minus,
        "+" => Mark::Plus,
        "*" => Mark::Star,
        "(" => Mark::LeftParenthesis,
        ")" => Mark::RightParenthesis,
        "[" => Mark::LeftBracket,
        "]" => Mark::RightBracket,
        "{" => Mark::LeftBrace,
        "}" => Mark::RightBrace,
        "~" => Mark::Not,
        "/\\" => Mark::And,
        "\\/" => Mark::Or,
        "=>" => Mark::Implies,
        "<=>" => Mark::Equivalent,
        "!=" => Mark::Differs,
        _ => return None,
    })
}

/// The names that are read as marks.
fn keyword_named(name: &str) -> Option<Mark>
    ensures found { IfSome result (IsKeywordNamed name.now) }
    ensures none { IfNone result ((mark : AnyMark) → IsKeywordNamed name.now mark → ⊥) }
{
    Some(match name {
        "not" => Mark::Not,
        "true" => Mark::True,
        "exists" => Mark::Exists,
        "forall" => Mark::ForAll,
        "locations" => Mark::Locations,
        "filter" => Mark::Filter,
        _ => return None,
    })
}

/// The type of this name.
fn type_named(name: &str) -> Option<NumberType>
    ensures found { IfSome result (IsTypeNamed name.now) }
    ensures none { IfNone result ((number_type : AnyType) → IsTypeNamed name.now number_type → ⊥) }
{
    Some(match name {
        "int8_t" => NumberType {
            width: Width::Byte,
            is_signed: true,
        },
        "uint8_t" | "char" => NumberType {
            width: Width::Byte,
            is_signed: false,
        },
        "int16_t" | "short" => NumberType {
            width: Width::Half,
            is_signed: true,
        },
        "uint16_t" => NumberType {
            width: Width::Half,
            is_signed: false,
        },
        "int" | "int32_t" => NumberType {
            width: Width::Word,
            is_signed: true,
        },
        "unsigned" | "uint32_t" => NumberType {
            width: Width::Word,
            is_signed: false,
        },
        _ => return None,
    })
}

/// `P` and the number of a hart.
fn hart_named(name: &[u8]) -> Option<u32>
    ensures found { IfSome result (λ hart. name.now ≡ 80 ∷ decimal hart) }
    ensures none { IfNone result ((hart : ℕ) → hart < 2 ^ 32 → name.now ≡ 80 ∷ decimal hart → ⊥) }
{
    let Some((letter, digits)) = name.split_first() else {
        return None;
    };
    if *letter != b'P' {
        return None;
    }
    match read_decimal(digits, u32::MAX) {
        Ok(hart) => Some(hart),
        Err(_) => None,
    }
}
