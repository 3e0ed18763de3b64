//! The words of a text.

ghost use Rattle.std.specs.Prelude.{◌≡◌, ◌≢◌, ◌⊎◌, [], true, false, slice_range};
ghost use Rattle.litmus_words.specs.Bytes.{bytes_in, same_bytes};
ghost use Rattle.litmus_words.specs.declared.word.Token.TheVariants as token;

use crate::mnemonic::Mnemonic;
use litmus_tests::NumberType;
use numbers::Reg;

/// What one word is.
#[derive(Clone, Copy, Drop)]
pub enum Token {
    /// x0 to x31, by number or by the name in the calling convention.
    Register(Reg),
    Number(u32),
    /// `P0`.
    Hart(u32),
    Mnemonic(Mnemonic),
    Mark(Mark),
    /// The type of a number.
    Type(NumberType),
    /// A name of which no more is known.
    Name,
    /// The name of a location or of an array.
    Location(Declared),
}

/// A location or an array, as the start declares it.
#[derive(Clone, Copy, Drop)]
pub struct Declared {
    /// The index of the location, or of the first element, among the test's locations.
    pub first: u16,
    /// Where it stands, in bytes behind the first of all locations, and how many bytes it has.
    pub byte: u16,
    pub size: u16,
    pub number_type: NumberType,
    pub is_array: bool,
}

/// The marks, and the names that are read as marks.
#[derive(Clone, Copy, PartialEq, Eq, Drop)]
pub enum Mark {
    Comma,
    Colon,
    Semicolon,
    Bar,
    Equals,
    Minus,
    Plus,
    Star,
    LeftParenthesis,
    RightParenthesis,
    LeftBracket,
    RightBracket,
    LeftBrace,
    RightBrace,
    /// `~` and `not`.
    Not,
    /// `/\`.
    And,
    /// `\/`.
    Or,
    True,
    Exists,
    ForAll,
    Locations,
    /// `=>`.
    Implies,
    /// `<=>`.
    Equivalent,
    /// `!=`.
    Differs,
    Filter,
}

/// A word: what it is, the byte at which it begins, and the one behind it.
#[derive(Clone, Copy, Drop)]
pub struct Word {
    pub start: usize,
    pub end: usize,
    pub token: Token,
}

/// The bytes of a word; none where it isn't one of the text.
pub fn bytes_of(text: &[u8], word: Word) -> &[u8]
    ensures inside { (result.now ≡ []) ⊎ (result.now ≡ slice_range text.now word.start word.end) }
    ensures exact { result.now ≡ bytes_in text.now word }
{
    if word.end < word.start {
        return &[];
    }
    if text.len() < word.end {
        return &[];
    }
    &text[word.start..word.end]
}

/// Whether two words of a text have the same bytes.
pub fn same_bytes(text: &[u8], first: Word, second: Word) -> bool
    ensures { result ≡ same_bytes text.now first second }
{
    bytes_of(text, first) == bytes_of(text, second)
}

/// Whether the word is this mark.
pub fn is_mark(word: Word, mark: Mark) -> bool
    ensures is { result ≡ true → word.token ≡ token.Mark mark }
    ensures other { result ≡ false → word.token ≢ token.Mark mark }
{
    match word.token {
        Token::Mark(found) => found == mark,
        _ => false,
    }
}
