//! Why a text is refused.

ghost use Rattle.std.specs.Prelude.{◌≡◌};
ghost use Rattle.litmus_words.specs.declared.refused.Stop.TheVariants as kind;

use crate::place::Place;
use arrayvec::ArrayString;
use litmus_tests::test::{MOST_LOCATIONS, MOST_NESTED, MOST_OBSERVED, MOST_STEPS, MOST_TERMS};
use numbers::sizes::HART_ROOM;
use std::alloc::{AllocError, AllocFailed};
use std::fmt;

/// How many bytes a text has at most.
pub const MOST_BYTES: usize = 65_536;

/// As much as is shown of the word at which a text is refused.
pub type Shown = ArrayString<24>;

/// What is wrong with a text.
#[derive(Clone, Copy, Debug, PartialEq, Eq, Drop)]
pub enum Fault {
    /// More than `MOST_BYTES`, told behind them.
    TooLong,
    /// A comment or a string that doesn't end, told where it begins.
    EndlessComment,
    EndlessString,
    /// A first word other than `RISCV`, or no name behind it.
    NotRiscv,
    NoName,
    /// Before the braces stands something else than a string and lines `Key=..`.
    NotMetadata,
    /// What stands there isn't of the subset.
    NotOfSubset,
    /// The text ends, or a row does, where something was wanted.
    Unfinished,
    /// A number that its field can't hold.
    NumberTooLarge,
    /// A name where a register was wanted.
    NoRegister,
    /// Register x0 where its number is given or looked at: it always holds 0.
    ZeroRegister,
    /// A register that a jump would put the address of an instruction into.
    LinkRegister,
    /// A location that the start doesn't name.
    Undeclared,
    /// An element or a byte that its location hasn't.
    NoElement,
    /// An array without an index where one number is wanted.
    WholeArray,
    /// An address where a number of fewer than 32 bits stands.
    NarrowAddress,
    /// A pointer to numbers of one size that is given the address of one of another.
    OtherSize,
    /// Something that has its first number already.
    Twice,
    /// A hart that isn't there.
    NoHart,
    /// Harts that aren't P0, P1, .. in order.
    HartOrder,
    /// A row with another number of columns than there are harts.
    Columns { columns: usize, harts: usize },
    /// A label that isn't there, or that is there twice.
    NoLabel,
    LabelTwice,
    /// No `exists`, `~exists` or `forall`.
    NoCondition,
    /// Something behind the condition.
    BehindCondition,
    /// More than there may be.
    TooManyHarts,
    TooManySteps,
    TooManyLocations,
    TooManyObserved,
    TooManyTerms,
    TooDeep,
}

impl Fault {
    /// Whether the word is shown at which a text is refused so.
    pub fn shows_word(self) -> bool {
        match self {
            Fault::NotRiscv
            | Fault::NotMetadata
            | Fault::NotOfSubset
            | Fault::NumberTooLarge
            | Fault::NoRegister
            | Fault::LinkRegister
            | Fault::Undeclared
            | Fault::NoElement
            | Fault::WholeArray
            | Fault::NarrowAddress
            | Fault::OtherSize
            | Fault::Twice
            | Fault::NoHart
            | Fault::HartOrder
            | Fault::NoLabel
            | Fault::LabelTwice
            | Fault::BehindCondition => true,
            _ => false,
        }
    }

    /// How much there may be, and of what, where there is more.
    fn limit(self) -> Option<(usize, &'static str)> {
        match self {
            Fault::TooLong => Some((MOST_BYTES, "bytes")),
            Fault::TooManyHarts => Some((HART_ROOM, "harts")),
            Fault::TooManySteps => Some((MOST_STEPS, "steps of a hart")),
            Fault::TooManyLocations => Some((MOST_LOCATIONS, "words of locations")),
            Fault::TooManyObserved => Some((MOST_OBSERVED, "registers and locations looked at")),
            Fault::TooManyTerms => Some((MOST_TERMS, "terms")),
            Fault::TooDeep => Some((MOST_NESTED, "levels of not and parentheses")),
            _ => None,
        }
    }

    /// What is wrong, but for a limit and for the numbers of columns.
    fn words(self) -> &'static str {
        match self {
            Fault::EndlessComment => "a comment that doesn't end",
            Fault::EndlessString => "a string that doesn't end",
            Fault::NotRiscv => "a first word that isn't RISCV",
            Fault::NoName => "no name behind RISCV",
            Fault::NotMetadata => "neither Key=.. nor {",
            Fault::NotOfSubset => "what stands there isn't of the subset",
            Fault::Unfinished => "an end where something is missing",
            Fault::NumberTooLarge => "a number that doesn't fit",
            Fault::NoRegister => "a register that isn't one",
            Fault::ZeroRegister => "register x0, which always holds 0",
            Fault::LinkRegister => "a link register other than x0",
            Fault::Undeclared => "a location that is never declared",
            Fault::NoElement => "an element that isn't there",
            Fault::WholeArray => "an array where a number is wanted",
            Fault::NarrowAddress => "an address in a byte or a half",
            Fault::OtherSize => "a pointer to numbers of another size",
            Fault::Twice => "a second start of the same",
            Fault::NoHart => "a hart that isn't there",
            Fault::HartOrder => "harts that aren't P0, P1 and so on",
            Fault::Columns { .. } => "a row with",
            Fault::NoLabel => "a label that isn't there",
            Fault::LabelTwice => "a label that is there twice",
            Fault::NoCondition => "no exists, ~exists or forall",
            Fault::BehindCondition => "something behind the condition",
            Fault::TooLong
            | Fault::TooManyHarts
            | Fault::TooManySteps
            | Fault::TooManyLocations
            | Fault::TooManyObserved
            | Fault::TooManyTerms
            | Fault::TooDeep => "",
        }
    }
}

impl fmt::Display for Fault {
    fn fmt<W: fmt::Write>(&self, f: &mut fmt::Formatter<W>) -> fmt::Result {
        if let Some((most, of_what)) = self.limit() {
            return write!(f, "more than {most} {of_what}");
        }
        f.write_str(self.words())?;
        match *self {
            Fault::Columns { columns: 1, harts } => write!(
                f,
                " 1 column where there are {harts} harts"
            ),
            Fault::Columns { columns, harts: 1 } => write!(
                f,
                " {columns} columns where there is 1 hart"
            ),
            Fault::Columns { columns, harts } => {
                write!(f, " {columns} columns where there are {harts} harts")
            }
            _ => Ok(()),
        }
    }
}

/// Why a text was not read.
#[derive(Debug, Drop)]
pub enum ReadingRefused {
    /// No memory was left.
    Memory,
    /// The place at which its first fault begins, the fault, and for some of them the word that stands there.
    At(Place, Fault, Shown),
}

impl fmt::Display for ReadingRefused {
    fn fmt<W: fmt::Write>(&self, f: &mut fmt::Formatter<W>) -> fmt::Result {
        match self {
            ReadingRefused::Memory => f.write_str("out of memory"),
            ReadingRefused::At(place, fault, shown) => {
                write_place(*place, f)?;
                write!(f, "{fault}")?;
                if shown.is_empty() {
                    return Ok(());
                }
                f.write_str(": ")?;
                f.write_str(shown.as_str())
            }
        }
    }
}

fn write_place<W: fmt::Write>(place: Place, f: &mut fmt::Formatter<W>) -> fmt::Result {
    let (line, column) = (place.line, place.column);
    write!(f, "line {line}, column {column}: ")
}

/// Why reading stopped: there was no memory, or there is a fault at the byte with this index.
#[derive(Clone, Copy, Drop)]
pub enum Stop {
    Memory,
    Fault { at: usize, fault: Fault },
}

impl From<AllocError> for Stop {
    ghost from_gives = { λ _ stop. stop ≡ kind.Memory };

    fn from(_error: AllocError) -> Self {
        Stop::Memory
    }
}

impl<T: Drop> From<AllocFailed<T>> for Stop {
    ghost from_gives = { λ _ stop. stop ≡ kind.Memory };

    fn from(_error: AllocFailed<T>) -> Self {
        Stop::Memory
    }
}

impl Stop {
    /// The fault at this byte.
    pub fn at(at: usize, fault: Fault) -> Stop
        ensures { result ≡ kind.Fault at fault }
    {
        Stop::Fault { at, fault }
    }
}
