use std::fmt;
use watched_outcomes::MOST_WATCHED;

/// What was expected where a text is refused.
#[derive(Clone, Copy, Debug, PartialEq, Eq, Drop)]
pub enum Expected {
    /// A register at a hart, or a place in memory.
    Watched,
    /// A term of a condition.
    Term,
    /// The end: no more are taken.
    End,
    /// A name that the image has.
    Name,
    /// A name that stands for one address.
    OneAddress,
    /// A place inside of the object that is named.
    Inside,
    /// The parenthesis that closes.
    Closing,
    /// Fewer terms of a condition.
    Terms,
    /// Fewer levels of `!` and parentheses.
    Levels,
}

impl fmt::Display for Expected {
    fn fmt<W: fmt::Write>(&self, f: &mut fmt::Formatter<W>) -> fmt::Result {
        match self {
            Expected::Watched => f.write_str("REGISTER@HART, NAME or ADDRESS:4"),
            Expected::Term => {
                f.write_str("hN=K, hN=stopped K, REGISTER@HART=K, NAME=K or ADDRESS:4=K")
            }
            Expected::End => write!(f, "no more than {MOST_WATCHED}"),
            Expected::Name => f.write_str("a name that the image has"),
            Expected::OneAddress => f.write_str("a name with one address"),
            Expected::Inside => f.write_str("a place inside of its object"),
            Expected::Closing => f.write_str("a closing parenthesis at its end"),
            Expected::Terms => f.write_str("no more than 32 terms"),
            Expected::Levels => f.write_str("no more than 16 levels of ! and parentheses"),
        }
    }
}

/// Why a text is refused: the column at which its first wrong part begins, from 1, and what was expected
/// there.
#[derive(Clone, Copy, Debug, PartialEq, Eq, Drop)]
pub struct QueryRefused {
    pub column: usize,
    pub expected: Expected,
}

/// Why there is no condition.
#[derive(Clone, Copy, Debug, PartialEq, Eq, Drop)]
pub enum ConditionRefused {
    /// The text is none.
    Text(QueryRefused),
    /// There isn't enough memory.
    Memory,
}
