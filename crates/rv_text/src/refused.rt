ghost use Rattle.std.specs.Prelude.{◌≡◌};

use text_fields::FieldError;
use thiserror::Error;

/// Why a text is no instruction: the first reason that is met from the left.
#[derive(Clone, Copy, Debug, PartialEq, Eq, Drop, Error)]
pub enum TextRefused {
    /// What stands before the first space is the name of no row.
    #[error("unknown name")]
    UnknownName,
    /// An operand is missing or misspelled.
    #[error("wrong operand")]
    WrongOperand,
    /// A number is well spelled, and its field can't hold it.
    #[error("out of range")]
    OutOfRange,
    /// Something stands behind the last operand.
    #[error("trailing text")]
    TrailingText,
}

impl TextRefused {
    ghost use Rattle.rv_text.specs.Reading.{refusal_number};

    /// The number of the reason, from 1 on.
    pub fn number(self) -> u8
        ensures { result ≡ refusal_number self }
    {
        match self {
            TextRefused::UnknownName => 1,
            TextRefused::WrongOperand => 2,
            TextRefused::OutOfRange => 3,
            TextRefused::TrailingText => 4,
        }
    }
}

impl From<FieldError> for TextRefused {
    ghost use Rattle.rv_text.specs.Reading.{refusal_of};

    ghost from_gives = { λ error refused. refused ≡ refusal_of error };

    fn from(error: FieldError) -> Self {
        match error {
            FieldError::Misspelled => TextRefused::WrongOperand,
            FieldError::OutOfRange => TextRefused::OutOfRange,
        }
    }
}
