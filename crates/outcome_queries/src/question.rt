//! What is asked of all outcomes.

use crate::condition::Condition;

/// A question about all outcomes.
#[derive(Drop)]
pub enum Question<'a> {
    /// Is there one of which the condition holds?
    Exists(Condition<'a>),
    /// Does it hold of each?
    ForAll(Condition<'a>),
    /// Does it hold of none?
    Never(Condition<'a>),
    /// Can each state go on to an end?
    NeverStuck,
}

/// What is answered.
#[derive(Clone, Copy, Debug, PartialEq, Eq, Drop)]
pub enum Answer {
    /// It is so.
    Yes,
    /// It isn't.
    No,
    /// What was found doesn't tell: not all was looked at.
    Unknown,
}
