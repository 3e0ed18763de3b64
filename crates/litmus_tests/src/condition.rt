use crate::value::Value;
use numbers::Reg;
use watched_outcomes::Width;

/// What is looked at in a final state.
#[derive(Clone, Copy, Debug, PartialEq, Eq, Drop)]
pub enum Observed {
    /// A register of a hart, x1 to x31.
    Register { hart: u8, register: Reg },
    /// A location or an element of an array, by its index among the test's locations.
    Location(usize),
}

/// That what is looked at holds a value: the bits of it that a number of this width has.
#[derive(Clone, Copy, Debug, PartialEq, Eq, Drop)]
pub struct Term {
    pub observed: Observed,
    pub value: Value,
    pub width: Width,
}

/// What a final state is asked for.
#[derive(Drop)]
pub enum Condition {
    /// `true`.
    Always,
    /// `0:x7=1`, `x=1`, `[x]=1`.
    Holds(Term),
    /// `~C`, `not C`.
    Not(Box<Condition>),
    /// `C /\ D`.
    Both(Box<Condition>, Box<Condition>),
    /// `C \/ D`.
    Either(Box<Condition>, Box<Condition>),
    /// `C => D`.
    Implies(Box<Condition>, Box<Condition>),
    /// `C <=> D`.
    Equivalent(Box<Condition>, Box<Condition>),
}

/// Of which final states the condition is asked.
#[derive(Clone, Copy, Debug, PartialEq, Eq, Drop)]
pub enum Quantifier {
    /// `exists`: of one at least.
    Exists,
    /// `~exists`: of none.
    NotExists,
    /// `forall`: of each.
    ForAll,
}
