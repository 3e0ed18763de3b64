//! Conditions, as they are written.

ghost use Rattle.std.specs.Prelude.{◌≡◌, ◌+◌, ◌≤◌, ◌++◌, length};
ghost use Rattle.outcome_queries.specs.Conditions.{terms_in};

use crate::term::Term;
use arrayvec::ArrayVec;

/// The most terms of a condition.
pub const MOST_TERMS: usize = 32;

/// The most `!` and parentheses of a condition that stand in one another.
pub const MOST_LEVELS: usize = 16;

/// What joins two conditions.
#[derive(Clone, Copy, Debug, PartialEq, Eq, Drop)]
pub enum Joint {
    /// `&`: both hold.
    And,
    /// `|`: one holds at the least.
    Or,
}

/// A condition.
#[derive(Drop)]
pub enum Condition<'a> {
    /// `h0=1`, `counter>=2`.
    Holds(Term<'a>),
    /// `!C`
    Not(Box<Condition<'a>>),
    /// `(C)`
    Grouped(Box<Condition<'a>>),
    /// `C & D`, `C | D`. Of several with the same joint the first one is joined to all others.
    Joined(Joint, Box<Condition<'a>>, Box<Condition<'a>>),
}

/// The terms of a condition, in its order.
pub type Terms<'a> = ArrayVec<Term<'a>, MOST_TERMS>;

/// The terms of a condition, in its order.
pub fn terms_of<'a>(condition: &Condition<'a>) -> Terms<'a>
    requires { length (terms_in condition.now) ≤ 32 }
    ensures { result.items ≡ terms_in condition.now }
{
    let mut terms = Terms::new();
    add_terms(&mut terms, condition);
    terms
}

/// Puts the terms of a condition behind others.
fn add_terms<'a>(terms: &mut Terms<'a>, condition: &Condition<'a>)
    requires { length terms.old.items + length (terms_in condition.now) ≤ 32 }
    ensures { terms.new.items ≡ terms.old.items ++ terms_in condition.now }
{
    match condition {
        Condition::Holds(term) => terms.push(*term),
        Condition::Not(inner) | Condition::Grouped(inner) => add_terms(terms, inner),
        Condition::Joined(_, first, others) => {
            add_terms(terms, first);
            add_terms(terms, others);
        }
    }
}
