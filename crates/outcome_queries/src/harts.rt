//! The harts that terms name.

ghost use Rattle.std.specs.Prelude.{◌≡◌, All, None};
ghost use Rattle.outcome_queries.specs.Harts.{hart_named, hart_of, unless_there, absent_hart, IsHartThere};

use crate::term::{Harts, Term};
use crate::watched::Watched;

/// The first hart that terms name and that isn't one of so many; none where each is.
pub fn absent_hart(terms: &[Term<'_>], harts: u8) -> Option<u8>
    ensures first { result ≡ absent_hart harts terms.now }
    ensures there { result ≡ None → All (IsHartThere harts) terms.now }
{
    match terms {
        [] => None,
        [term, rest @ ..] => unless_there(hart_named(*term), harts).or(absent_hart(rest, harts)),
    }
}

/// The hart that a term names; none where it speaks of each, of a place in memory or of what was put out.
fn hart_named(term: Term<'_>) -> Option<u8>
    ensures { result ≡ hart_named term.entry }
{
    match term {
        Term::Ended { harts, .. } | Term::Stopped { harts, .. } => hart_of(harts),
        Term::Holds { asked, .. } => match asked.watched {
            Watched::Register { hart, .. } => Some(hart),
            Watched::Bytes(_) => None,
        },
        Term::Put { .. } => None,
    }
}

fn hart_of(harts: Harts) -> Option<u8>
    ensures { result ≡ hart_of harts }
{
    match harts {
        Harts::One(hart) => Some(hart),
        Harts::Each => None,
    }
}

/// The hart, unless it is one of so many.
fn unless_there(named: Option<u8>, harts: u8) -> Option<u8>
    ensures { result ≡ unless_there harts named }
{
    match named {
        Some(hart) if hart >= harts => Some(hart),
        _ => None,
    }
}
