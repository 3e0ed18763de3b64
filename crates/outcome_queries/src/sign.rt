//! A term, cut at the sign of its relation.

ghost use Rattle.std.specs.Prelude.{◌≡◌, ◌++◌, IfSome, IfNone, None, false, Some};
ghost use Rattle.outcome_queries.specs.Relations.{sign};
ghost use Rattle.outcome_queries.specs.Signs.{IsFirstSign, IsMarkCut, mark};
ghost use Rattle.outcome_queries.specs.Quoted.{place_outside};

use crate::quoted::split_outside;
use crate::relation::Relation;

/// What stands before the sign of a term, its relation, and what stands behind the sign.
#[derive(Clone, Copy, Drop)]
pub(crate) struct Cut<'a> {
    pub left: &'a [u8],
    pub relation: Relation,
    pub right: &'a [u8],
}

/// Cuts a text at the first `=` outside of quotation marks, and what stands right before it; else at the first `<`.
pub(crate) fn cut_term(text: &[u8]) -> Option<Cut<'_>>
    ensures whole { IfSome result (λ cut. text.now ≡ cut.left.now ++ (sign cut.relation ++ cut.right.now)) }
    ensures first { IfSome result (λ cut. IsFirstSign cut.relation cut.left.now text.now) }
    ensures none { IfNone result (place_outside false 61 text.now ≡ None) }
    ensures no_below { IfNone result (place_outside false 60 text.now ≡ None) }
{
    if let Some((before, right)) = split_outside(text, b'=') {
        let (left, relation) = cut_mark(before);
        return Some(Cut {
            left,
            relation,
            right,
        });
    }
    match split_outside(text, b'<') {
        Some((left, right)) => Some(Cut {
            left,
            relation: Relation::Below,
            right,
        }),
        None => None,
    }
}

/// What stands before the equals sign, without the `!` or `>` that makes it another sign.
fn cut_mark(before: &[u8]) -> (&[u8], Relation)
    ensures { IsMarkCut before.now result.0.now result.1 }
{
    match before {
        [left @ .., b'!'] => (left, Relation::Other),
        [left @ .., b'>'] => (left, Relation::AtLeast),
        _ => (before, Relation::Equal),
    }
}
