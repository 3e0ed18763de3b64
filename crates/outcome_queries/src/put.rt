//! The bytes that were put out, as a term says them.

ghost use Rattle.std.specs.Prelude.{◌≡◌, true, false, codes, IfSome, IfNone};
ghost use Rattle.symbols.specs.Tables.{table_of};
ghost use Rattle.outcome_queries.specs.declared.term.Term.{Term as AnyTerm};
ghost use Rattle.outcome_queries.specs.Terms.{Means, IsPut};
ghost use Rattle.outcome_queries.specs.Printed.{is_bytes, IsFree};
ghost use Rattle.std.specs.List.{list_all};
ghost use Rattle.text_fields.specs.Reading.{is_hex_digit};

use crate::relation::is_equality;
use crate::sign::Cut;
use crate::term::Term;
use symbols::{Meaning, Name, Symbols, meaning_of};

/// What was put out: `out` and the bytes, two hexadecimal digits each, where the program has nothing of that name.
pub(crate) fn read_put<'a>(cut: Cut<'a>, names: &Symbols<'_>) -> Option<Term<'a>>
    ensures found { IfSome result (λ term. IsPut term
        × Means (table_of names.now) cut.entry.left.now cut.entry.relation cut.entry.right.now term) }
    ensures none { IfNone result ((term : AnyTerm) → IsPut term
        → Means (table_of names.now) cut.entry.left.now cut.entry.relation cut.entry.right.now term → ⊥) }
{
    if !is_out(cut.left) {
        return None;
    }
    if !is_equality(cut.relation) {
        return None;
    }
    if !is_bytes(cut.right) {
        return None;
    }
    if !is_free(names, cut.left) {
        return None;
    }
    Some(Term::Put {
        digits: cut.right,
        relation: cut.relation,
    })
}

fn is_out(text: &[u8]) -> bool
    ensures is { result ≡ true → text.now ≡ codes "out" }
    ensures other { result ≡ false → text.now ≡ codes "out" → ⊥ }
{
    text == b"out".as_slice()
}

/// Whether a text is bytes, two lower-case hexadecimal digits each.
fn is_bytes(text: &[u8]) -> bool
    ensures { result ≡ is_bytes text.now }
{
    text.len() % 2 == 0 && are_digits(text)
}

fn are_digits(text: &[u8]) -> bool
    ensures { result ≡ list_all is_hex_digit text.now }
{
    text.iter().all(|byte| byte.is_ascii_digit() || (*byte >= b'a' && *byte <= b'f'))
}

/// Whether nothing in the program has this name.
fn is_free(names: &Symbols<'_>, name: &[u8]) -> bool
    ensures free { result ≡ true → IsFree (table_of names.now) name.now }
    ensures taken { result ≡ false → IsFree (table_of names.now) name.now → ⊥ }
{
    let name = Name { file: None, name };
    match meaning_of(names, &name) {
        Meaning::Nothing => true,
        Meaning::One(_) | Meaning::Several => false,
    }
}
