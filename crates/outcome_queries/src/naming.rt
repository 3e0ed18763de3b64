//! The name that a text begins with.

ghost use Rattle.std.specs.Prelude.{◌≡◌, IfSome, IfNone};
ghost use Rattle.symbols.specs.declared.meanings.Name.{Name as AnyName};
ghost use Rattle.outcome_queries.specs.Quoted.{field_outside};
ghost use Rattle.outcome_queries.specs.Naming.{AsksName};

use crate::placed::read_placed;
use crate::quoted::split_outside;
use crate::term::trimmed;
use symbols::Name;

/// The name in the first part of a list or of a condition, as far as that is a place by a name.
pub fn name_asked(text: &[u8]) -> Option<Name<'_>>
    ensures found { IfSome result (AsksName text.now) }
    ensures none { IfNone result ((name : AnyName) → AsksName text.now name → ⊥) }
{
    let listed = before(text, b',');
    let joined = before(listed, b'&');
    let equals = before(joined, b'=');
    let below = before(equals, b'<');
    let least = before(below, b'>');
    let left = before(least, b'!');
    let placed = read_placed(trimmed(left))?;
    Some(placed.name)
}

/// What stands before a byte outside of quotation marks, or all of the text.
fn before(text: &[u8], separator: u8) -> &[u8]
    ensures { result.now ≡ field_outside separator text.now }
{
    match split_outside(text, separator) {
        Some((first, _)) => first,
        None => text,
    }
}
