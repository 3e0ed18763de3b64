//! Places in memory by a name, as they are written.

ghost use Rattle.std.specs.Prelude.{◌≡◌, ◌∷◌, ◌++◌, ℕ, List, [], length, Some, None, false, IfSome, IfNone};
ghost use Rattle.std.specs.List.{list_all};
ghost use Rattle.symbols.specs.declared.meanings.Name.{Name as AnyName};
ghost use Rattle.outcome_queries.specs.declared.placed.Placed.{Placed as AnyPlaced};
ghost use Rattle.outcome_queries.specs.declared.placed.Behind.{Behind as AnyBehind};
ghost use Rattle.outcome_queries.specs.Quoted.{place_outside};
ghost use Rattle.outcome_queries.specs.Placed.{SpellsName, SpellsPart, SpellsPlace, SpellsPlaced, IsMarked};
ghost use Rattle.outcome_queries.specs.Placed.{can_begin, can_follow, is_hart_name, is_plain_name};

use crate::quoted::split_outside;
use crate::width::split_width;
use symbols::Name;
use text_fields::{read_decimal, read_hex, read_value};
use watched_outcomes::Width;

/// How far behind the start of its symbol a place is.
#[derive(Clone, Copy, Drop)]
pub enum Behind {
    /// Where this element of so many bytes as are looked at is, from 0.
    Element(u32),
    /// So many bytes.
    Bytes(u32),
}

/// A place in memory by a name.
#[derive(Clone, Copy, Drop)]
pub struct Placed<'a> {
    pub name: Name<'a>,
    pub behind: Behind,
    /// How many bytes are looked at, where that is said.
    pub width: Option<Width>,
}

/// What a text says: `counter`, `lock.c:counter`, `next[3]`, `node+8`, `counter:2`, `'any name':1`.
pub(crate) fn read_placed(text: &[u8]) -> Option<Placed<'_>>
    ensures found { IfSome result (SpellsPlaced text.now) }
    ensures none { IfNone result ((placed : AnyPlaced) → SpellsPlaced text.now placed → ⊥) }
{
    let (place, width) = split_width(text);
    let (name, behind) = read_place(place)?;
    Some(Placed {
        name,
        behind,
        width,
    })
}

/// A name, and how far behind its start: an element in brackets, so many bytes behind a plus sign, or nothing.
fn read_place(text: &[u8]) -> Option<(Name<'_>, Behind)>
    ensures found { IfSome result (λ p. SpellsPlace text.now p.0 p.1) }
    ensures none { IfNone result ((name : AnyName) (far : AnyBehind) → SpellsPlace text.now name far → ⊥) }
{
    if let Some((named, index)) = split_element(text) {
        let name = read_name(named)?;
        let element = read_value(index)?;
        return Some((name, Behind::Element(element)));
    }
    if let Some((named, distance)) = split_outside(text, b'+') {
        let name = read_name(named)?;
        let bytes = read_value(distance)?;
        return Some((name, Behind::Bytes(bytes)));
    }
    let name = read_name(text)?;
    Some((name, Behind::Bytes(0)))
}

/// What stands before `[` and between it and a `]` at the end.
fn split_element(text: &[u8]) -> Option<(&[u8], &[u8])>
    ensures found { IfSome result (λ p. text.now ≡ p.0.now ++ 91 ∷ (p.1.now ++ 93 ∷ [])) }
    ensures place { IfSome result (λ p. Some (length p.0.now) ≡ place_outside false 91 text.now) }
    ensures none { IfNone result ((named index : List ℕ) → Some (length named) ≡ place_outside false 91 text.now
        → text.now ≡ named ++ 91 ∷ (index ++ 93 ∷ []) → ⊥) }
{
    let (named, rest) = split_outside(text, b'[')?;
    let last = rest.len().checked_sub(1)?;
    if rest[last] != b']' {
        return None;
    }
    Some((named, &rest[..last]))
}

/// A name, with the file before it where one is said.
fn read_name(text: &[u8]) -> Option<Name<'_>>
    ensures found { IfSome result (SpellsName text.now) }
    ensures none { IfNone result ((name : AnyName) → SpellsName text.now name → ⊥) }
{
    let Some((file, name)) = split_outside(text, b':') else {
        let name = read_part(text)?;
        return Some(Name { file: None, name });
    };
    let file = read_part(file)?;
    let name = read_part(name)?;
    Some(Name {
        file: Some(file),
        name,
    })
}

/// A name that stands in quotation marks, or needs none.
fn read_part(text: &[u8]) -> Option<&[u8]>
    ensures found { IfSome result (λ name. SpellsPart text.now name.now) }
    ensures none { IfNone result ((name : List ℕ) → SpellsPart text.now name → ⊥) }
{
    if is_plain_name(text) {
        return Some(text);
    }
    between_marks(text)
}

/// What stands between two quotation marks, with none inside; one byte at the least.
fn between_marks(text: &[u8]) -> Option<&[u8]>
    ensures found { IfSome result (λ name. IsMarked text.now name.now) }
    ensures none { IfNone result ((name : List ℕ) → IsMarked text.now name → ⊥) }
{
    if text.len() < 3 || text[0] != b'\'' || text[text.len() - 1] != b'\'' {
        return None;
    }
    let name = &text[1..text.len() - 1];
    if name.contains(&b'\'') {
        None
    } else {
        Some(name)
    }
}

/// Whether a name needs no quotation marks: it begins with a letter, `_`, `.` or `$`, has none but these, digits and
/// `-` behind that, and says nothing else, as `h0` and `80001000` do.
#[tactic(auto, unfolding(crate::specs::Placed::is_plain_name))]
fn is_plain_name(text: &[u8]) -> bool
    ensures { result ≡ is_plain_name text.now }
{
    let [first, rest @ ..] = text else {
        return false;
    };
    can_begin(*first) && can_follow(rest) && !is_hart(*first, rest) && read_hex(text, 8).is_err()
}

fn can_begin(byte: u8) -> bool
    ensures { result ≡ can_begin byte }
{
    byte.is_ascii_alphabetic() || byte == b'_' || byte == b'.' || byte == b'$'
}

/// Whether each of these bytes may stand behind the first of a name.
fn can_follow(bytes: &[u8]) -> bool
    ensures { result ≡ list_all can_follow bytes.now }
{
    bytes.iter().all(|byte| can_begin(*byte) || byte.is_ascii_digit() || *byte == b'-')
}

/// Whether it is `h` and the number of a hart.
fn is_hart(first: u8, rest: &[u8]) -> bool
    ensures { result ≡ is_hart_name (first ∷ rest.now) }
{
    first == b'h' && read_decimal(rest, 255).is_ok()
}
