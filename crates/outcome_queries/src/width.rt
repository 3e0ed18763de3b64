//! How many bytes of memory are looked at, where a text says so at its end.

ghost use Rattle.std.specs.Prelude.{◌≡◌, ◌++◌, ℕ, List, Some, None, IfSome, IfNone};
ghost use Rattle.watched_outcomes.specs.declared.watch.Width.{Width as AnyWidth};
ghost use Rattle.outcome_queries.specs.Widths.{width_text};

use watched_outcomes::Width;

/// The text before `:1`, `:2` or `:4` at its end, and what that says; the text where none of these is there.
pub(crate) fn split_width(text: &[u8]) -> (&[u8], Option<Width>)
    ensures whole { text.now ≡ result.0.now ++ width_text result.1 }
    ensures none { result.1 ≡ None
        → (before : List ℕ) (width : AnyWidth) → text.now ≡ before ++ width_text (Some width) → ⊥ }
{
    let Some(start) = text.len().checked_sub(2) else {
        return (text, None);
    };
    match width_of(&text[start..]) {
        Some(width) => (&text[..start], Some(width)),
        None => (text, None),
    }
}

fn width_of(text: &[u8]) -> Option<Width>
    ensures found { IfSome result (λ width. text.now ≡ width_text (Some width)) }
    ensures none { IfNone result ((width : AnyWidth) → text.now ≡ width_text (Some width) → ⊥) }
{
    if text == b":1".as_slice() {
        return Some(Width::Byte);
    }
    if text == b":2".as_slice() {
        return Some(Width::Half);
    }
    if text == b":4".as_slice() {
        return Some(Width::Word);
    }
    None
}
