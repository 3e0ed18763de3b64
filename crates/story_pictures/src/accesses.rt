//! The bytes that a row reads and writes.

ghost use Rattle.std.specs.Prelude.{◌≡◌, option_map};
ghost use Rattle.story_pictures.specs.Accesses.{
  byte_at,
  found_span,
  has_byte,
  reads_byte,
  touches_byte,
  writes_byte,
};

use stories::{Deed, Row, Span, read_span, written_span};

/// The bytes whose number a step has found: an AMO finds that of the word that it writes.
pub(crate) fn found_span(deed: &Deed) -> Option<Span>
    ensures { result ≡ found_span deed.now }
{
    match *deed {
        Deed::Atomic { addr, .. } => Some(Span { addr, size: 4 }),
        _ => read_span(deed),
    }
}

/// The byte at a place of an access, from 0 on; none where it has fewer.
pub(crate) fn byte_at(span: Option<Span>, place: u32) -> Option<u64>
    ensures { result ≡ byte_at span place }
{
    let Some(span) = span else {
        return None;
    };
    if place < u32::from(span.size) {
        return Some(u64::from(span.addr) + u64::from(place));
    }
    None
}

fn has_byte(span: Option<Span>, byte: u64) -> bool
    ensures { result ≡ has_byte span byte }
{
    let Some(span) = span else {
        return false;
    };
    u64::from(span.addr) <= byte && byte < u64::from(span.addr) + u64::from(span.size)
}

pub(crate) fn reads_byte(byte: u64, row: &Row) -> bool
    ensures { result ≡ reads_byte byte row.now }
{
    has_byte(found_span(&row.deed), byte)
}

pub(crate) fn writes_byte(byte: u64, row: &Row) -> bool
    ensures { result ≡ writes_byte byte row.now }
{
    has_byte(written_span(&row.deed), byte)
}

pub(crate) fn touches_byte(byte: u64, row: &Row) -> bool
    ensures { result ≡ touches_byte byte row.now }
{
    reads_byte(byte, row) || writes_byte(byte, row)
}
