//! The bytes of memory that a step has read and written.

ghost use Rattle.std.specs.Prelude.{◌≡◌};
ghost use Rattle.smt_model.specs.Kinds.{load_size, store_size};
ghost use Rattle.stories.specs.Spans.{has_read, meets, read_span, span_accessed, word_at, written_span};

use crate::deed::Deed;
use rv_instr::{LoadOp, StoreOp};
use shared_memory::touches;

/// Bytes of memory: `size` of them, from `addr` on.
#[derive(Clone, Copy, Drop)]
pub struct Span {
    pub addr: u32,
    pub size: u8,
}

/// The word at an address.
pub(crate) fn word_at(addr: u32) -> Span
    ensures { result ≡ word_at addr }
{
    Span { addr, size: 4 }
}

/// What a load or an LR has read.
pub fn read_span(deed: &Deed) -> Option<Span>
    ensures { result ≡ read_span deed.now }
{
    match *deed {
        Deed::Loaded { op, addr, .. } => Some(Span {
            addr,
            size: load_size(op),
        }),
        Deed::Reserved { addr, .. } => Some(word_at(addr)),
        _ => None,
    }
}

/// What a store, an SC that has written, or an AMO wrote.
pub fn written_span(deed: &Deed) -> Option<Span>
    ensures { result ≡ written_span deed.now }
{
    match *deed {
        Deed::Stored { op, addr, .. } => Some(Span {
            addr,
            size: store_size(op),
        }),
        Deed::Conditional { addr, .. } | Deed::Atomic { addr, .. } => Some(word_at(addr)),
        _ => None,
    }
}

/// What was read or written. An SC that has failed did neither.
pub(crate) fn span_accessed(deed: &Deed) -> Option<Span>
    ensures { result ≡ span_accessed deed.now }
{
    match read_span(deed) {
        Some(span) => Some(span),
        None => written_span(deed),
    }
}

/// Whether these bytes share one with those.
pub(crate) fn meets(span: Span, other: Option<Span>) -> bool
    ensures { result ≡ meets span other }
{
    match other {
        Some(other) => touches(span.addr, span.size, other.addr, other.size),
        None => false,
    }
}

/// Whether a load of the word at an address, or an LR of it, has read this number.
pub(crate) fn has_read(addr: u32, number: u32, deed: &Deed) -> bool
    ensures { result ≡ has_read addr number deed.now }
{
    match *deed {
        Deed::Loaded {
            op,
            addr: there,
            number: told,
        } => load_size(op) == 4 && (there == addr && told == number),
        Deed::Reserved {
            addr: there,
            number: told,
        } => there == addr && told == number,
        _ => false,
    }
}

fn load_size(op: LoadOp) -> u8
    ensures { result ≡ load_size op }
{
    match op {
        LoadOp::Lb | LoadOp::Lbu => 1,
        LoadOp::Lh | LoadOp::Lhu => 2,
        LoadOp::Lw => 4,
    }
}

pub(crate) fn store_size(op: StoreOp) -> u8
    ensures { result ≡ store_size op }
{
    match op {
        StoreOp::Sb => 1,
        StoreOp::Sh => 2,
        StoreOp::Sw => 4,
    }
}
