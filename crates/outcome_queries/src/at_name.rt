//! The bytes of memory that a place by a name is.

ghost use Rattle.std.specs.Prelude.{◌≡◌, ◌^◌, ◌<◌, IfOk, IfErr};
ghost use Rattle.symbols.specs.Tables.{table_of};
ghost use Rattle.outcome_queries.specs.AtName.{IsAt, IsNowhere, distance, is_inside, own_width, width_of};

use crate::placed::{Behind, Placed};
use crate::refused::Expected;
use symbols::{Meaning, Symbol, Symbols, meaning_of};
use watched_outcomes::{WatchedBytes, Width};

/// The bytes that are looked at in a place by a name: as many as it says; else as many as its object has, where that
/// are 1, 2 or 4; else 4. They lie inside of the object, where its size is known.
///
/// Refused are a name that no symbol has (`Name`), one that stands for several addresses (`OneAddress`), and bytes that
/// reach out of their object or lie behind all addresses (`Inside`).
pub(crate) fn bytes_at(placed: &Placed<'_>, names: &Symbols<'_>) -> Result<WatchedBytes, Expected>
    ensures found { IfOk result (IsAt (table_of names.now) placed.now) }
    ensures refused { IfErr result (IsNowhere (table_of names.now) placed.now) }
{
    let symbol = match meaning_of(names, &placed.name) {
        Meaning::One(symbol) => symbol,
        Meaning::Several => return Err(Expected::OneAddress),
        Meaning::Nothing => return Err(Expected::Name),
    };
    let width = width_of(placed, &symbol);
    let distance = distance_of(placed.behind, width);
    let address = u64::from(symbol.address) + distance;
    if !is_inside(&symbol, distance, width) || address > u64::from(u32::MAX) {
        return Err(Expected::Inside);
    }
    Ok(WatchedBytes {
        address: address as u32,
        width,
    })
}

fn width_of(placed: &Placed<'_>, symbol: &Symbol) -> Width
    ensures { result ≡ width_of placed.now symbol.now }
{
    match placed.width {
        Some(width) => width,
        None => own_width(symbol),
    }
}

fn own_width(symbol: &Symbol) -> Width
    ensures { result ≡ own_width symbol.now }
{
    match symbol.size {
        1 => Width::Byte,
        2 => Width::Half,
        _ => Width::Word,
    }
}

/// How many bytes behind the start of its symbol a place is.
fn distance_of(behind: Behind, width: Width) -> u64
    ensures distance { result ≡ distance behind width }
    ensures small { result < 2 ^ 34 }
{
    match behind {
        Behind::Element(index) => u64::from(index) * u64::from(width.bytes()),
        Behind::Bytes(bytes) => u64::from(bytes),
    }
}

/// Whether bytes so far behind the start of a symbol are its own; of one without a size all are.
fn is_inside(symbol: &Symbol, distance: u64, width: Width) -> bool
    requires { distance < 2 ^ 34 }
    ensures { result ≡ is_inside symbol.now distance width }
{
    symbol.size == 0 || distance + u64::from(width.bytes()) <= u64::from(symbol.size)
}
