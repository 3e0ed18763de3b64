//! The name of an address.

ghost use Rattle.std.specs.Prelude.{◌≡◌, ◌-◌, ◌==◌, ◌&&◌, Bool, IfSome, IfNone, Some, None, find};
ghost use Rattle.symbols.specs.Naming.{covers, is_found, rank, symbol_for};
ghost use Rattle.symbols.specs.Symbols.{name_of};

use crate::reading::Symbols;
use crate::symbol::Symbol;

/// Where an address is: in what, and how many bytes behind its start.
#[derive(Clone, Copy, Drop)]
pub struct Place<'a> {
    pub name: &'a [u8],
    pub symbol: Symbol,
    pub behind: u32,
}

/// The name of an address: that of the function or object that covers it, or else of the label; one that all parts of
/// the program know before one of a single part; of equals the first of the table. None where nothing covers it.
pub fn name_at<'a>(symbols: &'a Symbols<'a>, address: u32) -> Option<Place<'a>>
    ensures some { IfSome result (λ place. (symbol_for symbols.now.symbols.items address ≡ Some place.symbol)
        × (place.name.now ≡ name_of symbols.now.names.now place.symbol)
        × (place.behind ≡ address - place.symbol.address)) }
    ensures none { IfNone result (symbol_for symbols.now.symbols.items address ≡ None) }
{
    let symbol = symbol_for(symbols.symbols.as_slice(), address)?;
    Some(Place {
        name: symbol.name_in(symbols.names),
        symbol,
        behind: address.saturating_sub(symbol.address),
    })
}

fn symbol_for(symbols: &[Symbol], address: u32) -> Option<Symbol>
    ensures { result ≡ symbol_for symbols.now address }
{
    if let Some(symbol) = first_of(symbols, address, 0) {
        return Some(symbol);
    }
    if let Some(symbol) = first_of(symbols, address, 1) {
        return Some(symbol);
    }
    if let Some(symbol) = first_of(symbols, address, 2) {
        return Some(symbol);
    }
    first_of(symbols, address, 3)
}

/// The first symbol of a rank that covers an address.
fn first_of(symbols: &[Symbol], address: u32, rank: u8) -> Option<Symbol>
    ensures { result ≡ find (is_found address rank) symbols.now }
{
    symbols
        .iter()
        .copied()
        .find(|symbol| is_found(*symbol, address, rank))
}

fn is_found(symbol: Symbol, address: u32, rank: u8) -> bool
    ensures { result ≡ is_found address rank symbol }
{
    covers(symbol, address) && rank_of(symbol) == rank
}

/// How good a name it is, the lowest best.
fn rank_of(symbol: Symbol) -> u8
    ensures { result ≡ rank symbol }
{
    let sort = if symbol.info % 16 == 0 { 2 } else { 0 };
    let part = if symbol.is_global() { 0 } else { 1 };
    sort + part
}

/// Whether an address is one of those that a symbol names.
pub fn covers(symbol: Symbol, address: u32) -> bool
    ensures { result ≡ covers address symbol }
{
    if address < symbol.address {
        return false;
    }
    if symbol.size == 0 {
        return address == symbol.address;
    }
    u64::from(address) < u64::from(symbol.address) + u64::from(symbol.size)
}
