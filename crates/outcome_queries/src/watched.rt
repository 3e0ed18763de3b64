ghost use Rattle.std.specs.Prelude.{◌≡◌, ℕ, IfOk, IfErr, IfSome, IfNone};
ghost use Rattle.symbols.specs.Tables.{table_of};
ghost use Rattle.watched_outcomes.specs.declared.watch.WatchedBytes.{WatchedBytes};
ghost use Rattle.outcome_queries.specs.Watched.{Names, IsUnnamed, Spells, SpellsRegister, SpellsBytes};

use crate::at_name::bytes_at;
use crate::placed::read_placed;
use crate::refused::Expected;
use crate::width::split_width;
use numbers::Reg;
use rv_text::register_named;
use symbols::Symbols;
use text_fields::{read_decimal, read_hex, split_field};
use watched_outcomes::WatchedBytes;

/// What is looked at in the end of a program.
#[derive(Clone, Copy, PartialEq, Eq, Drop)]
pub enum Watched {
    /// A register of a hart, x1 to x31.
    Register { hart: u8, register: Reg },
    /// A word of memory, a half or a byte.
    Bytes(WatchedBytes),
}

impl Default for Watched {
    fn default() -> Watched {
        Watched::Bytes(WatchedBytes::default())
    }
}

/// What is looked at, and the text that asked for it.
#[derive(Clone, Copy, Drop)]
pub struct Asked<'a> {
    pub watched: Watched,
    pub spelled: &'a [u8],
}

impl Default for Asked<'_> {
    fn default() -> Self {
        Asked {
            watched: Watched::default(),
            spelled: &[],
        }
    }
}

/// What a text names: `a0@1` and `x10@1` a register at a hart; `80001000:4` the word at an address of eight hexadecimal
/// digits, with `:2` the half and with `:1` the byte; else a place by a name of the program.
pub(crate) fn read_watched(text: &[u8], names: &Symbols<'_>) -> Result<Watched, Expected>
    ensures found { IfOk result (Names (table_of names.now) text.now) }
    ensures refused { IfErr result (IsUnnamed (table_of names.now) text.now) }
{
    if let Some(register) = read_register(text) {
        return Ok(register);
    }
    if let Some(bytes) = read_bytes(text) {
        return Ok(bytes);
    }
    let Some(placed) = read_placed(text) else {
        return Err(Expected::Watched);
    };
    match bytes_at(&placed, names) {
        Ok(bytes) => Ok(Watched::Bytes(bytes)),
        Err(expected) => Err(expected),
    }
}

fn read_register(text: &[u8]) -> Option<Watched>
    ensures found { IfSome result (Spells text.now) }
    ensures none { IfNone result
        ((hart register : ℕ) → SpellsRegister text.now hart register → ⊥) }
{
    let (name, hart_text) = split_field(text, b'@');
    let Some(register) = register_named(name) else {
        return None;
    };
    let Ok(hart) = read_decimal(hart_text, 255) else {
        return None;
    };
    Some(Watched::Register {
        hart: hart as u8,
        register,
    })
}

fn read_bytes(text: &[u8]) -> Option<Watched>
    ensures found { IfSome result (Spells text.now) }
    ensures none { IfNone result ((bytes : WatchedBytes) → SpellsBytes text.now bytes → ⊥) }
{
    let (address, width) = split_width(text);
    let Some(width) = width else {
        return None;
    };
    match read_hex(address, 8) {
        Ok(address) => Some(Watched::Bytes(WatchedBytes { address, width })),
        Err(_) => None,
    }
}
