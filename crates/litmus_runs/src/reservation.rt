//! A hart's reservation by its own instructions. Whether another hart's write has ended it isn't said here.

ghost use Rattle.std.specs.Prelude.{◌≡◌, true};
ghost use Rattle.smt_model.specs.Reservations.{
  own_reservation,
  reservation_after_write,
  reservation_after,
  holds_word,
};

use events::{Effect, Written};
use rv_instr::{Kind, Op};

/// Whether a reservation is on the word at an address.
pub fn holds_word(reserved: Option<u32>, address: u32) -> bool
    ensures { result ≡ holds_word reserved address }
{
    match reserved {
        Some(word) => word == address,
        None => false,
    }
}

/// The reservation of a hart behind its own instruction with this effect.
pub fn reservation_after(op: Op, address: u32, effect: Effect, reserved: Option<u32>) -> Option<u32>
    ensures { result ≡ reservation_after op address effect true reserved }
{
    if effect.next.is_last() {
        return reserved;
    }
    after_write(effect.write, own_reservation(op.kind(), address, reserved))
}

/// What an instruction of this kind does with its hart's reservation.
fn own_reservation(kind: Kind, address: u32, reserved: Option<u32>) -> Option<u32>
    ensures { result ≡ own_reservation kind address reserved }
{
    match kind {
        Kind::Reserving => Some(address),
        Kind::Conditional => None,
        Kind::Computing | Kind::Loading | Kind::Storing | Kind::Atomic => reserved,
    }
}

/// A reservation behind a write, which ends one on its word.
fn after_write(write: Option<Written>, reserved: Option<u32>) -> Option<u32>
    ensures { result ≡ reservation_after_write write reserved }
{
    let Some(written) = write else {
        return reserved;
    };
    let Some(word) = reserved else {
        return None;
    };
    if word - word % 4 == written.addr - written.addr % 4 {
        return None;
    }
    Some(word)
}
