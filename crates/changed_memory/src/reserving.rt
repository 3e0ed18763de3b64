//! What an instruction does with the reservations.

ghost use Rattle.std.specs.Prelude.{◌≡◌, ℕ, ◌<◌, ◌==◌, if◌then◌else◌, slice_index_or, None};
ghost use Rattle.std.specs.Prelude.{length};
ghost use Rattle.numbers.specs.Sizes.{most_harts};
ghost use Rattle.smt_model.specs.Reservations.{own_reservation, reservation_after};
ghost use Rattle.smt_model.specs.Reservations.{reservation_after_write};

use events::{Effect, Written};
use rv_instr::{Kind, Op};
use shared_memory::{Reservations, end_on_word};

/// Does what an instruction of a hart at an address does with the reservations: LR reserves the
/// word, SC ends its hart's reservation, and a write ends all on its word.
pub fn reserve(reserved: &mut Reservations, hart: u8, op: Op, addr: u32, effect: Effect)
    requires { hart < most_harts }
    ensures after { (h : ℕ) → slice_index_or reserved.new h None
        ≡ reservation_after op addr effect (h == hart) (slice_index_or reserved.old h None) }
    ensures room { length reserved.new ≡ most_harts }
{
    if effect.next.is_last() {
        return;
    }
    reserve_own(reserved, hart, op.kind(), addr);
    end_written(reserved, effect.write);
    have_room(reserved);
}

/// There is room for a reservation of each hart that may be. It is called for this clause.
fn have_room(reserved: &Reservations)
    ensures { length reserved.now ≡ most_harts }
{}

/// LR reserves the word at `addr`, and SC ends its hart's reservation.
fn reserve_own(reserved: &mut Reservations, hart: u8, kind: Kind, addr: u32)
    requires { hart < most_harts }
    ensures { (h : ℕ) → slice_index_or reserved.new h None
        ≡ (if h == hart then own_reservation kind addr (slice_index_or reserved.old h None)
        else slice_index_or reserved.old h None) }
{
    match kind {
        Kind::Reserving => reserved[usize::from(hart)] = Some(addr),
        Kind::Conditional => reserved[usize::from(hart)] = None,
        Kind::Computing | Kind::Loading | Kind::Storing | Kind::Atomic => {}
    }
}

/// Ends every reservation on the word that is written, if one is.
fn end_written(reserved: &mut Reservations, write: Option<Written>)
    ensures { (h : ℕ) → slice_index_or reserved.new h None
        ≡ reservation_after_write write (slice_index_or reserved.old h None) }
{
    if let Some(written) = write {
        end_on_word(reserved, written.addr);
    }
}
