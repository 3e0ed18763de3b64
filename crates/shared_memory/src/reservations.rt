//! One reservation a hart: the address of an aligned word.

ghost use Rattle.std.specs.Prelude.{◌≡◌, ℕ, ◌<◌, ◌≤◌, ◌==◌, nat_lt, if◌then◌else◌, length};
ghost use Rattle.std.specs.Prelude.{slice_index_or, Some, None};
ghost use Rattle.numbers.specs.Sizes.{most_harts};
ghost use Rattle.smt_model.specs.Reservations.{reservation_after_write, holds_word};
ghost use Rattle.events.specs.declared.effect.Written.{Written};

use numbers::sizes::{HART_ROOM, MOST_HARTS};

/// The reservation that each hart has, where it has one.
pub type Reservations = [Option<u32>; HART_ROOM];

/// The reservation of a hart.
pub fn held_by(reserved: &Reservations, hart: u8) -> Option<u32>
    requires { hart < most_harts }
    ensures { result ≡ slice_index_or reserved.now hart None }
{
    reserved[usize::from(hart)]
}

/// Whether a write at an address ends a reservation: it does on the word that it touches.
#[inline]
fn ends(held: Option<u32>, addr: u32) -> bool
    ensures { (w : Written) → w.addr ≡ addr
        → reservation_after_write (Some w) held ≡ (if result then None else held) }
{
    match held {
        Some(word) => word - word % 4 == addr - addr % 4,
        None => false,
    }
}

/// A write at an address ends the reservations of all harts on its word.
pub fn end_on_word(reserved: &mut Reservations, addr: u32)
    ensures { (w : Written) (h : ℕ) → w.addr ≡ addr → slice_index_or reserved.new h None
        ≡ reservation_after_write (Some w) (slice_index_or reserved.old h None) }
{
    end_below(reserved, MOST_HARTS, addr);
}

/// A write at an address ends the reservations on its word of the harts below `end`.
#[inline]
pub(crate) fn end_below(reserved: &mut Reservations, end: u8, addr: u32)
    requires { end ≤ most_harts }
    ensures length { length reserved.new ≡ length reserved.old }
    ensures held { (w : Written) (h : ℕ) → w.addr ≡ addr → slice_index_or reserved.new h None
        ≡ (if nat_lt h end then reservation_after_write (Some w) (slice_index_or reserved.old h None)
        else slice_index_or reserved.old h None) }
{
    for hart in 0..usize::from(end) {
        end_of_hart(reserved, hart, addr);
    }
}

/// Ends the reservation of one hart, where a write at an address does. Most harts have none, and then
/// nothing is stored.
#[inline(always)]
fn end_of_hart(reserved: &mut Reservations, hart: usize, addr: u32)
    requires { hart < most_harts }
    ensures length { length reserved.new ≡ length reserved.old }
    ensures held { (w : Written) (h : ℕ) → w.addr ≡ addr → slice_index_or reserved.new h None
        ≡ (if h == hart then reservation_after_write (Some w) (slice_index_or reserved.old h None)
        else slice_index_or reserved.old h None) }
{
    if ends(reserved[hart], addr) {
        reserved[hart] = None;
    }
}

/// Whether the reservation is on the word at an address.
pub fn is_on_word(held: Option<u32>, addr: u32) -> bool
    ensures { result ≡ holds_word held addr }
{
    match held {
        Some(word) => word == addr,
        None => false,
    }
}
