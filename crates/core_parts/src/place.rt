//! Where an instruction is, by its number alone. One that may be decoded, renamed or retired is the
//! oldest of its hart there, so the oldest ones of all harts are looked at first.

ghost use Rattle.std.specs.Prelude.{◌≡◌, ◌≤◌, ℕ, ◌<◌, Some, None, IfSome, IfNone, length};
ghost use Rattle.std.specs.Prelude.{slice_index_or, is_some, true};
ghost use Rattle.numbers.specs.Sizes.{most_harts};
ghost use Rattle.core_parts.specs.Place.{slot_in, member_in};

use crate::hart::HartState;
use crate::parts::Parts;
use crate::slot::Slot;
use numbers::Seq;
use retire_squash::{Active, ActiveList};

impl Parts {
    /// The hart in whose decode latch the instruction of number `seq` is.
    pub fn in_decode_latch(&self, seq: Seq) -> Option<u8>
        requires { length self.now.harts.items ≤ most_harts }
        ensures inside { IfSome result (λ h. h < length self.now.harts.items) }
        ensures some { IfSome result (λ h. (d : HartState) →
            is_some (slot_in (slice_index_or self.now.harts.items h d).decode_latch.items seq)
            ≡ true) }
        ensures none { IfNone result ((h : ℕ) (d : HartState) → h < length self.now.harts.items
            → slot_in (slice_index_or self.now.harts.items h d).decode_latch.items seq ≡ None) }
    {
        for (hart, state) in self.harts.iter().enumerate() {
            if oldest_with(&state.decode_latch, seq).is_some() {
                return Some(hart as u8);
            }
        }
        for (hart, state) in self.harts.iter().enumerate() {
            if slot_of(&state.decode_latch, seq).is_some() {
                return Some(hart as u8);
            }
        }
        None
    }

    /// The hart in whose rename latch the instruction of number `seq` is, and how it stands there.
    pub fn in_rename_latch(&self, seq: Seq) -> Option<(u8, Slot)>
        requires { length self.now.harts.items ≤ most_harts }
        ensures inside { IfSome result (λ r. r.0 < length self.now.harts.items) }
        ensures some { IfSome result (λ r. (d : HartState) →
            slot_in (slice_index_or self.now.harts.items r.0 d).rename_latch.items seq
            ≡ Some r.1) }
        ensures none { IfNone result ((h : ℕ) (d : HartState) → h < length self.now.harts.items
            → slot_in (slice_index_or self.now.harts.items h d).rename_latch.items seq ≡ None) }
    {
        for (hart, state) in self.harts.iter().enumerate() {
            if let Some(oldest) = oldest_with(&state.rename_latch, seq) {
                return Some((hart as u8, oldest));
            }
        }
        for (hart, state) in self.harts.iter().enumerate() {
            if let Some(slot) = slot_of(&state.rename_latch, seq) {
                return Some((hart as u8, slot));
            }
        }
        None
    }

    /// The hart that has the instruction of number `seq` in flight, and how it stands there.
    pub fn in_active_list(&self, seq: Seq) -> Option<(u8, Active)>
        requires { length self.now.harts.items ≤ most_harts }
        ensures inside { IfSome result (λ r. r.0 < length self.now.harts.items) }
        ensures some { IfSome result (λ r. (d : HartState) →
            member_in (slice_index_or self.now.harts.items r.0 d).active seq ≡ Some r.1) }
        ensures none { IfNone result ((h : ℕ) (d : HartState) → h < length self.now.harts.items
            → member_in (slice_index_or self.now.harts.items h d).active seq ≡ None) }
    {
        for (hart, state) in self.harts.iter().enumerate() {
            if let Some(oldest) = oldest_active_with(&state.active, seq) {
                return Some((hart as u8, oldest));
            }
        }
        for (hart, state) in self.harts.iter().enumerate() {
            if let Some(active) = state.active.find(seq) {
                return Some((hart as u8, active));
            }
        }
        None
    }
}

/// The first of these, where it is the instruction of number `seq`.
fn oldest_with(slots: &[Slot], seq: Seq) -> Option<Slot>
    ensures { IfSome result (λ x. slot_in slots.now seq ≡ Some x) }
{
    let oldest = slots.first()?;
    if oldest.seq != seq {
        return None;
    }
    Some(*oldest)
}

/// The oldest of these, where it is the instruction of number `seq`.
fn oldest_active_with(active: &ActiveList, seq: Seq) -> Option<Active>
    ensures { IfSome result (λ x. member_in active.now seq ≡ Some x) }
{
    let oldest = active.head()?;
    if oldest.seq != seq {
        return None;
    }
    Some(*oldest)
}

/// The one of these that is the instruction of number `seq`.
fn slot_of(slots: &[Slot], seq: Seq) -> Option<Slot>
    ensures { result ≡ slot_in slots.now seq }
{
    for slot in slots {
        if slot.seq == seq {
            return Some(*slot);
        }
    }
    None
}
