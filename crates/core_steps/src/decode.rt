ghost use Rattle.std.specs.Prelude.{ℕ, ◌<◌, length, IfSome, IfNone};
ghost use Rattle.numbers.specs.Sizes.{latch_room};
ghost use Rattle.smt_model.specs.Picture.{Picture};
ghost use Rattle.smt_model.specs.Steps.{IsDecode};
ghost use Rattle.core_parts.specs.Agree.{PartsAgree, From, KeepsSizes};
ghost use Rattle.core_steps.specs.Decode.{CanDecode, Decodes, IsDecoded};

use crate::latch::drop_oldest;
use core_parts::{HartState, Parts};
use numbers::Seq;

/// The number of hart `hart`'s oldest fetched instruction, where it can be decoded: the rename
/// latch has room. None where there is no such instruction, room or hart.
pub fn next_to_decode(parts: &Parts, hart: u8) -> Option<Seq>
    ensures inside { IfSome result (λ s. hart < length parts.now.harts.items) }
    ensures some { IfSome result
        (λ s. (p : Picture) → PartsAgree p parts.now → CanDecode p hart s) }
    ensures none { IfNone result ((p : Picture) → PartsAgree p parts.now
        → hart < length parts.now.harts.items → (s : ℕ) → CanDecode p hart s → ⊥) }
{
    let state = parts.harts.get(usize::from(hart))?;
    let slot = state.decode_latch.first()?;
    if state.rename_latch.is_full() {
        None
    } else {
        Some(slot.seq)
    }
}

/// Decodes hart `hart`'s oldest fetched instruction.
#[inline(always)]
pub fn decode_oldest(parts: &mut Parts, hart: u8)
    requires step { From parts.old hart (λ p q. Decodes p q hart) }
    ensures agrees { (p q : Picture) → PartsAgree p parts.old → (n : ℕ) → IsDecode p q hart n
        → PartsAgree q parts.new }
    ensures sizes { KeepsSizes parts.old parts.new }
{
    move_to_rename(&mut parts.harts[usize::from(hart)]);
}

/// Moves a hart's oldest fetched instruction to its rename latch.
fn move_to_rename(state: &mut HartState)
    requires some { 0 < length state.old.decode_latch.items }
    requires room { length state.old.rename_latch.items < latch_room }
    ensures { IsDecoded state.old state.new }
{
    let slot = state.decode_latch[0];
    drop_oldest(&mut state.decode_latch);
    state.rename_latch.push(slot);
}
