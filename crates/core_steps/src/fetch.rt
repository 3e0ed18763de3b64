ghost use Rattle.std.specs.Prelude.{◌≡◌, ◌<◌, ◌≤◌, length, IfSome};
ghost use Rattle.numbers.specs.Sizes.{latch_room, most_events};
ghost use Rattle.rv_instr.specs.Decode.{op_of_word};
ghost use Rattle.smt_model.specs.Picture.{Picture};
ghost use Rattle.smt_model.specs.Steps.{IsFetch};
ghost use Rattle.core_parts.specs.Agree.{PartsAgree, From, KeepsSizes};
ghost use Rattle.core_steps.specs.Fetch.{next_hart, is_better, better_of, from_to, fetched_of};
ghost use Rattle.core_steps.specs.Fetch.{Fetches, IsFetchedInto, has_room};

use core_parts::{HartState, Parts, Slot};
use smt_model::Status;

/// The best of `best` and the harts `from..to` to fetch, in this order.
fn better(harts: &[HartState], from: usize, to: usize, best: Option<usize>) -> Option<usize>
    requires range { from ≤ to }
    requires end { to ≤ length harts.now }
    requires inside { IfSome best (λ h. h < length harts.now) }
    ensures value { result ≡ better_of harts.now best (from_to from to) }
    ensures inside { IfSome result (λ h. h < length harts.now) }
{
    let mut best = best;
    for hart in from..to {
        if is_better(harts, hart, best) {
            best = Some(hart);
        }
    }
    best
}

/// Whether hart `hart` may be fetched and comes before `best`: it has a lower ICOUNT.
fn is_better(harts: &[HartState], hart: usize, best: Option<usize>) -> bool
    requires hart_inside { hart < length harts.now }
    requires best_inside { IfSome best (λ h. h < length harts.now) }
    ensures { result ≡ is_better harts.now hart best }
{
    match best {
        Some(best) => may_fetch(&harts[hart]) && harts[hart].icount < harts[best].icount,
        None => may_fetch(&harts[hart]),
    }
}

/// Whether the hart may be fetched: it is going and its decode latch has room.
fn may_fetch(state: &HartState) -> bool
    ensures { result ≡ has_room state.now }
{
    matches!(state.status, Status::Going) && !state.decode_latch.is_full()
}

/// The hart to fetch: of those that are going and have room in their decode latch, the one with the
/// lowest ICOUNT, and of equals the first after the hart that was fetched last, going round
/// (Tullsen and others, ISCA 1996).
pub fn choose(harts: &[HartState], last: Option<u8>) -> Option<usize>
    ensures value { result ≡ next_hart harts.now last }
    ensures inside { IfSome result (λ h. h < length harts.now) }
{
    let next = match last {
        Some(last) => harts.len().min(usize::from(last) + 1),
        None => 0,
    };
    let best = better(harts, next, harts.len(), None);
    better(harts, 0, next, best)
}

/// Takes an instruction that hart `hart` has fetched into its decode latch.
#[inline(always)]
pub fn fetch_slot(parts: &mut Parts, hart: usize, slot: Slot)
    requires step { From parts.old hart (λ p q. Fetches p q hart slot) }
    requires op { slot.op ≡ op_of_word slot.word }
    ensures agrees { (p q : Picture) → PartsAgree p parts.old
        → IsFetch p q slot.seq (fetched_of hart slot) → PartsAgree q parts.new }
    ensures sizes { KeepsSizes parts.old parts.new }
{
    enter_latch(&mut parts.harts[hart], slot);
}

/// Takes a fetched instruction into a hart's decode latch.
fn enter_latch(state: &mut HartState, slot: Slot)
    requires room { length state.old.decode_latch.items < latch_room }
    requires few { state.old.icount < most_events }
    ensures { IsFetchedInto slot state.old state.new }
{
    state.decode_latch.push(slot);
    state.icount += 1;
    state.fetch_pc = slot.predicted;
}
