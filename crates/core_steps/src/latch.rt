ghost use Rattle.std.specs.Prelude.{◌≡◌, ◌-◌, ◌<◌, length, remove, take};

use arrayvec::ArrayVec;
use core_parts::Slot;
use numbers::sizes::LATCH_ROOM;

/// Takes the oldest instruction out of a latch. The others move up one by one: there are fewer than
/// `LATCH_ROOM`, and mostly one, for which `ArrayVec::remove` does three times as much.
pub(crate) fn drop_oldest(latch: &mut ArrayVec<Slot, LATCH_ROOM>)
    requires { 0 < length latch.old.items }
    ensures { latch.new.items ≡ remove latch.old.items 0 }
{
    move_up(latch.as_mut_slice());
    latch.pop();
}

// Moves what stands behind the first up by one, over it. The last place is spare then.
fn move_up(slots: &mut [Slot])
    requires { 0 < length slots.old }
    ensures { take (length slots.old - 1) slots.new ≡ remove slots.old 0 }
{
    for place in 0..slots.len() - 1 {
        slots[place] = slots[place + 1];
    }
}
