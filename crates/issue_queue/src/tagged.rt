ghost use Rattle.std.specs.Prelude.{◌≡◌, ◌<◌, ◌≤◌, ◌==◌, length, map, filter, count_by, false, IfSome, IfNone};
ghost use Rattle.std.specs.Option.{option_map};
ghost use Rattle.issue_queue.specs.Entry.{woken_entry};
ghost use Rattle.issue_queue.specs.Queue.{Queue, has_number, inserted_entry, first_ready, is_other, stays};

use crate::entry::Entry;
use crate::plain::PlainQueue;
use crate::slab_queue::SlabQueue;
use numbers::{Phys, Seq};
use rv_instr::UnitKind;

/// A queue of the instructions that wait, each under its number. It means the list of its entries,
/// by rising number, and its size: it is full exactly where the list has that many. No call changes
/// the size.
pub trait TaggedQueue {
    ghost queue: { Self → Queue };

    /// Whether there is no room for another.
    fn is_full(&self) -> bool
        ensures value { result ≡ (length (queue self.now).entries == (queue self.now).size) }
        ensures bound { length (queue self.now).entries ≤ (queue self.now).size };

    /// Whether the instruction of this number waits.
    fn holds(&self, seq: Seq) -> bool
        ensures { result ≡ has_number seq (queue self.now).entries };

    /// How many of a hart's instructions wait.
    fn count(&self, hart: u8) -> usize
        ensures { result ≡ count_by (λ x. x.hart == hart) (queue self.now).entries };

    /// Adds an instruction that doesn't wait yet.
    fn insert(&mut self, entry: Entry)
        requires room { length (queue self.old).entries < (queue self.old).size }
        requires absent { has_number entry.seq (queue self.old).entries ≡ false }
        ensures { queue self.new ≡ record (queue self.old)
            { entries = inserted_entry entry (queue self.old).entries } };

    /// A physical register has its value: every source that waits for it has that value now.
    fn wake(&mut self, register: Phys, value: u32)
        ensures { queue self.new ≡ record (queue self.old)
            { entries = map (woken_entry register value) (queue self.old).entries } };

    /// The number that `take_oldest` would take.
    fn oldest(&self, kind: UnitKind) -> Option<Seq>
        ensures { result
            ≡ option_map (λ x. x.seq) (first_ready kind (queue self.now).entries) };

    /// Takes out the ready instruction of the lowest number that a unit of this kind executes.
    fn take_oldest(&mut self, kind: UnitKind) -> Option<Entry>
        ensures value { result ≡ first_ready kind (queue self.old).entries }
        ensures taken { IfSome result (λ x. queue self.new ≡ record (queue self.old)
            { entries = filter (is_other x.seq) (queue self.old).entries }) }
        ensures none { IfNone result (queue self.new ≡ queue self.old) };

    /// Takes out a hart's instructions that are younger than `after`.
    fn squash(&mut self, hart: u8, after: Seq)
        ensures { queue self.new ≡ record (queue self.old)
            { entries = filter (stays hart after) (queue self.old).entries } };
}

impl TaggedQueue for PlainQueue {
    ghost queue = { λ q. q };

    fn is_full(&self) -> bool {
        PlainQueue::is_full(self)
    }

    fn holds(&self, seq: Seq) -> bool {
        PlainQueue::holds(self, seq)
    }

    fn count(&self, hart: u8) -> usize {
        PlainQueue::count(self, hart)
    }

    fn insert(&mut self, entry: Entry) {
        PlainQueue::insert(self, entry);
    }

    fn wake(&mut self, register: Phys, value: u32) {
        PlainQueue::wake(self, register, value);
    }

    fn oldest(&self, kind: UnitKind) -> Option<Seq> {
        PlainQueue::oldest(self, kind)
    }

    fn take_oldest(&mut self, kind: UnitKind) -> Option<Entry> {
        PlainQueue::take_oldest(self, kind)
    }

    fn squash(&mut self, hart: u8, after: Seq) {
        PlainQueue::squash(self, hart, after);
    }
}

impl TaggedQueue for SlabQueue {
    ghost queue = { λ q. q };

    fn is_full(&self) -> bool {
        SlabQueue::is_full(self)
    }

    fn holds(&self, seq: Seq) -> bool {
        SlabQueue::holds(self, seq)
    }

    fn count(&self, hart: u8) -> usize {
        SlabQueue::count(self, hart)
    }

    fn insert(&mut self, entry: Entry) {
        SlabQueue::insert(self, entry);
    }

    fn wake(&mut self, register: Phys, value: u32) {
        SlabQueue::wake(self, register, value);
    }

    fn oldest(&self, kind: UnitKind) -> Option<Seq> {
        SlabQueue::oldest(self, kind)
    }

    fn take_oldest(&mut self, kind: UnitKind) -> Option<Entry> {
        SlabQueue::take_oldest(self, kind)
    }

    fn squash(&mut self, hart: u8, after: Seq) {
        SlabQueue::squash(self, hart, after);
    }
}
