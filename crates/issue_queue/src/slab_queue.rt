ghost use Rattle.std.specs.Prelude.{◌≡◌, ℕ, ◌<◌, ◌≤◌, ◌==◌, [], length, map, filter, find, count_by, false, IfSome, IfNone, IfOk};
ghost use Rattle.std.specs.Option.{option_map};
ghost use Rattle.numbers.specs.Sizes.{most_queued};
ghost use Rattle.issue_queue.specs.Entry.{woken_entry, can_issue};
ghost use Rattle.issue_queue.specs.Queue.{has_number, inserted_entry, first_ready, IsOldestReady};
ghost use Rattle.issue_queue.specs.Queue.{AreEntriesRising, is_other, stays};
ghost use Rattle.issue_queue.specs.{Parts.IsSound, SlabQueue.by_number};

use crate::entry::Entry;
use crate::parts::QueueParts;
use crate::plain::place;
use arrayvec::ArrayVec;
use numbers::sizes::MOST_QUEUED;
use numbers::{Phys, Seq};
use rv_instr::UnitKind;
use std::alloc::{AllocError, Global};
use std::marker::Model;

/// The instructions of all harts that wait, and how many there is room for. What waits costs
/// nothing until it is woken: a wake follows the list of those that wait for its register, and the
/// oldest ready one of a kind stands first in the order of its kind.
///
/// ```text
/// slab      key 0: number 4, add   key 1: number 9, mul   key 3: number 7, lw
///           17, waits for 62       waits for 62 twice     80001000, 0
/// waiting   register 62 > first source of key 1 > second source of key 1 > second source of key 0
/// ready     alu: none              mul: none              mem: number 7 under key 3
/// ```
///
/// Who has both numbers goes into its kind's order. Entries, lists and orders agree (`IsSound` of
/// specs/Parts, a sentence for each).
///
/// A clause sees the instructions by rising number, and the room.
#[derive(Drop)]
pub struct SlabQueue {
    size: usize,
    parts: QueueParts,
}

impl Model for SlabQueue {
    ghost use Rattle.issue_queue.specs.Queue.{Queue};
    ghost use Rattle.issue_queue.specs.SlabQueue.{view_of, IsQueue};

    ghost Value = { Queue };

    ghost view = { λ a. view_of a.size a.parts };

    ghost invariant = { λ a. IsQueue a.size a.parts };
}

impl SlabQueue {
    /// An empty queue with room for `size` entries. All memory is taken here.
    ///
    /// It stands in no caller, or its frame would be a part of that one's.
    #[inline(never)]
    pub fn new(alloc: Global, size: u8) -> Result<Self, AllocError>
        requires { size ≤ most_queued }
        ensures { IfOk result (λ q. q ≡ record { size = size; entries = [] }) }
    {
        Ok(SlabQueue {
            size: usize::from(size),
            parts: QueueParts::new(alloc, size)?,
        })
    }

    /// How many instructions wait.
    pub fn len(&self) -> usize
        ensures value { result ≡ length self.now.entries }
        ensures bound { result ≤ self.now.size }
    {
        self.parts.entries.len()
    }

    /// Whether none waits.
    pub fn is_empty(&self) -> bool
        ensures { result ≡ (length self.now.entries == 0) }
    {
        self.len() == 0
    }

    /// Whether there is no room for another.
    pub fn is_full(&self) -> bool
        ensures value { result ≡ (length self.now.entries == self.now.size) }
        ensures bound { length self.now.entries ≤ self.now.size }
    {
        self.len() == self.size
    }

    /// The instructions, by rising number.
    pub fn rising(&self) -> ArrayVec<Entry, MOST_QUEUED>
        ensures entries { result.items ≡ self.now.entries }
        ensures rising { AreEntriesRising result.items }
    {
        rising_of(&self.parts)
    }

    /// The instruction of this number, if it waits.
    pub fn get(&self, seq: Seq) -> Option<Entry>
        ensures { result ≡ find (λ x. x.seq == seq) self.now.entries }
    {
        match self.parts.key_of(seq) {
            Some(key) => self.parts.entries.get(key).copied(),
            None => None,
        }
    }

    /// Whether the instruction of this number waits.
    pub fn holds(&self, seq: Seq) -> bool
        ensures { result ≡ has_number seq self.now.entries }
    {
        self.parts.key_of(seq).is_some()
    }

    /// How many of a hart's instructions wait.
    pub fn count(&self, hart: u8) -> usize
        ensures { result ≡ count_by (λ x. x.hart == hart) self.now.entries }
    {
        count_of(self.rising().as_slice(), hart)
    }

    /// Adds an instruction that doesn't wait yet.
    pub fn insert(&mut self, entry: Entry)
        requires room { length self.old.entries < self.old.size }
        requires absent { has_number entry.seq self.old.entries ≡ false }
        ensures { self.new ≡ record self.old { entries = inserted_entry entry self.old.entries } }
    {
        self.parts.insert(entry);
    }

    /// A physical register has its value: every source that waits for it has that value now.
    pub fn wake(&mut self, register: Phys, value: u32)
        ensures { self.new
            ≡ record self.old { entries = map (woken_entry register value) self.old.entries } }
    {
        self.parts.wake(register, value);
    }

    /// The number that `take_oldest` would take.
    pub fn oldest(&self, kind: UnitKind) -> Option<Seq>
        ensures { result ≡ option_map (λ x. x.seq) (first_ready kind self.now.entries) }
    {
        self.oldest_entry(kind).map(|entry| entry.seq)
    }

    /// The instruction that `take_oldest` would take: the ready one of the lowest number that a
    /// unit of this kind executes.
    pub fn oldest_entry(&self, kind: UnitKind) -> Option<Entry>
        ensures value { result ≡ first_ready kind self.now.entries }
        ensures oldest { IfSome result (IsOldestReady kind self.now.entries) }
    {
        match self.parts.oldest(kind) {
            Some(key) => self.parts.entries.get(key).copied(),
            None => None,
        }
    }

    /// Takes out the ready instruction of the lowest number that a unit of this kind executes.
    pub fn take_oldest(&mut self, kind: UnitKind) -> Option<Entry>
        ensures value { result ≡ first_ready kind self.old.entries }
        ensures oldest { IfSome result (IsOldestReady kind self.old.entries) }
        ensures taken { IfSome result
            (λ x. self.new
            ≡ record self.old { entries = filter (is_other x.seq) self.old.entries }) }
        ensures none { IfNone result (self.new ≡ self.old) }
    {
        match self.parts.oldest(kind) {
            Some(key) => Some(self.parts.remove(key)),
            None => None,
        }
    }

    /// Takes out the instruction of this number, if it waits.
    pub fn remove(&mut self, seq: Seq)
        ensures { self.new ≡ record self.old { entries = filter (is_other seq) self.old.entries } }
    {
        if let Some(key) = self.parts.key_of(seq) {
            self.parts.remove(key);
        }
    }

    /// Takes out a hart's instructions that are younger than `after`.
    pub fn squash(&mut self, hart: u8, after: Seq)
        ensures { self.new
            ≡ record self.old { entries = filter (stays hart after) self.old.entries } }
    {
        self.parts.squash(hart, after);
    }
}

/// The entries of a queue's parts by rising number.
fn rising_of(parts: &QueueParts) -> ArrayVec<Entry, MOST_QUEUED>
    requires { IsSound parts.now }
    ensures { result.items ≡ by_number parts.now.entries.slots }
{
    let mut rising = ArrayVec::new();
    for key in 0..parts.entries.capacity() {
        if let Some(entry) = parts.entries.get(key) {
            place(&mut rising, *entry);
        }
    }
    rising
}

fn count_of(entries: &[Entry], hart: u8) -> usize
    ensures { result ≡ count_by (λ x. x.hart == hart) entries.now }
{
    entries.iter().filter(|entry| entry.hart == hart).count()
}
