ghost use Rattle.std.specs.Prelude.{◌≡◌, ℕ, ◌-◌, ◌<◌, ◌≤◌, ◌==◌, [], length, map, filter, find};
ghost use Rattle.std.specs.Prelude.{count_by, false, remove, slice_index_or, take, IfSome, IfNone};
ghost use Rattle.std.specs.List.{AllByRecursion};
ghost use Rattle.std.specs.Option.{option_map};
ghost use Rattle.numbers.specs.Sizes.{most_queued};
ghost use Rattle.issue_queue.specs.declared.entry.Entry.{Entry as AnyEntry};
ghost use Rattle.issue_queue.specs.Entry.{woken_entry, can_issue};
ghost use Rattle.issue_queue.specs.Queue.{has_number, inserted_entry, first_ready, IsOldestReady};
ghost use Rattle.issue_queue.specs.Queue.{AreEntriesRising, is_other, stays};

use crate::entry::Entry;
use arrayvec::ArrayVec;
use numbers::sizes::MOST_QUEUED;
use numbers::{Phys, Seq};
use rv_instr::UnitKind;
use std::marker::Model;

/// The instructions of all harts that wait, by rising number, and how many there is room for.
/// A clause sees both.
#[derive(Drop)]
pub struct PlainQueue {
    size: usize,
    entries: ArrayVec<Entry, MOST_QUEUED>,
}

impl Model for PlainQueue {
    ghost use Rattle.numbers.specs.Sizes.{most_queued};
    ghost use Rattle.issue_queue.specs.Queue.{Queue, AreEntriesRising};
    ghost use Rattle.std.specs.Prelude.{◌≤◌, length};

    ghost Value = { Queue };

    ghost view = { λ a. record { size = a.size; entries = a.entries.items } };

    ghost invariant = { λ a. (a.size ≤ most_queued) × (length a.entries.items ≤ a.size)
        × AreEntriesRising a.entries.items };
}

impl PlainQueue {
    /// An empty queue with room for `size` entries.
    pub fn new(size: u8) -> Self
        requires { size ≤ most_queued }
        ensures { result ≡ record { size = size; entries = [] } }
    {
        PlainQueue {
            size: usize::from(size),
            entries: ArrayVec::new(),
        }
    }

    /// How many instructions wait.
    pub fn len(&self) -> usize
        ensures value { result ≡ length self.now.entries }
        ensures bound { result ≤ self.now.size }
    {
        self.entries.len()
    }

    /// Whether none waits.
    pub fn is_empty(&self) -> bool
        ensures { result ≡ (length self.now.entries == 0) }
    {
        self.entries.is_empty()
    }

    /// Whether there is no room for another.
    pub fn is_full(&self) -> bool
        ensures value { result ≡ (length self.now.entries == self.now.size) }
        ensures bound { length self.now.entries ≤ self.now.size }
    {
        self.len() == self.size
    }

    /// The instructions, by rising number.
    pub fn rising(&self) -> ArrayVec<Entry, MOST_QUEUED>
        ensures entries { result.items ≡ self.now.entries }
        ensures rising { AreEntriesRising result.items }
    {
        copy_of(self.entries.as_slice())
    }

    /// The instruction of this number, if it waits.
    pub fn get(&self, seq: Seq) -> Option<Entry>
        ensures { result ≡ find (λ x. x.seq == seq) self.now.entries }
    {
        self.entries.iter().copied().find(|entry| entry.seq == seq)
    }

    /// Whether the instruction of this number waits.
    pub fn holds(&self, seq: Seq) -> bool
        ensures { result ≡ has_number seq self.now.entries }
    {
        self.entries.iter().any(|entry| entry.seq == seq)
    }

    /// How many of a hart's instructions wait.
    pub fn count(&self, hart: u8) -> usize
        ensures { result ≡ count_by (λ x. x.hart == hart) self.now.entries }
    {
        self.entries
            .iter()
            .filter(|entry| entry.hart == hart)
            .count()
    }

    /// Adds an instruction that doesn't wait yet.
    pub fn insert(&mut self, entry: Entry)
        requires room { length self.old.entries < self.old.size }
        requires absent { has_number entry.seq self.old.entries ≡ false }
        ensures { self.new ≡ record self.old { entries = inserted_entry entry self.old.entries } }
    {
        place(&mut self.entries, entry);
    }

    /// A physical register has its value: every source that waits for it has that value now.
    pub fn wake(&mut self, register: Phys, value: u32)
        ensures { self.new
            ≡ record self.old { entries = map (woken_entry register value) self.old.entries } }
    {
        wake_all(self.entries.as_mut_slice(), register, value);
    }

    /// The number that `take_oldest` would take.
    pub fn oldest(&self, kind: UnitKind) -> Option<Seq>
        ensures { result ≡ option_map (λ x. x.seq) (first_ready kind self.now.entries) }
    {
        self.oldest_entry(kind).map(|entry| entry.seq)
    }

    /// The instruction that `take_oldest` would take: the ready one of the lowest number that a
    /// unit of this kind executes.
    pub fn oldest_entry(&self, kind: UnitKind) -> Option<Entry>
        ensures value { result ≡ first_ready kind self.now.entries }
        ensures oldest { IfSome result (IsOldestReady kind self.now.entries) }
    {
        first_ready(kind, self.entries.as_slice())
    }

    /// Takes out the ready instruction of the lowest number that a unit of this kind executes.
    pub fn take_oldest(&mut self, kind: UnitKind) -> Option<Entry>
        ensures value { result ≡ first_ready kind self.old.entries }
        ensures oldest { IfSome result (IsOldestReady kind self.old.entries) }
        ensures taken { IfSome result
            (λ x. self.new
            ≡ record self.old { entries = filter (is_other x.seq) self.old.entries }) }
        ensures none { IfNone result (self.new ≡ self.old) }
    {
        let entry = self.oldest_entry(kind)?;
        self.remove(entry.seq);
        Some(entry)
    }

    /// Takes out the instruction of this number, if it waits.
    pub fn remove(&mut self, seq: Seq)
        ensures { self.new ≡ record self.old { entries = filter (is_other seq) self.old.entries } }
    {
        if let Some(place) = place_with(seq, self.entries.as_slice()) {
            close_gap(self.entries.as_mut_slice(), place);
            self.entries.pop();
        }
    }

    /// Takes out a hart's instructions that are younger than `after`.
    pub fn squash(&mut self, hart: u8, after: Seq)
        ensures { self.new
            ≡ record self.old { entries = filter (stays hart after) self.old.entries } }
    {
        self.entries
            .retain(|entry| !(entry.hart == hart && after < entry.seq));
    }
}

/// Writes an entry where it belongs among these.
pub(crate) fn place(entries: &mut ArrayVec<Entry, MOST_QUEUED>, entry: Entry)
    requires room { length entries.old.items < most_queued }
    requires rising { AreEntriesRising entries.old.items }
    ensures { entries.new.items ≡ inserted_entry entry entries.old.items }
{
    entries.push(entry);
    sink_last(entries.as_mut_slice(), &entry);
}

// Writes an entry where it belongs among all but the last of these, whose place is spare. A new
// entry mostly belongs near the end, so its place is sought from there, and those of a higher
// number move up by one on the way. It stays out of its caller's frame, where an entry, which is
// large, would stand twice.
#[inline(never)]
fn sink_last(entries: &mut [Entry], entry: &Entry)
    requires spare { 0 < length entries.old }
    requires rising { AreEntriesRising (take (length entries.old - 1) entries.old) }
    ensures { entries.new ≡ inserted_entry entry.now (take (length entries.old - 1) entries.old) }
{
    for before in (0..entries.len() - 1).rev() {
        if entries[before].seq <= entry.seq {
            entries[before + 1] = *entry;
            return;
        }
        entries[before + 1] = entries[before];
    }
    entries[0] = *entry;
}

// Moves those behind this place down by one, over the one that stands in it. The last place is
// spare then.
fn close_gap(entries: &mut [Entry], place: usize)
    requires inside { place < length entries.old }
    ensures { take (length entries.old - 1) entries.new ≡ remove entries.old place }
{
    for i in place..entries.len() - 1 {
        entries[i] = entries[i + 1];
    }
}

// Where the entry of this number stands.
fn place_with(seq: Seq, entries: &[Entry]) -> Option<usize>
    ensures inside { IfSome result (λ i. i < length entries.now) }
    ensures there { IfSome result
        (λ i. (d : AnyEntry) → (slice_index_or entries.now i d).seq ≡ seq) }
    ensures none { IfNone result (has_number seq entries.now ≡ false) }
{
    for (i, entry) in entries.iter().enumerate() {
        if entry.seq == seq {
            return Some(i);
        }
    }
    None
}

fn first_ready(kind: UnitKind, entries: &[Entry]) -> Option<Entry>
    ensures { result ≡ first_ready kind entries.now }
{
    entries.iter().copied().find(|entry| entry.can_issue(kind))
}

fn copy_of(entries: &[Entry]) -> ArrayVec<Entry, MOST_QUEUED>
    requires { length entries.now ≤ most_queued }
    ensures { result.items ≡ entries.now }
{
    let mut copy = ArrayVec::new();
    for entry in entries {
        copy.push(*entry);
    }
    copy
}

fn wake_all(entries: &mut [Entry], register: Phys, value: u32)
    ensures { entries.new ≡ map (woken_entry register value) entries.old }
{
    for entry in entries.iter_mut() {
        entry.wake(register, value);
    }
}
