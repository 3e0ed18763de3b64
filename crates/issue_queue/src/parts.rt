ghost use Rattle.std.specs.Prelude.{◌≡◌, ℕ, ◌+◌, ◌<◌, ◌≤◌, ◌↔◌, Option, Some, None, IfOk, IfSome, IfNone, IsTrue, []};
ghost use Rattle.std.specs.Prelude.{length, if◌then◌else◌};
ghost use Rattle.numbers.specs.Sizes.{most_queued};
ghost use Rattle.rv_instr.specs.declared.op.UnitKind.{UnitKind};
ghost use Rattle.slab.specs.Slab.{get, HasRoomFor, ContainsKey, Updates};
ghost use Rattle.issue_queue.specs.declared.entry.Entry.{Entry as AnyEntry};
ghost use Rattle.issue_queue.specs.Entry.{can_issue};
ghost use Rattle.issue_queue.specs.Queue.{stays};
ghost use Rattle.issue_queue.specs.Order.{in_order, without, AreReadyRising};
ghost use Rattle.issue_queue.specs.Ready.{order_of};
ghost use Rattle.issue_queue.specs.Waiting.{nodes, IsLinked, IsFirst, with_register};
ghost use Rattle.issue_queue.specs.Parts.{IsSound, NoneHasNumber, HasNumberAt, IsAdded, IsGiven, AreWoken, AreKept};
ghost use Rattle.issue_queue.specs.Parts.{IsOldestAt, NoneReady, HasYounger, IsPlaced, WaitsOrNot, key_of, side_of};
ghost use Rattle.issue_queue.specs.Parts.{register_of, listed_register, ready_of, waits_at};

use crate::entry::{Entry, Source};
use crate::order::Ready;
use crate::ready::ReadyOrders;
use crate::waiting::{NODES, WaitingLists};
use numbers::sizes::{MOST_QUEUED, MOST_REGISTERS};
use numbers::{Phys, Seq};
use rv_instr::UnitKind;
use slab::Slab;
use std::alloc::{AllocError, Global};

/// The entries under the keys that the slab picks, which of their sources wait for which register,
/// and which of them are ready.
#[derive(Drop)]
pub(crate) struct QueueParts {
    pub(crate) entries: Slab<Entry>,
    waiting: WaitingLists,
    ready: ReadyOrders,
}

impl QueueParts {
    /// No entries, and room for so many. All memory is taken here.
    pub(crate) fn new(alloc: Global, size: u8) -> Result<Self, AllocError>
        requires { size ≤ most_queued }
        ensures sound { IfOk result IsSound }
        ensures empty { IfOk result (λ p. p.entries.slots ≡ []) }
        ensures room { IfOk result (λ p. size ≤ p.entries.capacity) }
    {
        let mut entries = Slab::new(alloc);
        entries.reserve(usize::from(size))?;
        // A key is below the capacity, and the lists have a node for each of so many.
        if entries.capacity() > MOST_QUEUED {
            return Err(AllocError);
        }
        Ok(QueueParts {
            entries,
            waiting: WaitingLists::new(),
            ready: ReadyOrders::new(alloc)?,
        })
    }

    /// Adds an entry under a key that had none.
    pub(crate) fn insert(&mut self, entry: Entry)
        requires sound { IsSound self.old }
        requires room { HasRoomFor self.old.entries 1 }
        requires absent { NoneHasNumber entry.seq self.old.entries }
        ensures sound { IsSound self.new }
        ensures added { IsAdded self.old.entries self.new.entries entry }
        ensures capacity { self.new.entries.capacity ≡ self.old.entries.capacity }
    {
        let key = self.entries.insert_reserved(entry);
        let [first, second] = entry.sources;
        enlist(&mut self.waiting, key, first);
        enlist(&mut self.waiting, key + MOST_QUEUED, second);
        offer(&mut self.ready, key, &entry);
    }

    /// Takes out the entry under a key.
    pub(crate) fn remove(&mut self, key: usize) -> Entry
        requires sound { IsSound self.old }
        requires there { ContainsKey self.old.entries key }
        ensures sound { IsSound self.new }
        ensures entry { get self.old.entries key ≡ Some result }
        ensures gone { Updates self.old.entries self.new.entries key None }
        ensures capacity { self.new.entries.capacity ≡ self.old.entries.capacity }
    {
        let entry = self.entries.remove(key);
        let [first, second] = entry.sources;
        unlink(&mut self.waiting, key, first);
        unlink(&mut self.waiting, key + MOST_QUEUED, second);
        withdraw(&mut self.ready, &entry);
        entry
    }

    /// The key of the ready entry of the lowest number that a unit of this kind executes.
    pub(crate) fn oldest(&self, kind: UnitKind) -> Option<usize>
        requires { IsSound self.now }
        ensures some { IfSome result (IsOldestAt kind self.now.entries) }
        ensures none { IfNone result (NoneReady kind self.now.entries) }
    {
        let ready = self.ready.oldest(kind)?;
        Some(usize::from(ready.key))
    }

    /// Every source that waits for this register has this value now. The register's list is
    /// followed, and nothing else.
    pub(crate) fn wake(&mut self, register: Phys, value: u32)
        requires { IsSound self.old }
        ensures sound { IsSound self.new }
        ensures woken { AreWoken register value self.old.entries self.new.entries }
        ensures capacity { self.new.entries.capacity ≡ self.old.entries.capacity }
    {
        while let Some(node) = self.first_waiting(register) {
            self.give(node, register, value);
        }
    }

    /// A source that waits for this register. Registers that no core has are in no list.
    fn first_waiting(&self, register: Phys) -> Option<usize>
        requires { IsSound self.now }
        ensures { IsFirst (waits_at self.now.entries) register result }
    {
        if usize::from(register) < MOST_REGISTERS {
            self.waiting.first(register)
        } else {
            self.search_waiting(register)
        }
    }

    fn search_waiting(&self, register: Phys) -> Option<usize>
        requires { IsSound self.now }
        ensures { IsFirst (waits_at self.now.entries) register result }
    {
        for node in 0..NODES {
            if waits_for(&self.entries, node, register) {
                return Some(node);
            }
        }
        None
    }

    /// The key of the entry of this number. What is asked for most is the oldest ready one of some
    /// kind, so those are looked at first.
    pub(crate) fn key_of(&self, seq: Seq) -> Option<usize>
        requires { IsSound self.now }
        ensures some { IfSome result (HasNumberAt seq self.now.entries) }
        ensures none { IfNone result (NoneHasNumber seq self.now.entries) }
    {
        for kind in [UnitKind::Alu, UnitKind::Mul, UnitKind::Mem] {
            if let Some(ready) = self.ready.oldest(kind)
                && ready.seq == seq
            {
                return Some(usize::from(ready.key));
            }
        }
        search_number(&self.entries, seq)
    }

    /// A source that waits for this register has this value now.
    fn give(&mut self, node: usize, register: Phys, value: u32)
        requires sound { IsSound self.old }
        requires node { node < nodes }
        requires waits { waits_at self.old.entries node ≡ Some register }
        ensures sound { IsSound self.new }
        ensures given { IsGiven node value self.old.entries self.new.entries }
        ensures capacity { self.new.entries.capacity ≡ self.old.entries.capacity }
    {
        unlink(&mut self.waiting, node, Source::Waits(register));
        let (key, side) = split(node);
        let mut woken = self.entries[key];
        woken.sources[side] = Source::Value(value);
        self.entries[key] = woken;
        offer(&mut self.ready, key, &woken);
    }

    /// Takes out a hart's entries that are younger than `after`.
    pub(crate) fn squash(&mut self, hart: u8, after: Seq)
        requires { IsSound self.old }
        ensures sound { IsSound self.new }
        ensures kept { AreKept (stays hart after) self.old.entries self.new.entries }
        ensures capacity { self.new.entries.capacity ≡ self.old.entries.capacity }
    {
        for key in 0..self.entries.capacity() {
            if has_younger(&self.entries, key, hart, after) {
                self.remove(key);
            }
        }
    }
}

/// The key of a node's entry, and which of its sources the node is.
fn split(node: usize) -> (usize, usize)
    ensures key { result.0 ≡ key_of node }
    ensures side { result.1 ≡ side_of node }
{
    if node < MOST_QUEUED {
        (node, 0)
    } else {
        (node - MOST_QUEUED, 1)
    }
}

/// Whether the source that is this node waits for a register.
fn waits_for(entries: &Slab<Entry>, node: usize, register: Phys) -> bool
    requires { (k : ℕ) (e : AnyEntry) → get entries.now k ≡ Some e → IsPlaced k e }
    ensures { IsTrue result ↔ (waits_at entries.now node ≡ Some register) }
{
    let (key, side) = split(node);
    match entries.get(key) {
        Some(entry) => entry.sources[side] == Source::Waits(register),
        None => false,
    }
}

/// Whether an entry of the hart that is younger than `after` stands under this key.
fn has_younger(entries: &Slab<Entry>, key: usize, hart: u8, after: Seq) -> bool
    ensures { IsTrue result ↔ HasYounger hart after (get entries.now key) }
{
    match entries.get(key) {
        Some(entry) => entry.hart == hart && after < entry.seq,
        None => false,
    }
}

fn search_number(entries: &Slab<Entry>, seq: Seq) -> Option<usize>
    ensures some { IfSome result (HasNumberAt seq entries.now) }
    ensures none { IfNone result (NoneHasNumber seq entries.now) }
{
    for key in 0..entries.capacity() {
        if let Some(entry) = entries.get(key)
            && entry.seq == seq
        {
            return Some(key);
        }
    }
    None
}

/// Puts an entry into the order of its kind, if it is ready.
fn offer(ready: &mut ReadyOrders, key: usize, entry: &Entry)
    requires key { key < most_queued }
    requires room { (k : UnitKind) → length (order_of k ready.old) < most_queued }
    requires rising { (k : UnitKind) → AreReadyRising (order_of k ready.old) }
    ensures { (k : UnitKind) → order_of k ready.new
        ≡ (if can_issue k entry.now then in_order (ready_of key entry.now) (order_of k ready.old)
        else order_of k ready.old) }
{
    if entry.is_ready() {
        let offered = Ready {
            seq: entry.seq,
            key: key as u8,
        };
        ready.insert(entry.op.unit(), offered);
    }
}

/// Takes an entry out of the order of its kind, if it is ready.
fn withdraw(ready: &mut ReadyOrders, entry: &Entry)
    ensures { (k : UnitKind) → order_of k ready.new
        ≡ (if can_issue k entry.now then without entry.now.seq (order_of k ready.old)
        else order_of k ready.old) }
{
    if entry.is_ready() {
        ready.remove(entry.op.unit(), entry.seq);
    }
}

/// The register in whose list a source stands, if it waits for one that has a list.
fn listed(source: Source) -> Option<Phys>
    ensures { result ≡ listed_register source }
{
    match source {
        Source::Value(_) => None,
        Source::Waits(register) => {
            if usize::from(register) < MOST_REGISTERS {
                Some(register)
            } else {
                None
            }
        }
    }
}

/// Puts a source, which is this node, into its list.
fn enlist(waiting: &mut WaitingLists, node: usize, source: Source)
    requires { node < nodes }
    ensures { (waits : ℕ → Option ℕ) → IsLinked waiting.old waits → waits node ≡ None
        → IsLinked waiting.new (with_register waits node (register_of source)) }
{
    if let Some(register) = listed(source) {
        waiting.push(register, node);
    }
}

/// Takes a source, which is this node, out of its list.
fn unlink(waiting: &mut WaitingLists, node: usize, source: Source)
    requires node { node < nodes }
    requires there { WaitsOrNot waiting.old node source }
    ensures { (waits : ℕ → Option ℕ) → IsLinked waiting.old waits
        → waits node ≡ register_of source
        → IsLinked waiting.new (with_register waits node None) }
{
    if let Some(_register) = listed(source) {
        waiting.remove(node);
    }
}
