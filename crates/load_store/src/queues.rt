ghost use Rattle.std.specs.Prelude.{◌≡◌, ℕ, ◌<◌, ◌≤◌, ◌==◌, None, Some, IfOk, length};
ghost use Rattle.std.specs.Option.{IsSomeAnd};
ghost use Rattle.numbers.specs.Sizes.{most_accesses, most_harts};
ghost use Rattle.smt_model.specs.Bytes.{number_at, write_of};
ghost use Rattle.smt_model.specs.Faults.{read_fault, write_fault};
ghost use Rattle.rv_execute.specs.Access.{IsSize};
ghost use Rattle.shared_memory.specs.Contents.{IsWritten, byte_of};
ghost use Rattle.load_store.specs.Queues.{Above, load_numbers, numbers, empty, queues_of, Changes};
ghost use Rattle.load_store.specs.Queues.{oldest_write, with_load, with_store, with_resolved};
ghost use Rattle.load_store.specs.Queues.{with_look, with_touch, needs_look, without_load};
ghost use Rattle.load_store.specs.Queues.{without_store, squashed};
ghost use Rattle.load_store.specs.Looks.{seen};

use crate::hart_queues::HartQueues;
use crate::look::look;
use events::{Seq, Written};
use shared_memory::Memory;
use std::alloc::{AllocError, Global};
use std::marker::Model;

/// The loads and the stores in flight of each hart of a core, in program order: at most
/// `MOST_ACCESSES` loads and as many stores a hart. A clause sees each hart's queues.
#[derive(Drop)]
pub struct LoadStore {
    /// They stand on the heap, so that a core is small on the stack.
    harts: Vec<HartQueues>,
}

impl Model for LoadStore {
    ghost use Rattle.std.specs.Prelude.{◌≤◌, List, length};
    ghost use Rattle.numbers.specs.Sizes.{most_harts};
    ghost use Rattle.load_store.specs.Queues.{Queues};

    ghost Value = { List Queues };

    ghost view = { λ a. a.harts.items };

    ghost invariant = { λ a. length a.harts.items ≤ most_harts };
}

impl LoadStore {
    /// No loads and no stores of so many harts. All memory is taken here.
    ///
    /// It stands in no caller, or its frame would be a part of that one's.
    #[inline(never)]
    pub fn new(harts: u8, alloc: Global) -> Result<Self, AllocError>
        requires { harts ≤ most_harts }
        ensures count { IfOk result (λ queues. length queues ≡ harts) }
        ensures none { IfOk result (λ queues. (h : ℕ) → queues_of queues h ≡ empty) }
    {
        let mut each = Vec::with_capacity(alloc, usize::from(harts))?;
        for _hart in 0..harts {
            each.push(HartQueues::new())?;
        }
        Ok(LoadStore { harts: each })
    }

    /// Whether the hart has `MOST_ACCESSES` loads in flight, as many as it may have. One that there isn't
    /// has none.
    pub fn loads_full(&self, hart: u8) -> bool
        ensures full { result ≡ (length (queues_of self.now hart).loads == most_accesses) }
        ensures within { length (queues_of self.now hart).loads ≤ most_accesses }
    {
        match self.harts.get(usize::from(hart)) {
            Some(queues) => queues.loads_full(),
            None => false,
        }
    }

    /// Whether the hart has `MOST_ACCESSES` stores in flight, as many as it may have. One that there isn't
    /// has none.
    pub fn stores_full(&self, hart: u8) -> bool
        ensures full { result ≡ (length (queues_of self.now hart).stores == most_accesses) }
        ensures within { length (queues_of self.now hart).stores ≤ most_accesses }
    {
        match self.harts.get(usize::from(hart)) {
            Some(queues) => queues.stores_full(),
            None => false,
        }
    }

    /// Adds a load, younger than those of its hart that are there. It has had no look yet.
    pub fn add_load(&mut self, hart: u8, seq: Seq)
        requires hart { hart < length self.old }
        requires room { length (queues_of self.old hart).loads < most_accesses }
        requires above { Above seq (load_numbers (queues_of self.old hart).loads) }
        ensures { Changes (with_load seq) hart self.old self.new }
    {
        self.harts[usize::from(hart)].add_load(seq);
    }

    /// Adds a store, younger than those of its hart that are there. It isn't resolved yet.
    pub fn add_store(&mut self, hart: u8, seq: Seq)
        requires hart { hart < length self.old }
        requires room { length (queues_of self.old hart).stores < most_accesses }
        requires above { Above seq (numbers (queues_of self.old hart).stores) }
        ensures { Changes (with_store seq) hart self.old self.new }
    {
        self.harts[usize::from(hart)].add_store(seq);
    }

    /// The hart's store of this number will write the lowest 1, 2 or 4 bytes of a number at an
    /// address, if it is there.
    pub fn resolve_store(&mut self, hart: u8, seq: Seq, addr: u32, n: u8, datum: u32)
        requires hart { hart < length self.old }
        requires size { IsSize n }
        ensures { Changes (with_resolved seq (write_of addr n datum)) hart self.old self.new }
    {
        self.harts[usize::from(hart)].resolve_store(seq, Written { addr, n, datum });
    }

    /// What load `seq` of the hart reads as it completes: memory as it is now, overlaid byte by
    /// byte in order with the older stores of the hart that are resolved.
    pub fn first_look(&self, memory: &Memory, hart: u8, seq: Seq, addr: u32, n: u8) -> u32
        requires hart { hart < length self.now }
        requires size { IsSize n }
        requires no_fault { read_fault memory.now.image addr n ≡ None }
        ensures { result ≡ number_at (seen seq (queues_of self.now hart).stores memory.now) addr n }
    {
        look(memory, self.harts[usize::from(hart)].stores(), seq, addr, n)
    }

    /// The hart's load of this number, if it is there, has had its first look, at the `n` bytes from
    /// an address; nothing has touched these since.
    pub fn looked(&mut self, hart: u8, seq: Seq, addr: u32, n: u8)
        requires { hart < length self.old }
        ensures { Changes (with_look seq addr n) hart self.old self.new }
    {
        self.harts[usize::from(hart)].looked(seq, addr, n);
    }

    /// A retirement has written this: of every hart it touches the loads whose first look shares a
    /// byte with it.
    pub fn touch(&mut self, write: &Written)
        ensures count { length self.new ≡ length self.old }
        ensures touched { (h : ℕ) → queues_of self.new h ≡ with_touch write.now (queues_of self.old h) }
    {
        let count = self.harts.len();
        for hart in 0..count {
            self.harts[hart].touch(*write);
        }
    }

    /// Whether the hart's load of this number has to look again as it retires: some write has
    /// touched it since its first look.
    pub fn needs_look(&self, hart: u8, seq: Seq) -> bool
        requires { hart < length self.now }
        ensures { result ≡ needs_look seq (queues_of self.now hart).loads }
    {
        self.harts[usize::from(hart)].needs_look(seq)
    }

    /// What a load reads as it looks again: memory alone.
    pub fn second_look(&self, memory: &Memory, addr: u32, n: u8) -> u32
        requires size { IsSize n }
        requires no_fault { read_fault memory.now.image addr n ≡ None }
        ensures { result ≡ number_at (byte_of memory.now) addr n }
    {
        memory.read(addr, n)
    }

    /// The hart's oldest load retires.
    pub fn retire_load(&mut self, hart: u8)
        requires hart { hart < length self.old }
        requires some { 0 < length (queues_of self.old hart).loads }
        ensures { Changes without_load hart self.old self.new }
    {
        self.harts[usize::from(hart)].remove_load();
    }

    /// The hart's oldest store, which is resolved, writes memory and retires. Answers what it
    /// wrote.
    pub fn retire_store(&mut self, memory: &mut Memory, hart: u8) -> Written
        requires hart { hart < length self.old }
        requires resolved { IsSomeAnd (oldest_write (queues_of self.old hart).stores)
            (λ w. write_fault memory.old.image w.addr w.n ≡ None) }
        ensures value { oldest_write (queues_of self.old hart).stores ≡ Some result }
        ensures memory { IsWritten result memory.old memory.new }
        ensures rest { Changes without_store hart self.old self.new }
    {
        let queues = &mut self.harts[usize::from(hart)];
        let written = queues.oldest_write().unwrap();
        queues.remove_store();
        memory.write(written.addr, written.n, written.datum);
        written
    }

    /// The hart's oldest store goes without writing.
    pub fn drop_store(&mut self, hart: u8)
        requires hart { hart < length self.old }
        requires some { 0 < length (queues_of self.old hart).stores }
        ensures { Changes without_store hart self.old self.new }
    {
        self.harts[usize::from(hart)].remove_store();
    }

    /// Removes the hart's loads and stores that are younger than this number.
    pub fn squash(&mut self, hart: u8, after: Seq)
        requires { hart < length self.old }
        ensures { Changes (squashed after) hart self.old self.new }
    {
        self.harts[usize::from(hart)].squash(after);
    }
}
