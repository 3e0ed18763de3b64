ghost use Rattle.std.specs.Prelude.{◌≡◌, ◌<◌, ◌≤◌, ◌==◌, List, length, map, IfSome};
ghost use Rattle.numbers.specs.Sizes.{most_accesses};
ghost use Rattle.rv_execute.specs.Access.{IsSize};
ghost use Rattle.load_store.specs.Queues.{empty, Above, load_numbers, numbers, oldest_write};
ghost use Rattle.load_store.specs.Queues.{resolved, looking, touched_load, with_load, with_store};
ghost use Rattle.load_store.specs.Queues.{with_resolved, with_look, with_touch, needs_look};
ghost use Rattle.load_store.specs.Queues.{without_load, without_store, squashed};

use crate::load::{FirstLook, Load, after_look, after_write};
use crate::store::Store;
use arrayvec::ArrayVec;
use events::{Seq, Written};
use numbers::sizes::MOST_ACCESSES;
use std::marker::Model;

/// The loads and the stores of one hart in flight, at most `MOST_ACCESSES` of each, oldest first.
#[derive(Drop)]
pub struct HartQueues {
    loads: ArrayVec<Load, MOST_ACCESSES>,
    stores: ArrayVec<Store, MOST_ACCESSES>,
}

impl Model for HartQueues {
    ghost use Rattle.std.specs.List.{AllByRecursion};
    ghost use Rattle.load_store.specs.Queues.{Queues, IsRising, IsSized, load_numbers, numbers};

    ghost Value = { Queues };

    ghost view = { λ a. record { loads = a.loads.items; stores = a.stores.items } };

    ghost invariant = { λ a. IsRising (load_numbers a.loads.items)
        × IsRising (numbers a.stores.items)
        × AllByRecursion IsSized a.stores.items };
}

impl HartQueues {
    ghost use Rattle.std.specs.List.{AllByRecursion};
    ghost use Rattle.load_store.specs.Queues.{IsSized};

    /// No loads and no stores.
    pub fn new() -> Self
        ensures { result ≡ empty }
    {
        HartQueues {
            loads: ArrayVec::new(),
            stores: ArrayVec::new(),
        }
    }

    /// Whether there is no room for another load.
    pub fn loads_full(&self) -> bool
        ensures full { result ≡ (length self.now.loads == most_accesses) }
        ensures within { length self.now.loads ≤ most_accesses }
    {
        self.loads.is_full()
    }

    /// Whether there is no room for another store.
    pub fn stores_full(&self) -> bool
        ensures full { result ≡ (length self.now.stores == most_accesses) }
        ensures within { length self.now.stores ≤ most_accesses }
    {
        self.stores.is_full()
    }

    /// The stores, oldest first.
    pub fn stores(&self) -> &[Store]
        ensures value { result.now ≡ self.now.stores }
        ensures sized { AllByRecursion IsSized result.now }
    {
        self.stores.as_slice()
    }

    /// What the oldest store will write.
    pub fn oldest_write(&self) -> Option<Written>
        ensures value { result ≡ oldest_write self.now.stores }
        ensures sized { IfSome result (λ w. IsSize w.n) }
    {
        self.stores.first()?.write
    }

    /// Adds a load, younger than those that are there. It has had no look yet.
    pub fn add_load(&mut self, seq: Seq)
        requires room { length self.old.loads < most_accesses }
        requires above { Above seq (load_numbers self.old.loads) }
        ensures { self.new ≡ with_load seq self.old }
    {
        self.loads.push(Load { seq, look: None });
    }

    /// Adds a store, younger than those that are there. It isn't resolved yet.
    pub fn add_store(&mut self, seq: Seq)
        requires room { length self.old.stores < most_accesses }
        requires above { Above seq (numbers self.old.stores) }
        ensures { self.new ≡ with_store seq self.old }
    {
        self.stores.push(Store { seq, write: None });
    }

    /// The store of this number will write this, if it is there.
    pub fn resolve_store(&mut self, seq: Seq, write: Written)
        requires { IsSize write.n }
        ensures { self.new ≡ with_resolved seq write self.old }
    {
        resolve(self.stores.as_mut_slice(), seq, write);
    }

    /// The load of this number has looked at the `n` bytes from an address, if it is there.
    pub fn looked(&mut self, seq: Seq, addr: u32, n: u8)
        ensures { self.new ≡ with_look seq addr n self.old }
    {
        let look = FirstLook {
            addr,
            n,
            touched: false,
        };
        look_from(self.loads.as_mut_slice(), seq, look);
    }

    /// This has been written: it touches the looks that share a byte with it.
    pub fn touch(&mut self, write: Written)
        ensures { self.new ≡ with_touch write self.old }
    {
        touch_each(self.loads.as_mut_slice(), write);
    }

    /// Whether the load of this number has looked and was touched since.
    pub fn needs_look(&self, seq: Seq) -> bool
        ensures { result ≡ needs_look seq self.now.loads }
    {
        is_touched(self.loads.as_slice(), seq)
    }

    /// Removes the oldest load, which there must be.
    pub fn remove_load(&mut self)
        requires { 0 < length self.old.loads }
        ensures { self.new ≡ without_load self.old }
    {
        self.loads.remove(0);
    }

    /// Removes the oldest store, which there must be.
    pub fn remove_store(&mut self)
        requires { 0 < length self.old.stores }
        ensures { self.new ≡ without_store self.old }
    {
        self.stores.remove(0);
    }

    /// Removes the loads and stores that are younger than this number.
    pub fn squash(&mut self, after: Seq)
        ensures { self.new ≡ squashed after self.old }
    {
        self.loads.retain(|load| load.seq <= after);
        self.stores.retain(|store| store.seq <= after);
    }
}

fn resolve(stores: &mut [Store], seq: Seq, write: Written)
    ensures { stores.new ≡ map (resolved seq write) stores.old }
{
    for store in stores.iter_mut() {
        if store.seq == seq {
            store.write = Some(write);
        }
    }
}

/// The load of this number has had this first look.
fn look_from(loads: &mut [Load], seq: Seq, look: FirstLook)
    ensures { loads.new ≡ map (looking seq look) loads.old }
{
    for load in loads.iter_mut() {
        *load = after_look(*load, seq, look);
    }
}

/// This has been written.
fn touch_each(loads: &mut [Load], write: Written)
    ensures { loads.new ≡ map (touched_load write) loads.old }
{
    for load in loads.iter_mut() {
        *load = after_write(*load, write);
    }
}

/// Whether the load of this number was touched, the first of it where there are several.
fn is_touched(loads: &[Load], seq: Seq) -> bool
    ensures { result ≡ needs_look seq loads.now }
{
    for load in loads {
        if load.seq == seq {
            return load.was_touched();
        }
    }
    false
}
