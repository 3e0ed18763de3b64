ghost use Rattle.std.specs.Prelude.{◌≡◌, ◌<◌, ◌≤◌, length, slice_get, drop, [], IfOk};
ghost use Rattle.numbers.specs.Sizes.{most_queued};
ghost use Rattle.issue_queue.specs.Order.{in_order, without, AreReadyRising, AreAbove, IsBehind};

use numbers::Seq;
use numbers::sizes::MOST_QUEUED;
use std::alloc::{AllocError, Global};
use std::marker::Model;

/// An entry that is ready, and the key under which it stands.
#[derive(Clone, Copy, Drop)]
pub(crate) struct Ready {
    pub(crate) seq: Seq,
    pub(crate) key: u8,
}

/// At most `MOST_QUEUED` ready entries, by rising number. They stand on the heap, where all their
/// room is made with the order. A clause sees their list.
#[derive(Drop)]
pub(crate) struct Order {
    entries: Vec<Ready>,
}

impl Model for Order {
    ghost use Rattle.std.specs.Prelude.{◌≤◌, List, vec_capacity};
    ghost use Rattle.numbers.specs.Sizes.{most_queued};
    ghost use Rattle.issue_queue.specs.declared.order.Ready.{Ready};

    ghost Value = { List Ready };

    ghost view = { λ a. a.entries.items };

    ghost invariant = { λ a. most_queued ≤ vec_capacity a.entries };
}

impl Order {
    /// None is ready.
    pub(crate) fn new(alloc: Global) -> Result<Self, AllocError>
        ensures { IfOk result (λ order. order ≡ []) }
    {
        Ok(Order {
            entries: Vec::with_capacity(alloc, MOST_QUEUED)?,
        })
    }

    /// The one of the lowest number.
    #[inline(always)]
    pub(crate) fn oldest(&self) -> Option<Ready>
        ensures { result ≡ slice_get self.now 0 }
    {
        self.entries.first().copied()
    }

    /// Another entry is ready.
    pub(crate) fn insert(&mut self, ready: Ready)
        requires room { length self.old < most_queued }
        requires rising { AreReadyRising self.old }
        ensures { self.new ≡ in_order ready self.old }
    {
        let place = place_for(ready.seq, self.entries.as_slice());
        self.entries.insert(place, ready).unwrap();
    }

    /// A ready entry is gone.
    pub(crate) fn remove(&mut self, seq: Seq)
        ensures { self.new ≡ without seq self.old }
    {
        self.entries.retain(|ready| ready.seq != seq);
    }
}

// Where a number belongs. A new one mostly belongs near the end, so its place is sought from there.
fn place_for(seq: Seq, order: &[Ready]) -> usize
    ensures inside { result ≤ length order.now }
    ensures above { AreAbove seq (drop result order.now) }
    ensures below { IsBehind seq result order.now }
{
    for place in (0..order.len()).rev() {
        if order[place].seq <= seq {
            return place + 1;
        }
    }
    0
}
