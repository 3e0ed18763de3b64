ghost use Rattle.std.specs.Prelude.{◌≡◌, ◌<◌, length, slice_get, if◌then◌else◌, [], IfOk};
ghost use Rattle.rv_instr.specs.{declared.op.UnitKind.UnitKind, Registers.same_unit};
ghost use Rattle.numbers.specs.Sizes.{most_queued};
ghost use Rattle.issue_queue.specs.Order.{in_order, without, AreReadyRising};
ghost use Rattle.issue_queue.specs.Ready.{order_of};

use crate::order::{Order, Ready};
use numbers::Seq;
use rv_instr::UnitKind;
use std::alloc::{AllocError, Global};

/// For each kind of unit the entries that one of them may take up, by rising number.
#[derive(Drop)]
pub(crate) struct ReadyOrders {
    alu: Order,
    mul: Order,
    mem: Order,
}

impl ReadyOrders {
    /// None is ready.
    pub(crate) fn new(alloc: Global) -> Result<Self, AllocError>
        ensures { IfOk result (λ orders. (kind : UnitKind) → order_of kind orders ≡ []) }
    {
        Ok(ReadyOrders {
            alu: Order::new(alloc)?,
            mul: Order::new(alloc)?,
            mem: Order::new(alloc)?,
        })
    }

    /// The ready one of the lowest number.
    #[inline(always)]
    pub(crate) fn oldest(&self, kind: UnitKind) -> Option<Ready>
        ensures { result ≡ slice_get (order_of kind self.now) 0 }
    {
        match kind {
            UnitKind::Alu => self.alu.oldest(),
            UnitKind::Mul => self.mul.oldest(),
            UnitKind::Mem => self.mem.oldest(),
        }
    }

    /// Another entry is ready.
    pub(crate) fn insert(&mut self, kind: UnitKind, ready: Ready)
        requires room { length (order_of kind self.old) < most_queued }
        requires rising { AreReadyRising (order_of kind self.old) }
        ensures { (k : UnitKind) → order_of k self.new
            ≡ (if same_unit k kind then in_order ready (order_of k self.old)
            else order_of k self.old) }
    {
        match kind {
            UnitKind::Alu => self.alu.insert(ready),
            UnitKind::Mul => self.mul.insert(ready),
            UnitKind::Mem => self.mem.insert(ready),
        }
    }

    /// A ready entry is gone.
    pub(crate) fn remove(&mut self, kind: UnitKind, seq: Seq)
        ensures { (k : UnitKind) → order_of k self.new
            ≡ (if same_unit k kind then without seq (order_of k self.old)
            else order_of k self.old) }
    {
        match kind {
            UnitKind::Alu => self.alu.remove(seq),
            UnitKind::Mul => self.mul.remove(seq),
            UnitKind::Mem => self.mem.remove(seq),
        }
    }
}
