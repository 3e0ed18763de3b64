ghost use Rattle.std.specs.Prelude.{◌≡◌, ℕ, ◌+◌, ◌<◌, Option, Some, None, slice_index};
ghost use Rattle.numbers.specs.Sizes.{most_registers};
ghost use Rattle.issue_queue.specs.Waiting.{nodes, places, IsLinked, IsFirst, with_register, WaitsThere};

use numbers::Phys;
use numbers::sizes::{MOST_QUEUED, MOST_REGISTERS};

/// How many sources the entries of a queue have: two each.
pub(crate) const NODES: usize = 2 * MOST_QUEUED;

/// The nodes, and behind them a place for each register.
const PLACES: usize = NODES + MOST_REGISTERS;

/// What no place is.
const END: u16 = PLACES as u16;

/// For each register the list of the sources that wait for it, linked both ways.
///
/// A source is a node of its list: the first one of an entry under the entry's key, the second one
/// `MOST_QUEUED` above it. So an entry that names a register twice stands in its list twice. The
/// links stand beside the slab and not in its entries, so that a list can be changed while an entry
/// is, and so that what is proved of lists knows nothing of entries.
#[derive(Drop)]
pub(crate) struct WaitingLists {
    /// Behind each node the next of its list, and from `NODES` on the first of each register's.
    next: [u16; PLACES],
    /// Before each node the one before it in its list, or the place of its register.
    before: [u16; NODES],
}

impl WaitingLists {
    /// No source waits.
    pub(crate) fn new() -> Self
        ensures { IsLinked result (λ node. None) }
    {
        WaitingLists {
            next: [END; PLACES],
            before: [0; NODES],
        }
    }

    /// A source that waits for a register.
    pub(crate) fn first(&self, register: Phys) -> Option<usize>
        requires { register < most_registers }
        ensures { (waits : ℕ → Option ℕ) → IsLinked self.now waits → IsFirst waits register result }
    {
        let first = usize::from(self.next[NODES + usize::from(register)]);
        if first < NODES { Some(first) } else { None }
    }

    /// A source, which doesn't wait yet, waits for a register.
    pub(crate) fn push(&mut self, register: Phys, node: usize)
        requires register { register < most_registers }
        requires node { node < nodes }
        ensures { (waits : ℕ → Option ℕ) → IsLinked self.old waits → waits node ≡ None
            → IsLinked self.new (with_register waits node (Some register)) }
    {
        let place = NODES + usize::from(register);
        let first = self.next[place];
        self.next[node] = first;
        self.next[place] = node as u16;
        self.before[node] = place as u16;
        if usize::from(first) < NODES {
            self.before[usize::from(first)] = node as u16;
        }
    }

    /// A source that waits for a register no longer does.
    pub(crate) fn remove(&mut self, node: usize)
        requires node { node < nodes }
        requires there { WaitsThere self.old node }
        ensures { (waits : ℕ → Option ℕ) (register : ℕ) → IsLinked self.old waits
            → register < most_registers → waits node ≡ Some register
            → IsLinked self.new (with_register waits node None) }
    {
        let (before, next) = (self.before[node], self.next[node]);
        self.next[usize::from(before)] = next;
        if usize::from(next) < NODES {
            self.before[usize::from(next)] = before;
        }
    }
}
