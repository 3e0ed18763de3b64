//! What the ways of harts write: new numbers, and how often each location.

ghost use Rattle.std.specs.Prelude.{◌≡◌, true, IfOk, OnOk, Some, slice_get};
ghost use Rattle.litmus_runs.specs.Ways.{AreKnown, IsOnWay};
ghost use Rattle.litmus_runs.specs.AllWays.{Grows, IsLastLearnt};

use crate::access::Access;
use crate::following::Asked;
use crate::hart::Hart;
use crate::known::Known;
use litmus_tests::LitmusTest;
use std::alloc::{AllocError, Global};

/// What is written on ways, whether or not they come to their end.
#[derive(Drop)]
pub(crate) struct Written {
    /// The numbers that were known, and those that are written.
    pub known: Known,
    /// How often each location is written at most in one execution, by the harts that were followed.
    pub most: Vec<usize>,
    /// How often it is at most by the hart that is followed now.
    by_hart: Vec<usize>,
}

impl Written {
    pub fn new(test: &LitmusTest, known: &Known, alloc: Global) -> Result<Written, AllocError>
        requires { AreKnown test.now known.now }
        ensures known { IfOk result (λ written. AreKnown test.now written.known) }
        ensures kept { IfOk result (λ written. Grows known.now written.known) }
    {
        let copy = known.copy(alloc)?;
        let most = zeros(test.words.len(), alloc)?;
        let by_hart = zeros(test.words.len(), alloc)?;
        Ok(Written {
            known: copy,
            most,
            by_hart,
        })
    }

    /// Takes in what a hart has done last on its way; what it had done before was taken in as it stood there.
    pub fn learn(&mut self, asked: &Asked<'_, '_, '_>, hart: &Hart) -> Result<(), AllocError>
        requires thread { slice_get asked.now.test.now.threads.items asked.now.index ≡ Some asked.now.thread.now }
        requires way { IsOnWay asked.now.test.now asked.now.thread.now hart.now }
        requires known { AreKnown asked.now.test.now self.old.known }
        ensures known { OnOk result (AreKnown asked.now.test.now self.new.known) }
        ensures kept { OnOk result (Grows self.old.known self.new.known) }
        ensures learnt { OnOk result (self.new.known.is_whole ≡ true
            → IsLastLearnt self.new.known.held.items hart.now.accesses.items) }
    {
        let Some(access) = hart.accesses.last() else {
            return Ok(());
        };
        let Some(number) = access.writes else {
            return Ok(());
        };
        raise(&mut self.by_hart, hart.accesses.as_slice(), access.location);
        self.known.add(asked.test, access.location, number)
    }

    /// A hart was followed on all its ways.
    pub fn end_hart(&mut self)
        ensures { self.new.known ≡ self.old.known }
    {
        add_each(&mut self.most, self.by_hart.as_slice());
        clear(&mut self.by_hart);
    }
}

fn add_each(sums: &mut Vec<usize>, counts: &[usize]) {
    for (sum, count) in sums.iter_mut().zip(counts.iter()) {
        *sum = sum.saturating_add(*count);
    }
}

fn clear(counts: &mut Vec<usize>) {
    for count in counts.iter_mut() {
        *count = 0;
    }
}

pub(crate) fn zeros(count: usize, alloc: Global) -> Result<Vec<usize>, AllocError> {
    let mut all = Vec::new(alloc);
    for _ in 0..count {
        all.push(0)?;
    }
    Ok(all)
}

/// Keeps the greater of how often a location was written and how often these accesses write it.
fn raise(most: &mut Vec<usize>, accesses: &[Access], location: usize) {
    if let Some(count) = most.get_mut(location) {
        *count = (*count).max(count_writes(accesses, location));
    }
}

fn count_writes(accesses: &[Access], location: usize) -> usize {
    accesses
        .iter()
        .filter(|access| access.location == location && access.writes.is_some())
        .count()
}
