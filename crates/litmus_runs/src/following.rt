//! All ways of one hart, by the numbers that are known.

ghost use Rattle.std.specs.Prelude.{◌≡◌, [], true, false, All, Contains, length, IfOk, None, OnOk, Some, slice_get};
ghost use Rattle.litmus_runs.specs.Ways.{AreGoing, AreKnown, IsAtStart, IsOnWay, IsRun, MayFind};
ghost use Rattle.litmus_runs.specs.Turns.{IsStandingOf};
ghost use Rattle.litmus_runs.specs.AllWays.{AreAllLearnt, AreAllListed, Grows, IsLastLearnt, IsListed};
ghost use Rattle.litmus_runs.specs.Work.{HasGoneBeyond, HasLeft, IsGoneBy, KeepsWays};

use crate::access::Access;
use crate::finding::Found;
use crate::hart::Hart;
use crate::known::Known;
use crate::runs::{HartRuns, Run};
use crate::turns::{Standing, is_needless, with_standing};
use crate::written::Written;
use litmus_tests::{LitmusStep, LitmusTest, Thread};
use std::alloc::{AllocError, Global};

/// How many steps a hart makes at most: a loop that goes on is cut.
const MOST_STEPS_RUN: usize = 200;

/// How many ways of one hart are followed.
const MOST_WAYS: usize = 10_000;

/// How many steps are made on all of them.
const MOST_STEPS_OF_ALL: usize = 2_000_000;

/// Whose ways are followed: those of the hart with this index.
#[derive(Clone, Copy, Drop)]
pub(crate) struct Asked<'test, 'thread, 'known> {
    pub test: &'test LitmusTest,
    pub index: usize,
    pub thread: &'thread Thread,
    pub known: &'known Known,
    /// Whether the test has store-conditionals.
    pub has_conditionals: bool,
}

/// The ways of a hart that were followed.
#[derive(Drop)]
pub(crate) struct Ways {
    pub runs: Vec<Run>,
    /// Whether none was cut, so far.
    pub is_whole: bool,
    /// How many more are followed.
    left: usize,
}

impl Ways {
    pub fn new(alloc: Global) -> Ways
        ensures { result.runs.items ≡ [] }
    {
        Ways {
            runs: Vec::new(alloc),
            is_whole: true,
            left: MOST_WAYS,
        }
    }

    pub fn into_runs(self) -> HartRuns
        ensures runs { result.runs ≡ self.runs }
        ensures whole { result.is_whole ≡ self.is_whole }
    {
        HartRuns {
            runs: self.runs,
            is_whole: self.is_whole,
        }
    }

    /// Counts a way. Answers false where there are too many.
    fn count(&mut self) -> bool
        ensures runs { self.new.runs ≡ self.old.runs }
        ensures whole { self.new.is_whole ≡ true → (self.old.is_whole ≡ true) × (result ≡ true) }
    {
        if self.left == 0 {
            self.is_whole = false;
            return false;
        }
        self.left -= 1;
        true
    }

    /// Lists the way of a hart that is at its end.
    fn list(
        &mut self,
        asked: &Asked<'_, '_, '_>,
        hart: &Hart,
        alloc: Global,
    ) -> Result<(), AllocError>
        requires way { IsOnWay asked.now.test.now asked.now.thread.now hart.now }
        requires end { slice_get asked.now.thread.now.steps.items hart.now.next ≡ None }
        requires runs { All (IsRun asked.now.test.now asked.now.thread.now) self.old.runs.items }
        ensures runs { OnOk result (All (IsRun asked.now.test.now asked.now.thread.now) self.new.runs.items) }
        ensures kept { OnOk result (KeepsWays self.old self.new) }
        ensures listed { OnOk result (self.new.is_whole ≡ true → IsListed self.new.runs.items hart.now) }
    {
        if !self.count() {
            return Ok(());
        }
        let accesses = copy_of(hart.accesses.as_slice(), alloc)?;
        self.runs.push(Run {
            accesses,
            registers: hart.registers,
        })?;
        Ok(())
    }

    /// Leaves out what comes behind here.
    fn cut(&mut self)
        ensures runs { self.new.runs ≡ self.old.runs }
        ensures whole { self.new.is_whole ≡ false }
    {
        self.is_whole = false;
        self.count();
    }
}

fn copy_of(accesses: &[Access], alloc: Global) -> Result<Vec<Access>, AllocError>
    ensures { IfOk result (λ copy. copy.items ≡ accesses.now) }
{
    Ok(accesses.to_vec(alloc)?)
}

/// The step with an index.
fn step_at(thread: &Thread, index: usize) -> Option<LitmusStep>
    ensures { result ≡ slice_get thread.now.steps.items index }
{
    let step = thread.steps.get(index)?;
    Some(*step)
}

/// A hart on its way, and how it stood at each step before.
#[derive(Drop)]
pub(crate) struct Going {
    hart: Hart,
    before: Vec<Standing>,
}

/// Follows a hart on all its ways. Those that are left stand on a stack: one may have as many steps as a hart makes.
pub(crate) fn follow(
    asked: &Asked<'_, '_, '_>,
    ways: &mut Ways,
    written: &mut Written,
    alloc: Global,
) -> Result<(), AllocError>
    requires thread { slice_get asked.now.test.now.threads.items asked.now.index ≡ Some asked.now.thread.now }
    requires known { AreKnown asked.now.test.now asked.now.known.now }
    requires runs { All (IsRun asked.now.test.now asked.now.thread.now) ways.old.runs.items }
    requires written { AreKnown asked.now.test.now written.old.known }
    ensures runs { OnOk result (All (IsRun asked.now.test.now asked.now.thread.now) ways.new.runs.items) }
    ensures written { OnOk result (AreKnown asked.now.test.now written.new.known) }
    ensures kept { OnOk result (Grows written.old.known written.new.known) }
    ensures listed { OnOk result (ways.new.is_whole ≡ true → AreAllListed asked.now.has_conditionals
        asked.now.thread.now asked.now.known.now.held.items ways.new.runs.items) }
    ensures learnt { OnOk result (ways.new.is_whole ≡ true → written.new.known.is_whole ≡ true
        → AreAllLearnt asked.now.has_conditionals asked.now.thread.now asked.now.known.now.held.items
        written.new.known.held.items) }
{
    let mut going = Vec::new(alloc);
    going.push(at_start(asked, alloc))?;
    'steps: for _ in 0..MOST_STEPS_OF_ALL {
        let Some(next) = going.pop() else {
            return Ok(());
        };
        go_on(asked, next, &mut going, ways, written, alloc)?;
    }
    ways.is_whole = false;
    Ok(())
}

/// The hart at its first step.
fn at_start(asked: &Asked<'_, '_, '_>, alloc: Global) -> Going
    ensures way { IsOnWay asked.now.test.now asked.now.thread.now result.hart }
    ensures start { IsAtStart asked.now.thread.now result.hart }
    ensures size { length result.hart.registers ≡ 32 }
    ensures before { result.before.items ≡ [] }
{
    Going {
        hart: Hart::new(asked.thread, alloc),
        before: Vec::new(alloc),
    }
}

/// Makes one step of a way, with all that it may find; or the way ends here.
fn go_on(
    asked: &Asked<'_, '_, '_>,
    from: Going,
    going: &mut Vec<Going>,
    ways: &mut Ways,
    written: &mut Written,
    alloc: Global,
) -> Result<(), AllocError>
    requires thread { slice_get asked.now.test.now.threads.items asked.now.index ≡ Some asked.now.thread.now }
    requires known { AreKnown asked.now.test.now asked.now.known.now }
    requires from { IsOnWay asked.now.test.now asked.now.thread.now from.hart }
    requires going { AreGoing asked.now.test.now asked.now.thread.now going.old.items }
    requires runs { All (IsRun asked.now.test.now asked.now.thread.now) ways.old.runs.items }
    requires written { AreKnown asked.now.test.now written.old.known }
    ensures going { OnOk result (AreGoing asked.now.test.now asked.now.thread.now going.new.items) }
    ensures runs { OnOk result (All (IsRun asked.now.test.now asked.now.thread.now) ways.new.runs.items) }
    ensures written { OnOk result (AreKnown asked.now.test.now written.new.known) }
    ensures kept { OnOk result (Grows written.old.known written.new.known) }
    ensures learnt { OnOk result (written.new.known.is_whole ≡ true
        → IsLastLearnt written.new.known.held.items from.hart.accesses.items) }
    ensures ways { OnOk result (KeepsWays ways.old ways.new) }
    ensures all { OnOk result (HasGoneBeyond asked.now.has_conditionals asked.now.thread.now
        asked.now.known.now.held.items from going.old.items going.new.items ways.new) }
{
    let hart = &from.hart;
    written.learn(asked, hart)?;
    let Some(step) = step_at(asked.thread, hart.next) else {
        return ways.list(asked, hart, alloc);
    };
    let standing = Standing::of(hart, asked.has_conditionals);
    if is_needless(from.before.as_slice(), &standing, step) {
        ways.count();
        return Ok(());
    }
    if from.before.len() >= MOST_STEPS_RUN || ways.left == 0 {
        ways.cut();
        return Ok(());
    }
    let Some(all) = hart.all_found(step, asked.known, alloc)? else {
        ways.cut();
        return Ok(());
    };
    go_on_by(asked, &from, standing, step, all, going, ways, alloc)
}

/// Makes a step with each of these finds: the first comes to lie on top.
fn go_on_by(
    asked: &Asked<'_, '_, '_>,
    from: &Going,
    standing: Standing,
    step: LitmusStep,
    mut all: Vec<Found>,
    going: &mut Vec<Going>,
    ways: &mut Ways,
    alloc: Global,
) -> Result<(), AllocError>
    requires from { IsOnWay asked.now.test.now asked.now.thread.now from.now.hart }
    requires step { slice_get asked.now.thread.now.steps.items from.now.hart.next ≡ Some step }
    requires known { AreKnown asked.now.test.now asked.now.known.now }
    requires all { All (MayFind asked.now.known.now.held.items step from.now.hart) all.items }
    requires going { AreGoing asked.now.test.now asked.now.thread.now going.old.items }
    requires standing { IsStandingOf asked.now.has_conditionals from.now.hart standing }
    ensures going { OnOk result (AreGoing asked.now.test.now asked.now.thread.now going.new.items) }
    ensures runs { ways.new.runs ≡ ways.old.runs }
    ensures whole { ways.new.is_whole ≡ true → ways.old.is_whole ≡ true }
    ensures left { OnOk result (HasLeft from.now.hart going.old.items going.new.items) }
    ensures each { OnOk result (ways.new.is_whole ≡ true → (found : Found) → Contains all.items found
        → IsGoneBy asked.now.has_conditionals asked.now.thread.now asked.now.known.now.held.items from.now step found
        going.new.items) }
{
    while let Some(found) = all.pop() {
        go_on_with(asked, from, standing, step, found, going, ways, alloc)?;
    }
    Ok(())
}

/// Makes a step with what is found.
fn go_on_with(
    asked: &Asked<'_, '_, '_>,
    from: &Going,
    standing: Standing,
    step: LitmusStep,
    found: Found,
    going: &mut Vec<Going>,
    ways: &mut Ways,
    alloc: Global,
) -> Result<(), AllocError>
    requires from { IsOnWay asked.now.test.now asked.now.thread.now from.now.hart }
    requires step { slice_get asked.now.thread.now.steps.items from.now.hart.next ≡ Some step }
    requires known { AreKnown asked.now.test.now asked.now.known.now }
    requires found { MayFind asked.now.known.now.held.items step from.now.hart found }
    requires going { AreGoing asked.now.test.now asked.now.thread.now going.old.items }
    requires standing { IsStandingOf asked.now.has_conditionals from.now.hart standing }
    ensures going { OnOk result (AreGoing asked.now.test.now asked.now.thread.now going.new.items) }
    ensures runs { ways.new.runs ≡ ways.old.runs }
    ensures whole { ways.new.is_whole ≡ true → ways.old.is_whole ≡ true }
    ensures left { OnOk result (HasLeft from.now.hart going.old.items going.new.items) }
    ensures gone { OnOk result (ways.new.is_whole ≡ true → IsGoneBy asked.now.has_conditionals
        asked.now.thread.now asked.now.known.now.held.items from.now step found going.new.items) }
{
    let Some(hart) = from.hart.behind(step, found, alloc)? else {
        ways.cut();
        return Ok(());
    };
    let before = with_standing(from.before.as_slice(), standing, alloc)?;
    going.push(Going { hart, before })?;
    Ok(())
}
