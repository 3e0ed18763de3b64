//! How a run has ended.

ghost use Rattle.std.specs.Prelude.{◌≡◌, IfOk, map, true};
ghost use Rattle.outcomes.specs.Found.{committed_in, core_word};
ghost use Rattle.outcomes.specs.Refusals.{AreWords, CanLoad};
ghost use Rattle.watched_outcomes.specs.Watching.{AreThere, is_register_there};
ghost use Rattle.stress_runs.specs.Ends.{end_of};

use smt_core::Core;
use std::alloc::{AllocError, Global};
use watched_outcomes::{Outcome, Watch, WatchedBytes, WatchedRegister};

/// How the run has ended that has left this core, with what is watched of it. Errors: want of memory.
pub(crate) fn end_of(core: &Core, watch: &Watch, alloc: Global) -> Result<Outcome, AllocError>
    requires registers { AreThere core.now.setup.harts watch.now }
    requires words { AreWords core.now.setup.image watch.now }
    ensures { IfOk result (λ end. end ≡ end_of watch.now core.now) }
{
    let account = core.account();
    Ok(Outcome {
        statuses: account.statuses,
        registers: registers_of(core, watch, alloc)?,
        words: words_of(core, watch, alloc)?,
        output: Vec::from_slice(alloc, account.output)?,
    })
}

/// What the watched registers hold, as the retired instructions have left them. Errors: want of memory.
fn registers_of(core: &Core, watch: &Watch, alloc: Global) -> Result<Vec<u32>, AllocError>
    requires { AreThere core.now.setup.harts watch.now }
    ensures { IfOk result (λ numbers. numbers.items
        ≡ map (committed_in core.now.setup core.now.past) watch.now.registers.items) }
{
    let mut numbers = Vec::with_capacity(alloc, watch.registers.len())?;
    for watched in watch.registers.as_slice() {
        numbers.push(register_in(core, *watched))?;
    }
    Ok(numbers)
}

fn register_in(core: &Core, watched: WatchedRegister) -> u32
    requires { is_register_there core.now.setup.harts watched ≡ true }
    ensures { result ≡ committed_in core.now.setup core.now.past watched }
{
    core.register(watched.hart, watched.register).unwrap_or(0)
}

/// What the watched places in memory hold. Errors: want of memory.
fn words_of(core: &Core, watch: &Watch, alloc: Global) -> Result<Vec<u32>, AllocError>
    requires { AreWords core.now.setup.image watch.now }
    ensures { IfOk result (λ numbers. numbers.items
        ≡ map (core_word core.now.setup core.now.past) watch.now.words.items) }
{
    let mut numbers = Vec::with_capacity(alloc, watch.words.len())?;
    for index in 0..watch.words.len() {
        numbers.push(word_in(core, watch.words[index]))?;
    }
    Ok(numbers)
}

fn word_in(core: &Core, bytes: WatchedBytes) -> u32
    requires { CanLoad core.now.setup.image bytes }
    ensures { result ≡ core_word core.now.setup core.now.past bytes }
{
    core.memory().read(bytes.address, bytes.width.bytes())
}
