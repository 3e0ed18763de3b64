//! Why no execution of a test ends as its condition says.

ghost use Rattle.std.specs.Prelude.{◌≡◌, ◌==◌, ◌<◌, ◌&&◌, true, false, IfOk};
ghost use Rattle.litmus_cycles.specs.Explained.{IsShown};
ghost use Rattle.litmus_cycles.specs.Searched.{AreSearched, IsFound};
ghost use Rattle.litmus_cycles.specs.Looked.{AreLookedAt, is_incoherent, is_atomicity};
ghost use Rattle.litmus_cycles.specs.declared.demand.Demand.TheVariants.{Whole};

use crate::demand::Demand;
use crate::explanation::{Explanation, Shown};
use crate::findings::Findings;
use crate::onlooker::ChoiceOnlooker;
use crate::searching::search;
use litmus_runs::{AllRuns, all_runs};
use litmus_tests::LitmusTest;
use std::alloc::{AllocError, Global};

/// Looks at the candidate executions of a test that end as its condition says, and shows one: of those that have the
/// numbers, are coherent and whole the one with the least cycle; where there are none, one that is excluded by
/// atomicity alone, else by coherence.
///
/// A candidate gives each hart a run of at most 200 steps and all of them together at most 32 accesses, each read
/// a write of its number, and the writes of each location an order. What doesn't fit, what accesses anything else
/// than the word of a location, and what comes behind two million choices of ways, of some harts or of all, behind a
/// million choices that something may come of, or behind 10,000 candidates that fit, isn't looked at, which `is_whole`
/// tells. Errors: want of memory.
pub fn explain_forbidden<O: ChoiceOnlooker>(
    test: &LitmusTest,
    onlooker: &O,
    alloc: Global,
) -> Result<Explanation, AllocError>
    ensures { IfOk result (λ explanation. IsShown test.now explanation.shown) }
{
    let runs = all_runs(test, alloc)?;
    explain_ways(test, &runs, onlooker, alloc)
}

/// So it does with these ways of its harts. Where it is whole, none of their candidates is of a kind that is said not to
/// be there.
pub fn explain_ways<O: ChoiceOnlooker>(
    test: &LitmusTest,
    runs: &AllRuns,
    onlooker: &O,
    alloc: Global,
) -> Result<Explanation, AllocError>
    ensures shown { IfOk result (λ explanation. IsShown test.now explanation.shown) }
    ensures all { IfOk result (AreLookedAt test.now runs.now) }
{
    let findings = search(test, runs, Demand::Whole, onlooker, alloc)?;
    if has_none(&findings) {
        return excluded(test, runs, findings, onlooker, alloc);
    }
    Ok(told(findings))
}

/// Whether all were looked at, and none was found.
fn has_none(findings: &Findings) -> bool
    ensures none { result ≡ true → findings.now.fitting ≡ 0 }
    ensures some { result ≡ false → findings.now.is_whole ≡ true → 0 < findings.now.fitting }
{
    findings.is_whole && findings.fitting == 0
}

/// Why none fits: atomicity where there is a coherent one, coherence where there is one with the numbers.
fn excluded<O: ChoiceOnlooker>(
    test: &LitmusTest,
    runs: &AllRuns,
    none: Findings,
    onlooker: &O,
    alloc: Global,
) -> Result<Explanation, AllocError>
    requires searched { AreSearched test.now runs.now Whole none }
    requires found { IsFound test.now none }
    requires fits { none.fitting ≡ 0 }
    ensures shown { IfOk result (λ explanation. IsShown test.now explanation.shown) }
    ensures all { IfOk result (AreLookedAt test.now runs.now) }
{
    let coherent = search(test, runs, Demand::Coherent, onlooker, alloc)?;
    if is_atomicity(&coherent.shown) {
        return Ok(because(&none, &none, coherent.shown));
    }
    let writes = search(test, runs, Demand::Writes, onlooker, alloc)?;
    if is_incoherent(&writes.shown) {
        return Ok(because(&none, &coherent, writes.shown));
    }
    let numbers = search(test, runs, Demand::Numbers, onlooker, alloc)?;
    if is_incoherent(&numbers.shown) {
        return Ok(because(&none, &coherent, numbers.shown));
    }
    Ok(because(&none, &numbers, Shown::Nothing))
}

/// That is shown, where none fits, and another search has found none either.
fn because(none: &Findings, others: &Findings, shown: Shown) -> Explanation
    ensures shown { result.shown ≡ shown }
    ensures candidates { result.candidates ≡ none.now.candidates }
    ensures fitting { result.fitting ≡ 0 }
    ensures whole { result.is_whole ≡ (none.now.is_whole && (others.now.is_whole && others.now.fitting == 0)) }
{
    Explanation {
        candidates: none.candidates,
        fitting: 0,
        is_whole: none.is_whole && (others.is_whole && others.fitting == 0),
        shown,
    }
}

fn is_incoherent(shown: &Shown) -> bool
    ensures { result ≡ is_incoherent shown.now }
{
    matches!(shown, Shown::Incoherent { .. })
}

fn is_atomicity(shown: &Shown) -> bool
    ensures { result ≡ is_atomicity shown.now }
{
    matches!(shown, Shown::Atomicity { .. })
}

fn told(findings: Findings) -> Explanation
    ensures shown { result.shown ≡ findings.shown }
    ensures candidates { result.candidates ≡ findings.candidates }
    ensures fitting { result.fitting ≡ findings.fitting }
    ensures whole { result.is_whole ≡ findings.is_whole }
{
    Explanation {
        candidates: findings.candidates,
        fitting: findings.fitting,
        is_whole: findings.is_whole,
        shown: findings.shown,
    }
}
