//! All ways in which each hart can go through its steps, by the numbers that it reads.

ghost use Rattle.std.specs.Prelude.{◌≡◌, true, false, All, IfOk, Some, slice_get};
ghost use Rattle.std.specs.List.{AllZip, list_all};
ghost use Rattle.litmus_runs.specs.Ways.{AreKnown, AreRuns, IsRun};
ghost use Rattle.litmus_runs.specs.Turns.{has_conditionals};
ghost use Rattle.litmus_runs.specs.AllWays.{AreAllLearnt, AreAllListed, Grows};
ghost use Rattle.litmus_runs.specs.Needed.{AreNeededListed};
ghost use Rattle.litmus_runs.specs.Rounds.{AreAll, AreAllClosed, IsTold, are_whole};

use crate::access::Access;
use crate::following::{Asked, Ways, follow};
use crate::growth::Growth;
use crate::known::{Known, has_nothing_new};
use crate::turns::has_conditionals;
use crate::written::Written;
use litmus_tests::LitmusTest;
use std::alloc::{AllocError, Global};

/// How often the numbers are gathered that harts can write.
const MOST_ROUNDS: usize = 64;

/// A hart's way to its end: what it does with memory, and what its registers hold then.
#[derive(Drop)]
pub struct Run {
    pub accesses: Vec<Access>,
    pub registers: [u32; 32],
}

/// The runs of one hart.
#[derive(Drop)]
pub struct HartRuns {
    pub runs: Vec<Run>,
    /// Whether these are all.
    pub is_whole: bool,
}

/// The runs of all harts.
#[derive(Drop)]
pub struct AllRuns {
    pub harts: Vec<HartRuns>,
    pub is_whole: bool,
}

impl AllRuns {
    /// A run of a hart.
    pub fn run(&self, hart: usize, index: usize) -> Option<&Run> {
        self.harts.get(hart)?.runs.get(index)
    }

    /// How many runs a hart has.
    pub fn count(&self, hart: usize) -> usize {
        match self.harts.get(hart) {
            Some(found) => found.runs.len(),
            None => 0,
        }
    }
}

/// The runs of all harts, and whether nothing that they write is new.
#[derive(Drop)]
pub struct GatheredRuns {
    pub runs: AllRuns,
    /// Whether the numbers by which they were followed are all that any of them writes. Else, where the runs are whole,
    /// no execution reads what is new, by how often its locations are written (`Growth::is_over`).
    pub is_closed: bool,
}

/// All runs in which each read finds a number that is there at the start, or that some hart writes on its way.
pub fn all_runs(test: &LitmusTest, alloc: Global) -> Result<AllRuns, AllocError>
    ensures ways { IfOk result (λ runs. AreRuns test.now runs.harts.items) }
    ensures all { IfOk result (λ runs. runs.is_whole ≡ true → AreAll test.now runs.harts.items) }
{
    let gathered = gathered_runs(test, alloc)?;
    Ok(gathered.runs)
}

/// The same, with whether nothing new is written on them.
pub fn gathered_runs(test: &LitmusTest, alloc: Global) -> Result<GatheredRuns, AllocError>
    ensures ways { IfOk result (λ gathered. AreRuns test.now gathered.runs.harts.items) }
    ensures all { IfOk result (λ gathered. gathered.runs.is_whole ≡ true
        → AreAll test.now gathered.runs.harts.items) }
    ensures closed { IfOk result (λ gathered. gathered.runs.is_whole ≡ true → gathered.is_closed ≡ true
        → AreAllClosed test.now gathered.runs.harts.items) }
    ensures needed { IfOk result (λ gathered. gathered.runs.is_whole ≡ true → gathered.is_closed ≡ true
        → AreNeededListed test.now gathered.runs.harts.items) }
{
    let mut known = Known::new(test, alloc)?;
    let mut growth = Growth::new(test.words.len(), alloc)?;
    'rounds: for _ in 0..MOST_ROUNDS {
        let gathered = gather(test, &known, alloc)?;
        if has_nothing_new(&known.held, &gathered.written.known.held) {
            return Ok(GatheredRuns {
                runs: gathered.into_runs(test),
                is_closed: true,
            });
        }
        note_new(&mut growth, &known, &gathered.written.known);
        if growth.is_over(gathered.written.most.as_slice()) {
            return Ok(GatheredRuns {
                runs: gathered.into_runs(test),
                is_closed: false,
            });
        }
        known = gathered.into_known(test);
    }
    let gathered = gather(test, &known, alloc)?;
    Ok(GatheredRuns {
        runs: gathered.into_cut(test),
        is_closed: false,
    })
}

/// One more round: what was known, and what is written by it.
fn note_new(growth: &mut Growth, known: &Known, written: &Known) {
    growth.begin();
    for held in written.held.iter().skip(known.held.len()) {
        growth.note(held.location);
    }
}

/// What is found by the numbers that are known.
#[derive(Drop)]
struct Gathered {
    harts: Vec<HartRuns>,
    written: Written,
}

impl Gathered {
    /// What is known then: whole where no way was cut.
    fn into_known(self, test: &LitmusTest) -> Known
        requires { AreKnown test.now self.written.known }
        ensures known { AreKnown test.now result }
        ensures held { result.held ≡ self.written.known.held }
        ensures whole { result.is_whole ≡ are_whole self.written.known self.harts.items }
    {
        let is_whole = self.is_whole();
        let written = self.written;
        Known {
            held: written.known.held,
            is_whole,
        }
    }

    /// Whether nothing was left out.
    fn is_whole(&self) -> bool
        ensures { result ≡ are_whole self.now.written.known self.now.harts.items }
    {
        self.written.known.is_whole && are_whole(&self.harts)
    }

    fn into_runs(self, test: &LitmusTest) -> AllRuns
        requires { AreRuns test.now self.harts.items }
        ensures ways { AreRuns test.now result.harts.items }
        ensures harts { result.harts ≡ self.harts }
        ensures whole { result.is_whole ≡ are_whole self.written.known self.harts.items }
    {
        let is_whole = self.is_whole();
        AllRuns {
            harts: self.harts,
            is_whole,
        }
    }

    /// What was found as the rounds were up.
    fn into_cut(self, test: &LitmusTest) -> AllRuns
        requires { AreRuns test.now self.harts.items }
        ensures ways { AreRuns test.now result.harts.items }
        ensures whole { result.is_whole ≡ false }
    {
        AllRuns {
            harts: self.harts,
            is_whole: false,
        }
    }
}

/// What harts do on their ways by these numbers, and what they write.
fn gather(test: &LitmusTest, known: &Known, alloc: Global) -> Result<Gathered, AllocError>
    requires { AreKnown test.now known.now }
    ensures runs { IfOk result (λ gathered. AreRuns test.now gathered.harts.items) }
    ensures written { IfOk result (λ gathered. AreKnown test.now gathered.written.known) }
    ensures kept { IfOk result (λ gathered. Grows known.now gathered.written.known) }
    ensures told { IfOk result (λ gathered. AllZip (IsTold test.now known.now.held.items gathered.written.known)
        test.now.threads.items gathered.harts.items) }
{
    let has_conditionals = has_conditionals(test);
    let mut written = Written::new(test, known, alloc)?;
    let mut harts = Vec::new(alloc);
    for (index, thread) in test.threads.iter().enumerate() {
        let asked = Asked {
            test,
            index,
            thread,
            known,
            has_conditionals,
        };
        let hart = runs_of(&asked, &mut written, alloc)?;
        harts.push(hart)?;
    }
    Ok(Gathered { harts, written })
}

fn runs_of(
    asked: &Asked<'_, '_, '_>,
    written: &mut Written,
    alloc: Global,
) -> Result<HartRuns, AllocError>
    requires thread { slice_get asked.now.test.now.threads.items asked.now.index ≡ Some asked.now.thread.now }
    requires known { AreKnown asked.now.test.now asked.now.known.now }
    requires written { AreKnown asked.now.test.now written.old.known }
    ensures runs { IfOk result (λ hart. All (IsRun asked.now.test.now asked.now.thread.now) hart.runs.items) }
    ensures written { IfOk result (λ hart. AreKnown asked.now.test.now written.new.known) }
    ensures kept { IfOk result (λ hart. Grows written.old.known written.new.known) }
    ensures listed { IfOk result (λ hart. hart.is_whole ≡ true → AreAllListed asked.now.has_conditionals
        asked.now.thread.now asked.now.known.now.held.items hart.runs.items) }
    ensures learnt { IfOk result (λ hart. hart.is_whole ≡ true → written.new.known.is_whole ≡ true
        → AreAllLearnt asked.now.has_conditionals asked.now.thread.now asked.now.known.now.held.items
        written.new.known.held.items) }
{
    let mut ways = Ways::new(alloc);
    follow(asked, &mut ways, written, alloc)?;
    written.end_hart();
    Ok(ways.into_runs())
}

fn are_whole(harts: &Vec<HartRuns>) -> bool
    ensures { result ≡ list_all (λ hart. hart.is_whole) harts.now.items }
{
    harts.iter().all(|hart| hart.is_whole)
}
