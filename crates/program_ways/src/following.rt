//! All ways of one hart, by the numbers that are known.

ghost use Rattle.std.specs.Prelude.{◌≡◌, ℕ, ◌<◌, List, IfOk, IfSome, OnOk};
ghost use Rattle.program_ways.specs.declared.program.Program.{Program as ProgramParts};
ghost use Rattle.program_ways.specs.Keeping.{
  AreGoing,
  AreKnown,
  AreListed,
  HasWay,
  IsAt,
  IsAtEnd,
  IsGoing,
  IsProgram,
  MayFind,
};

use crate::bound::Bound;
use crate::finding::{all_found, make_access};
use crate::hart::{End, Hart, Reached, Sharing};
use crate::known::Known;
use crate::program::Program;
use crate::turns::{Standing, is_needless};
use crate::words::Touched;
use litmus_runs::{Access, Found, Run};
use std::alloc::{AllocError, Global};

/// How many ways of one hart are followed.
const MOST_WAYS: usize = 5_000;

/// How many accesses are made on all of them.
const MOST_ACCESSES_OF_ALL: usize = 20_000;

/// Whose ways are followed: those of the hart with this index.
#[derive(Clone, Copy, Drop)]
pub(crate) struct Asked<'program, 'shared, 'known> {
    pub program: &'program Program,
    pub shared: &'shared [u32],
    pub known: &'known Known,
    pub index: u8,
    /// Whether the program has store-conditionals.
    pub has_conditionals: bool,
}

/// What is found on the ways of all harts.
#[derive(Drop)]
pub(crate) struct Findings {
    pub touched: Touched,
    /// The numbers that were known, and those that are written.
    pub known: Known,
    /// How often each location is written at most on one way of the hart that is followed.
    pub most: Vec<usize>,
    /// What was met first that isn't followed.
    pub bound: Option<Bound>,
}

impl Findings {
    pub fn meet(&mut self, bound: Bound)
        ensures { self.new.known ≡ self.old.known }
    {
        if self.bound.is_none() {
            self.bound = Some(bound);
        }
    }

    /// Takes in what a hart has done on its way so far.
    fn learn(&mut self, asked: &Asked<'_, '_, '_>, hart: &Hart) -> Result<(), AllocError>
        requires way { HasWay asked.now.program.now asked.now.shared.now hart.now }
        requires known { AreKnown asked.now.program.now asked.now.shared.now self.old.known }
        ensures { OnOk result (AreKnown asked.now.program.now asked.now.shared.now self.new.known) }
    {
        raise(&mut self.most, hart.accesses.as_slice());
        self.known.learn(asked.program, asked.shared, hart)
    }
}

/// Keeps the greater of how often each location was written and how often these accesses write it.
fn raise(most: &mut Vec<usize>, accesses: &[Access]) {
    for (location, count) in most.iter_mut().enumerate() {
        let written = accesses
            .iter()
            .filter(|access| access.location == location && access.writes.is_some())
            .count();
        *count = (*count).max(written);
    }
}

/// The ways of a hart that come to their end.
#[derive(Drop)]
pub(crate) struct Ways {
    pub runs: Vec<Run>,
    /// How many ways were followed to where they end or are needless.
    count: usize,
}

impl Ways {
    /// Counts a way.
    fn count(&mut self)
        ensures runs { self.new.runs ≡ self.old.runs }
        ensures listed { (p : ProgramParts) (shared : List ℕ) (index : ℕ) → AreListed p shared index self.old.runs.items
            → AreListed p shared index self.new.runs.items }
    {
        self.count = self.count.saturating_add(1);
    }

    /// Lists the way of a hart that has ended so.
    fn list(&mut self, asked: &Asked<'_, '_, '_>, hart: Hart, end: End) -> Result<(), AllocError>
        requires program { IsProgram asked.now.program.now }
        requires way { IsGoing asked.now.program.now asked.now.shared.now asked.now.index hart }
        requires end { IsAtEnd asked.now.program.now hart end }
        requires runs { AreListed asked.now.program.now asked.now.shared.now asked.now.index self.old.runs.items }
        ensures { OnOk result
            (AreListed asked.now.program.now asked.now.shared.now asked.now.index self.new.runs.items) }
    {
        self.count();
        let registers = hart.last_registers(end);
        let accesses = hart.accesses;
        self.runs.push(Run {
            accesses,
            registers,
        })?;
        Ok(())
    }
}

/// A hart on its way, and how it stood at each access before.
#[derive(Drop)]
struct Going {
    hart: Hart,
    before: Vec<Standing>,
}

/// Follows a hart on all its ways. Those that are left stand on a stack.
pub(crate) fn follow(
    asked: &Asked<'_, '_, '_>,
    findings: &mut Findings,
    alloc: Global,
) -> Result<Ways, AllocError>
    requires program { IsProgram asked.now.program.now }
    requires index { asked.now.index < asked.now.program.now.harts }
    requires known { AreKnown asked.now.program.now asked.now.shared.now asked.now.known.now }
    requires written { AreKnown asked.now.program.now asked.now.shared.now findings.old.known }
    ensures runs { IfOk result (λ ways.
        AreListed asked.now.program.now asked.now.shared.now asked.now.index ways.runs.items) }
    ensures written { OnOk result (AreKnown asked.now.program.now asked.now.shared.now findings.new.known) }
{
    let mut ways = Ways {
        runs: Vec::new(alloc),
        count: 0,
    };
    let mut going = Vec::new(alloc);
    going.push(Going {
        hart: Hart::new(asked.program, asked.index, alloc),
        before: Vec::new(alloc),
    })?;
    'ways: for _ in 0..MOST_ACCESSES_OF_ALL {
        let Some(next) = going.pop() else {
            return Ok(ways);
        };
        if ways.count > MOST_WAYS {
            break 'ways;
        }
        go_on(asked, next, &mut going, &mut ways, findings, alloc)?;
    }
    findings.meet(Bound::Ways { hart: asked.index });
    Ok(ways)
}

/// Goes on to the next access of a way, and makes it with all that may be found there; or the way ends here.
fn go_on(
    asked: &Asked<'_, '_, '_>,
    from: Going,
    going: &mut Vec<Going>,
    ways: &mut Ways,
    findings: &mut Findings,
    alloc: Global,
) -> Result<(), AllocError>
    requires program { IsProgram asked.now.program.now }
    requires known { AreKnown asked.now.program.now asked.now.shared.now asked.now.known.now }
    requires from { IsGoing asked.now.program.now asked.now.shared.now asked.now.index from.hart }
    requires going { AreGoing asked.now.program.now asked.now.shared.now asked.now.index going.old.items }
    requires runs { AreListed asked.now.program.now asked.now.shared.now asked.now.index ways.old.runs.items }
    requires written { AreKnown asked.now.program.now asked.now.shared.now findings.old.known }
    ensures going { OnOk result (AreGoing asked.now.program.now asked.now.shared.now asked.now.index going.new.items) }
    ensures runs { OnOk result
        (AreListed asked.now.program.now asked.now.shared.now asked.now.index ways.new.runs.items) }
    ensures written { OnOk result (AreKnown asked.now.program.now asked.now.shared.now findings.new.known) }
{
    let Going { mut hart, before } = from;
    let reached = hart.go_on(asked.program, asked.shared, &mut findings.touched, alloc)?;
    match reached {
        Reached::Sharing(sharing) => {
            share(asked, hart, before, sharing, going, ways, findings, alloc)
        }
        Reached::End(end) => {
            findings.learn(asked, &hart)?;
            ways.list(asked, hart, end)
        }
        Reached::Turning => {
            ways.count();
            findings.learn(asked, &hart)?;
            Ok(())
        }
        Reached::Bound(bound) => {
            findings.meet(bound);
            findings.learn(asked, &hart)?;
            Ok(())
        }
    }
}

/// Makes an access with each of what may be found there: the first comes to lie on top.
fn share(
    asked: &Asked<'_, '_, '_>,
    hart: Hart,
    before: Vec<Standing>,
    sharing: Sharing,
    going: &mut Vec<Going>,
    ways: &mut Ways,
    findings: &mut Findings,
    alloc: Global,
) -> Result<(), AllocError>
    requires program { IsProgram asked.now.program.now }
    requires known { AreKnown asked.now.program.now asked.now.shared.now asked.now.known.now }
    requires way { IsGoing asked.now.program.now asked.now.shared.now asked.now.index hart }
    requires at { IsAt asked.now.program.now asked.now.shared.now hart sharing }
    requires going { AreGoing asked.now.program.now asked.now.shared.now asked.now.index going.old.items }
    requires runs { AreListed asked.now.program.now asked.now.shared.now asked.now.index ways.old.runs.items }
    requires written { AreKnown asked.now.program.now asked.now.shared.now findings.old.known }
    ensures going { OnOk result (AreGoing asked.now.program.now asked.now.shared.now asked.now.index going.new.items) }
    ensures runs { OnOk result
        (AreListed asked.now.program.now asked.now.shared.now asked.now.index ways.new.runs.items) }
    ensures written { OnOk result (AreKnown asked.now.program.now asked.now.shared.now findings.new.known) }
{
    let standing = Standing::of(&hart, asked.has_conditionals, alloc)?;
    if is_needless(before.as_slice(), &standing, &sharing) {
        ways.count();
        findings.learn(asked, &hart)?;
        return Ok(());
    }
    let mut all = all_found(&sharing, asked.known, alloc)?;
    while let Some(found) = all.pop() {
        let before = with_standing(before.as_slice(), &standing, alloc)?;
        match share_with(asked, &hart, &sharing, found, alloc)? {
            Some(next) => going.push(Going { hart: next, before })?,
            None => {
                findings.meet(Bound::Accesses { hart: hart.index });
                findings.learn(asked, &hart)?;
            }
        }
    }
    Ok(())
}

/// The hart behind an access that finds that. None where it has made as many as it may.
fn share_with(
    asked: &Asked<'_, '_, '_>,
    hart: &Hart,
    sharing: &Sharing,
    found: Found,
    alloc: Global,
) -> Result<Option<Hart>, AllocError>
    requires program { IsProgram asked.now.program.now }
    requires known { AreKnown asked.now.program.now asked.now.shared.now asked.now.known.now }
    requires way { IsGoing asked.now.program.now asked.now.shared.now asked.now.index hart.now }
    requires at { IsAt asked.now.program.now asked.now.shared.now hart.now sharing.now }
    requires found { MayFind asked.now.known.now.held.items sharing.now found }
    ensures { IfOk result (λ next. IfSome next (IsGoing asked.now.program.now asked.now.shared.now asked.now.index)) }
{
    let mut next = hart.copy(alloc)?;
    let is_made = make_access(&mut next, asked.program, sharing, found)?;
    if is_made {
        return Ok(Some(next));
    }
    Ok(None)
}

/// These and one more.
fn with_standing(
    before: &[Standing],
    standing: &Standing,
    alloc: Global,
) -> Result<Vec<Standing>, AllocError> {
    let mut all = Vec::new(alloc);
    for one in before {
        all.push(one.copy(alloc)?)?;
    }
    all.push(standing.copy(alloc)?)?;
    Ok(all)
}
