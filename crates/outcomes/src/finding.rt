//! The search for all outcomes of a program, or for some.

ghost use Rattle.std.specs.Prelude.{◌≡◌, true, false, Contains, IfOk, IfErr, OnOk};
ghost use Rattle.condensed_machine.specs.Decoded.{Knows};
ghost use Rattle.condensed_machine.specs.Machine.{IsSound};
ghost use Rattle.condensed_machine.specs.Steps.{Steps, HasBegun};
ghost use Rattle.condensed_machine.specs.declared.begun.Begun.{Begun};
ghost use Rattle.condensed_machine.specs.declared.state.State.{State};
ghost use Rattle.searches.specs.{Found.IsExplored, Found.IsToldFor};
ghost use Rattle.outcomes.specs.{Found.IsOnce, Parts.IsListing, Parts.IsAskedFor};
ghost use Rattle.outcomes.specs.{Collected.IsAskedAt, Ended.AreEnds};
ghost use Rattle.outcomes.specs.Refusals.{IsRefusedFor, AreWords, AreWatched};
ghost use Rattle.outcomes.specs.Passes.{IsUnfoundFor, IsCutShort};
ghost use Rattle.outcomes.specs.Searched.{IsSearchedBy, IsSearchedFor, IsSearchedWith};
ghost use Rattle.watched_outcomes.specs.Watching.{AreThere};

use crate::ending_goal::EndingGoal;
use crate::ends::{Ends, ends_of};
use crate::first_jumps::first_jumps;
use crate::outcomes::Outcomes;
use crate::refused::OutcomesRefused;
use crate::unfound::Unfound;
use crate::until::Until;
use condensed_machine::{Begun, CondensedMachine, State, Way};
use elf_image::Image;
use live_registers::Targets;
use reductions::Without;
use sc_machine::PlainRefused;
use searches::{Explored, Onlooker, Unmade, explore};
use std::alloc::{AllocError, Global};
use watched_outcomes::{Watch, WatchedBytes};

/// How many passes there are at the most that take it that harts jump by registers only where it was seen.
const MOST_PASSES: u8 = 64;

/// Finds the outcomes of a program of 1 to `MOST_HARTS` harts, by a search over at most `budget` states of
/// the plain machine. The onlooker is told now and then how far the search is.
///
/// Each outcome that is found has an order that leads there. Where the search is whole, whatever order the harts
/// take, if it leads to an end that end is found; and every core that runs the program to its end, in whatever
/// way, ends as one of them says. Of each watched place in memory it is found then too whether any order writes
/// there.
///
/// Where there are more states than the budget, the search goes on as far as some ends, and tells what it has found
/// until then. It ends early with the first outcome that `until` asks for.
///
/// The reductions that it is to be without are left out. They change which states are visited, and none of this.
pub fn find_outcomes<O: Onlooker, U: Until>(
    image: &Image,
    harts: u8,
    watch: &Watch,
    budget: u32,
    without: Without,
    onlooker: &O,
    until: &U,
    alloc: Global,
) -> Result<Outcomes, OutcomesRefused>
    ensures found { IfOk result (IsListing image.now harts watch.now budget) }
    ensures once { IfOk result IsOnce }
    ensures asked { IfOk result (IsAskedFor (U.Asks until.now)) }
    ensures present { OnOk result (AreThere harts watch.now × AreWords image.now watch.now) }
    ensures refused { IfErr result (IsRefusedFor image.now harts watch.now) }
    ensures searched { IfOk result (IsSearchedFor image.now harts without budget) }
{
    if without.jumps {
        return find_anywhere(image, harts, watch, budget, without, onlooker, until, alloc);
    }
    find_in_passes(image, harts, watch, budget, without, onlooker, until, alloc)
}

/// The outcomes of a program whose harts are taken to jump by registers only where it was seen: in passes, until none
/// sees another jump.
fn find_in_passes<O: Onlooker, U: Until>(
    image: &Image,
    harts: u8,
    watch: &Watch,
    budget: u32,
    without: Without,
    onlooker: &O,
    until: &U,
    alloc: Global,
) -> Result<Outcomes, OutcomesRefused>
    ensures found { IfOk result (IsListing image.now harts watch.now budget) }
    ensures once { IfOk result IsOnce }
    ensures asked { IfOk result (IsAskedFor (U.Asks until.now)) }
    ensures present { OnOk result (AreThere harts watch.now × AreWords image.now watch.now) }
    ensures refused { IfErr result (IsRefusedFor image.now harts watch.now) }
    ensures searched { IfOk result (IsSearchedWith image.now harts without false budget) }
{
    let Ok(mut targets) = first_jumps(image, harts, alloc) else {
        return Err(OutcomesRefused::Memory);
    };
    for _pass in 0..MOST_PASSES {
        let Ok(seen) = copy_of(&targets, alloc) else {
            return Err(OutcomesRefused::Memory);
        };
        match find_within(
            image, harts, watch, budget, without, onlooker, until, seen, alloc,
        ) {
            Ok(found) => return Ok(found),
            Err(Unfound::Refused(why)) => return Err(why),
            Err(Unfound::Lacks(jump)) => {
                let Ok(()) = targets.add(jump) else {
                    return Err(OutcomesRefused::Memory);
                };
            }
        }
    }
    find_anywhere(image, harts, watch, budget, without, onlooker, until, alloc)
}

/// The same targets. Errors: want of memory.
fn copy_of(targets: &Targets, alloc: Global) -> Result<Targets, AllocError>
    ensures anywhere { IfOk result (λ copy. copy.anywhere ≡ targets.now.anywhere) }
    ensures jumps { IfOk result (λ copy. copy.jumps.items ≡ targets.now.jumps.items) }
{
    Ok(Targets {
        anywhere: targets.anywhere,
        jumps: Vec::from_slice(alloc, targets.jumps.as_slice())?,
    })
}

/// The outcomes of a program whose harts may jump anywhere by registers: in one pass.
fn find_anywhere<O: Onlooker, U: Until>(
    image: &Image,
    harts: u8,
    watch: &Watch,
    budget: u32,
    without: Without,
    onlooker: &O,
    until: &U,
    alloc: Global,
) -> Result<Outcomes, OutcomesRefused>
    ensures found { IfOk result (IsListing image.now harts watch.now budget) }
    ensures once { IfOk result IsOnce }
    ensures asked { IfOk result (IsAskedFor (U.Asks until.now)) }
    ensures present { OnOk result (AreThere harts watch.now × AreWords image.now watch.now) }
    ensures refused { IfErr result (IsRefusedFor image.now harts watch.now) }
    ensures searched { IfOk result (IsSearchedWith image.now harts without true budget) }
{
    let anywhere = Targets::anywhere(alloc);
    match find_within(
        image, harts, watch, budget, without, onlooker, until, anywhere, alloc,
    ) {
        Ok(found) => Ok(found),
        Err(Unfound::Refused(why)) => Err(why),
        Err(Unfound::Lacks(_)) => unreachable!(),
    }
}

/// One pass: the outcomes of a program, where its harts jump by registers only where these targets say.
fn find_within<O: Onlooker, U: Until>(
    image: &Image,
    harts: u8,
    watch: &Watch,
    budget: u32,
    without: Without,
    onlooker: &O,
    until: &U,
    targets: Targets,
    alloc: Global,
) -> Result<Outcomes, Unfound>
    ensures found { IfOk result (IsListing image.now harts watch.now budget) }
    ensures once { IfOk result IsOnce }
    ensures asked { IfOk result (IsAskedFor (U.Asks until.now)) }
    ensures present { OnOk result (AreThere harts watch.now × AreWords image.now watch.now) }
    ensures unfound { IfErr result (IsUnfoundFor image.now harts watch.now targets) }
    ensures searched { IfOk result (IsSearchedWith image.now harts without targets.anywhere budget) }
{
    let machine = match new_machine(image, harts, watch, targets, without, alloc) {
        Ok(machine) => machine,
        Err(why) => return Err(Unfound::Refused(why)),
    };
    search_all(machine, watch, budget, onlooker, until, alloc)
}

/// The machine that is searched.
fn new_machine(
    image: &Image,
    harts: u8,
    watch: &Watch,
    targets: Targets,
    without: Without,
    alloc: Global,
) -> Result<CondensedMachine, OutcomesRefused>
    ensures image { IfOk result (λ machine. machine.program.image ≡ image.now) }
    ensures harts { IfOk result (λ machine. machine.program.harts ≡ harts) }
    ensures without { IfOk result (λ machine. machine.program.without ≡ without) }
    ensures sound { IfOk result (λ machine. IsSound machine.program) }
    ensures watched { IfOk result (λ machine. AreWatched machine.program.watched watch.now) }
    ensures anywhere { IfOk result (λ machine. targets.anywhere ≡ true
        → machine.program.targets.anywhere ≡ true) }
    ensures refused { IfErr result
        (IsRefusedFor image.now harts watch.now) }
{
    match CondensedMachine::new(
        image,
        harts,
        watch.registers_watched(),
        targets,
        without,
        alloc,
    ) {
        Ok(machine) => Ok(machine),
        Err(PlainRefused::Harts) => Err(OutcomesRefused::Harts),
        Err(PlainRefused::Memory) => Err(OutcomesRefused::Memory),
    }
}

/// What a pass has seen: how it began, the states, and what is told of them.
#[derive(Drop)]
struct Seen {
    begun: Begun,
    explored: Explored<State, Way>,
    ends: Ends,
}

/// Finds outcomes of a machine that knows no state.
fn search_all<O: Onlooker, U: Until>(
    machine: CondensedMachine,
    watch: &Watch,
    budget: u32,
    onlooker: &O,
    until: &U,
    alloc: Global,
) -> Result<Outcomes, Unfound>
    requires sound { IsSound machine.program }
    requires watched { AreWatched machine.program.watched watch.now }
    ensures found { IfOk result
        (IsListing machine.program.image machine.program.harts watch.now budget) }
    ensures once { IfOk result IsOnce }
    ensures asked { IfOk result (IsAskedFor (U.Asks until.now)) }
    ensures present { OnOk result (AreThere machine.program.harts watch.now
        × AreWords machine.program.image watch.now) }
    ensures unfound { IfErr result (IsUnfoundFor machine.program.image machine.program.harts watch.now
        machine.program.targets) }
    ensures searched { IfOk result (IsSearchedBy machine.program budget) }
{
    let mut machine = machine;
    match see_all(&mut machine, watch, budget, onlooker, until, alloc) {
        Ok(seen) => Ok(outcomes_of(machine, seen, watch, budget, until)),
        Err(why) => Err(why),
    }
}

/// Visits all states of a machine that knows none, or a part, and sees what is to be told of them.
fn see_all<O: Onlooker, U: Until>(
    machine: &mut CondensedMachine,
    watch: &Watch,
    budget: u32,
    onlooker: &O,
    until: &U,
    alloc: Global,
) -> Result<Seen, Unfound>
    ensures program { machine.new.program ≡ machine.old.program }
    ensures registers { OnOk result (AreThere machine.new.program.harts watch.now) }
    ensures words { OnOk result (AreWords machine.new.program.image watch.now) }
    ensures begun { IfOk result (λ seen. HasBegun machine.new seen.begun) }
    ensures explored { IfOk result (λ seen. IsExplored (Steps machine.new) machine.new.program.harts
        seen.begun.state budget seen.explored.search seen.explored.extent) }
    ensures known { IfOk result (λ seen. (s : State) → Contains seen.explored.search.states s
        → Knows machine.new s) }
    ensures asked { IfOk result (λ seen. IsToldFor (IsAskedAt (U.Asks until.now) machine.new watch.now)
        seen.explored.search seen.explored.extent) }
    ensures ends { IfOk result (λ seen. AreEnds machine.new watch.now seen.explored.search
        seen.explored.extent seen.ends) }
    ensures unfound { IfErr result (IsUnfoundFor machine.old.program.image machine.old.program.harts
        watch.now machine.old.program.targets) }
{
    match check_watch(machine, watch) {
        Ok(()) => {}
        Err(why) => return Err(Unfound::Refused(why)),
    }
    let Ok(begun) = machine.begin() else {
        return Err(Unfound::Refused(OutcomesRefused::Memory));
    };
    let explored = match search_from(machine, begun, watch, budget, onlooker, until, alloc) {
        Ok(explored) => explored,
        Err(why) => return Err(why),
    };
    let Ok(ends) = ends_of(machine, &explored.search, explored.extent, watch, alloc) else {
        return Err(Unfound::Refused(OutcomesRefused::Memory));
    };
    Ok(Seen {
        begun,
        explored,
        ends,
    })
}

/// Looks whether all that is watched is there.
fn check_watch(machine: &CondensedMachine, watch: &Watch) -> Result<(), OutcomesRefused>
    ensures registers { OnOk result (AreThere machine.now.program.harts watch.now) }
    ensures words { OnOk result (AreWords machine.now.program.image watch.now) }
    ensures refused { IfErr result
        (IsRefusedFor machine.now.program.image machine.now.program.harts watch.now) }
{
    if let Some(index) = watch.absent_register(machine.harts()) {
        return Err(OutcomesRefused::Register(index));
    }
    for index in 0..watch.words.len() {
        let WatchedBytes { address, width } = watch.words[index];
        if !machine.can_load(address, width.bytes()) {
            return Err(OutcomesRefused::Word(index));
        }
    }
    Ok(())
}

/// Visits the states behind the first one.
fn search_from<O: Onlooker, U: Until>(
    machine: &mut CondensedMachine,
    begun: Begun,
    watch: &Watch,
    budget: u32,
    onlooker: &O,
    until: &U,
    alloc: Global,
) -> Result<Explored<State, Way>, Unfound>
    requires known { Knows machine.old begun.state }
    requires begun { HasBegun machine.old begun }
    requires registers { AreThere machine.old.program.harts watch.now }
    requires words { AreWords machine.old.program.image watch.now }
    ensures program { machine.new.program ≡ machine.old.program }
    ensures begun { HasBegun machine.new begun }
    ensures explored { IfOk result (λ explored. IsExplored (Steps machine.new) machine.new.program.harts
        begun.state budget explored.search explored.extent) }
    ensures known { IfOk result (λ explored. (s : State) → Contains explored.search.states s
        → Knows machine.new s) }
    ensures asked { IfOk result (λ explored. IsToldFor (IsAskedAt (U.Asks until.now) machine.new watch.now)
        explored.search explored.extent) }
    ensures cut_short { IfErr result (IsCutShort machine.old.program.targets) }
{
    let goal = EndingGoal {
        watch,
        until,
        alloc,
    };
    match explore(machine, begun.state, budget, onlooker, &goal, alloc) {
        Ok(explored) => Ok(explored),
        Err(Unmade::Memory) => Err(Unfound::Refused(OutcomesRefused::Memory)),
        Err(Unmade::Lacks(jump)) => Err(Unfound::Lacks(jump)),
    }
}

/// The outcomes that a pass has seen, with the machine's rows.
fn outcomes_of<U: Until>(
    machine: CondensedMachine,
    seen: Seen,
    watch: &Watch,
    budget: u32,
    until: &U,
) -> Outcomes
    requires sound { IsSound machine.program }
    requires watched { AreWatched machine.program.watched watch.now }
    requires registers { AreThere machine.program.harts watch.now }
    requires begun { HasBegun machine seen.begun }
    requires explored { IsExplored (Steps machine) machine.program.harts seen.begun.state budget
        seen.explored.search seen.explored.extent }
    requires known { (s : State) → Contains seen.explored.search.states s → Knows machine s }
    requires asked { IsToldFor (IsAskedAt (U.Asks until.now) machine watch.now) seen.explored.search
        seen.explored.extent }
    requires ends { AreEnds machine watch.now seen.explored.search seen.explored.extent seen.ends }
    ensures found { IsListing machine.program.image machine.program.harts watch.now budget result }
    ensures once { IsOnce result }
    ensures asked { IsAskedFor (U.Asks until.now) result }
    ensures searched { IsSearchedBy machine.program budget result }
{
    let harts = machine.harts();
    let Seen {
        begun,
        explored,
        ends,
    } = seen;
    let ways = begun.ways;
    Outcomes {
        harts,
        ways,
        rows: machine.into_rows(),
        search: explored.search,
        extent: explored.extent,
        listed: ends.listed,
        stuck: ends.stuck,
        unwritten: ends.unwritten,
    }
}
