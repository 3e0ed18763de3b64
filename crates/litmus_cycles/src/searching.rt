//! The search through all candidates of a demand: each hart's way, then one open choice after the other.

ghost use Rattle.std.specs.Prelude.{◌≡◌, ◌≤◌, ◌++◌, [], ◌∷◌, IfOk, IfSome, OnOk, None, true, false, length, filter, min, ◌^◌, ◌-◌, if◌then◌else◌, List};
ghost use Rattle.litmus_cycles.specs.Choices.{accesses_of, may_choose, with_choice, all_open, events_of, undecided, undecided_all};
ghost use Rattle.litmus_cycles.specs.declared.open.Open.{Open};
ghost use Rattle.litmus_cycles.specs.Choices.{come, come_of};
ghost use Rattle.litmus_cycles.specs.Kept.{IsReady, AreAllUnsourced};
ghost use Rattle.litmus_cycles.specs.Counts.{count_of, count_behind, combinations, is_ruled_out};
ghost use Rattle.litmus_cycles.specs.Searched.{IsFound, Stays, Searches, HasCounted, AreSearched, is_wanted, wanted_of, wanted_behind};

use crate::choosing::{may_choose, with_choice};
use crate::deciding::Asked;
use crate::demand::Demand;
use crate::event::MemoryEvent;
use crate::findings::Findings;
use crate::onlooker::ChoiceOnlooker;
use crate::open::{Open, count_candidates, open_choices};
use litmus_runs::{Access, AllRuns, HartRuns, MOST_ACCESSES};
use litmus_tests::LitmusTest;
use std::alloc::{AllocError, Global};

/// Looks for the candidates of a test that meet the demand. The onlooker is told now and then how far the search is.
pub(crate) fn search<O: ChoiceOnlooker>(
    test: &LitmusTest,
    runs: &AllRuns,
    demand: Demand,
    onlooker: &O,
    alloc: Global,
) -> Result<Findings, AllocError>
    ensures found { IfOk result (IsFound test.now) }
    ensures all { IfOk result (AreSearched test.now runs.now demand) }
{
    let mut findings = Findings::new(runs.is_whole);
    choose_ways(
        test,
        runs,
        demand,
        runs.harts.as_slice(),
        &[],
        onlooker,
        &mut findings,
        alloc,
    )?;
    Ok(findings)
}

/// Chooses the ways of the harts that are left, each in turn.
fn choose_ways<O: ChoiceOnlooker>(
    test: &LitmusTest,
    runs: &AllRuns,
    demand: Demand,
    left: &[HartRuns],
    chosen: &[usize],
    onlooker: &O,
    findings: &mut Findings,
    alloc: Global,
) -> Result<(), AllocError>
    requires { IsFound test.now findings.old }
    ensures found { IsFound test.now findings.new }
    ensures all { OnOk result (Searches demand (wanted_behind test.now runs.now demand chosen.now left.now)
        findings.old findings.new) }
    ensures counts { OnOk result (HasCounted (count_behind test.now runs.now chosen.now left.now) findings.old
        findings.new) }
{
    onlooker.see(findings.tried());
    if is_ruled_out(test, runs, demand, chosen) {
        findings.rule_out(test);
        return Ok(());
    }
    let [hart, rest @ ..] = left else {
        return relate(test, runs, demand, chosen, findings, alloc);
    };
    for index in 0..hart.runs.len() {
        if findings.is_over {
            return Ok(());
        }
        let next = with_way(chosen, index, alloc)?;
        choose_ways(
            test,
            runs,
            demand,
            rest,
            next.as_slice(),
            onlooker,
            findings,
            alloc,
        )?;
    }
    Ok(())
}

fn with_way(chosen: &[usize], index: usize, alloc: Global) -> Result<Vec<usize>, AllocError>
    ensures { IfOk result (λ next. next.items ≡ chosen.now ++ index ∷ []) }
{
    let mut next = chosen.to_vec(alloc)?;
    next.push(index)?;
    Ok(next)
}

/// Whether the registers rule the condition out, whichever ways the harts choose that are left.
fn is_ruled_out(test: &LitmusTest, runs: &AllRuns, demand: Demand, chosen: &[usize]) -> bool
    ensures { result ≡ is_ruled_out test.now runs.now chosen.now }
{
    let asked = Asked {
        test,
        runs,
        chosen,
        demand,
    };
    asked.is_ruled_out()
}

/// Goes through all candidates of the ways that are chosen.
fn relate(
    test: &LitmusTest,
    runs: &AllRuns,
    demand: Demand,
    chosen: &[usize],
    findings: &mut Findings,
    alloc: Global,
) -> Result<(), AllocError>
    requires { IsFound test.now findings.old }
    ensures found { IsFound test.now findings.new }
    ensures all { OnOk result (Searches demand (wanted_of test.now runs.now demand chosen.now)
        findings.old findings.new) }
    ensures counts { OnOk result (HasCounted (count_of test.now runs.now chosen.now) findings.old findings.new) }
{
    let mut events = Vec::new(alloc);
    if !add_events(runs, 0, chosen, &mut events)? {
        findings.leave_out(test);
        return Ok(());
    }
    let asked = Asked {
        test,
        runs,
        chosen,
        demand,
    };
    relate_events(&asked, events.as_slice(), findings, alloc)
}

fn relate_events(
    asked: &Asked<'_, '_, '_>,
    events: &[MemoryEvent],
    findings: &mut Findings,
    alloc: Global,
) -> Result<(), AllocError>
    requires found { IsFound asked.now.test.now findings.old }
    requires unsourced { AreAllUnsourced events.now }
    ensures found { IsFound asked.now.test.now findings.new }
    ensures all { OnOk result (Searches asked.now.demand
        (filter (is_wanted asked.now.test.now asked.now.runs.now asked.now.chosen.now asked.now.demand)
        (come asked.now.test.now (all_open events.now 0 (length asked.now.test.now.words.items)) events.now))
        findings.old findings.new) }
    ensures counts { OnOk result (HasCounted
        (if is_ruled_out asked.now.test.now asked.now.runs.now asked.now.chosen.now then 0
        else combinations events.now (length asked.now.test.now.words.items)) findings.old findings.new) }
{
    let locations = asked.test.words.len();
    if !are_at_locations(events, locations) {
        findings.leave_out(asked.test);
        return Ok(());
    }
    findings.count(asked.test, count_asked(asked, events, locations));
    if !asked.may_begin(events) {
        return Ok(());
    }
    let left = open_choices(events, locations, alloc)?;
    decide(asked, left.as_slice(), events, findings, alloc)
}

/// How many candidates these ways have, if the registers don't rule the condition out.
fn count_asked(asked: &Asked<'_, '_, '_>, events: &[MemoryEvent], locations: usize) -> u64
    ensures { result ≡ min (if is_ruled_out asked.now.test.now asked.now.runs.now asked.now.chosen.now then 0
        else combinations events.now locations) (2 ^ 64 - 1) }
{
    if asked.is_ruled_out() {
        return 0;
    }
    count_candidates(events, locations)
}

/// Adds the events of the chosen runs, from this hart on. Answers false where there are too many.
fn add_events(
    runs: &AllRuns,
    hart: usize,
    chosen: &[usize],
    events: &mut Vec<MemoryEvent>,
) -> Result<bool, AllocError>
    ensures { IfOk result (λ fit. fit ≡ true → events.new.items
        ≡ events.old.items ++ events_of runs.now.harts.items hart (length events.old.items) chosen.now) }
{
    let [index, rest @ ..] = chosen else {
        return Ok(true);
    };
    let Some(accesses) = accesses_of(runs, hart, *index) else {
        return Ok(false);
    };
    if events.len().saturating_add(accesses.len()) > MOST_ACCESSES {
        return Ok(false);
    }
    let first = events.len();
    add_accesses(hart, first, 0, accesses, events)?;
    add_events(runs, hart.saturating_add(1), rest, events)
}

/// What a way of a hart does with memory.
fn accesses_of(runs: &AllRuns, hart: usize, index: usize) -> Option<&[Access]>
    ensures { IfSome result (λ accesses. accesses_of runs.now.harts.items hart index ≡ accesses.now) }
{
    let ways = runs.harts.get(hart)?;
    let run = ways.runs.get(index)?;
    Some(run.accesses.as_slice())
}

/// Adds the accesses of a hart, from this place on; the first of all has this index.
fn add_accesses(
    hart: usize,
    first: usize,
    place: usize,
    accesses: &[Access],
    events: &mut Vec<MemoryEvent>,
) -> Result<(), AllocError>
    ensures { OnOk result (events.new.items ≡ events.old.items ++ undecided_all hart first place accesses.now) }
{
    let [access, rest @ ..] = accesses else {
        return Ok(());
    };
    events.push(undecided(hart, first, place, access))?;
    add_accesses(hart, first, place.saturating_add(1), rest, events)
}

/// An access of a hart as an event of which nothing is decided.
fn undecided(hart: usize, first: usize, place: usize, access: &Access) -> MemoryEvent
    ensures { result ≡ undecided hart first place access.now }
{
    let reserved_by = match access.reserved_by {
        Some(index) => Some(first.saturating_add(index)),
        None => None,
    };
    MemoryEvent {
        hart: hart.min(255) as u8,
        place,
        step: access.step,
        location: access.location,
        reads: access.reads,
        writes: access.writes,
        source: None,
        rank: 0,
        reserved_by,
    }
}

/// Whether all events are of locations that the test has.
fn are_at_locations(events: &[MemoryEvent], locations: usize) -> bool {
    events.iter().all(|event| event.location < locations)
}

/// Decides what is open in each way, the last event first, and takes what comes of it.
fn decide(
    asked: &Asked<'_, '_, '_>,
    left: &[Open],
    events: &[MemoryEvent],
    findings: &mut Findings,
    alloc: Global,
) -> Result<(), AllocError>
    requires found { IsFound asked.now.test.now findings.old }
    requires ready { IsReady left.now events.now }
    ensures found { IsFound asked.now.test.now findings.new }
    ensures all { OnOk result (Searches asked.now.demand
        (filter (is_wanted asked.now.test.now asked.now.runs.now asked.now.chosen.now asked.now.demand)
        (come asked.now.test.now left.now events.now)) findings.old findings.new) }
    ensures counts { OnOk result (findings.new.candidates ≡ findings.old.candidates) }
{
    let [first, rest @ ..] = left else {
        return take(asked, events, findings, alloc);
    };
    let last = events.len();
    for turn in 0..=last {
        if findings.is_over {
            return Ok(());
        }
        let next = choose(
            asked,
            *first,
            last.saturating_sub(turn),
            events,
            findings,
            alloc,
        )?;
        if let Some(next) = next {
            decide(asked, rest, next.as_slice(), findings, alloc)?;
        }
    }
    Ok(())
}

/// The events where this choice is made, which is counted; none where it can't be, or is given up.
pub(crate) fn choose(
    asked: &Asked<'_, '_, '_>,
    what: Open,
    choice: usize,
    events: &[MemoryEvent],
    findings: &mut Findings,
    alloc: Global,
) -> Result<Option<Vec<MemoryEvent>>, AllocError>
    requires { IsFound asked.now.test.now findings.old }
    ensures found { IsFound asked.now.test.now findings.new }
    ensures stays { Stays findings.old findings.new }
    ensures counts { findings.new.candidates ≡ findings.old.candidates }
    ensures some { IfOk result (λ made. IfSome made (λ next. next.items ≡ with_choice what choice events.now)) }
    ensures chosen { IfOk result (λ made. IfSome made (λ next. may_choose asked.now.test.now what choice events.now ≡ true)) }
    ensures none { IfOk result (λ made. made ≡ None → (rest : List Open) → IsReady (what ∷ rest) events.now
        → filter (is_wanted asked.now.test.now asked.now.runs.now asked.now.chosen.now asked.now.demand)
        (come_of asked.now.test.now (come asked.now.test.now rest) what events.now choice) ≡ []) }
{
    if !may_choose(asked.test, what, choice, events) {
        return Ok(None);
    }
    let next = with_choice(what, choice, events, alloc)?;
    if !asked.may_come(what, choice, next.as_slice()) {
        return Ok(None);
    }
    findings.try_one(asked.test);
    Ok(Some(next))
}

/// Takes a candidate of which all is decided, where the condition holds at its end.
fn take(
    asked: &Asked<'_, '_, '_>,
    events: &[MemoryEvent],
    findings: &mut Findings,
    alloc: Global,
) -> Result<(), AllocError>
    requires { IsFound asked.now.test.now findings.old }
    ensures found { IsFound asked.now.test.now findings.new }
    ensures all { OnOk result (Searches asked.now.demand
        (filter (is_wanted asked.now.test.now asked.now.runs.now asked.now.chosen.now asked.now.demand)
        (events.now ∷ [])) findings.old findings.new) }
    ensures counts { OnOk result (findings.new.candidates ≡ findings.old.candidates) }
{
    if asked.may_end(events) {
        return findings.take(asked.test, asked.demand, events, alloc);
    }
    Ok(())
}
