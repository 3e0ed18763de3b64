//! What is shown of a candidate of which all is decided.

ghost use Rattle.std.specs.Prelude.{◌≡◌, IsTrue, IfOk, IfSome, None, true, false, ◌&&◌};
ghost use Rattle.litmus_cycles.specs.Explained.{fits, IsJudged};
ghost use Rattle.litmus_cycles.specs.Executions.{is_candidate, all_pairs};
ghost use Rattle.litmus_cycles.specs.OneOrder.{is_coherent_execution, are_own_in_order};
ghost use Rattle.litmus_cycles.specs.Searched.{meets_demand};
ghost use Rattle.litmus_cycles.specs.declared.demand.Demand.TheVariants.{Numbers, Writes, Coherent, Whole};

use crate::checking::{is_broken, is_candidate, is_cycle, is_order, stays_at_one_location};
use crate::coherence::{are_writes_in_order, is_coherent, is_whole};
use crate::cycles::{broken, least_cycle, order_of};
use crate::demand::Demand;
use crate::event::MemoryEvent;
use crate::explanation::Shown;
use crate::related::{Cost, Ways};
use litmus_tests::LitmusTest;
use std::alloc::{AllocError, Global};

/// A candidate that meets its demand.
#[derive(Drop)]
pub(crate) enum Judged {
    /// It costs less than what is shown so far: it is shown.
    Less(Shown, Cost),
    /// It has a cycle too, and costs as much or more.
    More,
    /// It has no cycle, so it can come: it is shown, and no cycle of another one from here on.
    Allowed(Shown),
    /// It is shown, and no other one is looked at.
    Last(Shown),
    /// Neither a cycle of it was found, nor an order without one.
    Untold,
}

/// What is to be made of a candidate, where what is shown so far costs this; none where it doesn't meet the demand.
pub(crate) fn judge(
    test: &LitmusTest,
    demand: Demand,
    events: &[MemoryEvent],
    least: Option<Cost>,
    alloc: Global,
) -> Result<Option<Judged>, AllocError>
    ensures judged { IfOk result (λ judged. IfSome judged (IsJudged demand test.now events.now)) }
    ensures some { IfOk result (λ judged. IfSome judged (λ it. meets_demand demand test.now events.now ≡ true)) }
    ensures none { IfOk result (λ judged. judged ≡ None → meets_demand demand test.now events.now ≡ false) }
{
    match demand {
        Demand::Numbers => incoherent(test, events, alloc),
        Demand::Writes => ordered(test, events, alloc),
        Demand::Coherent => atomicity(test, events, alloc),
        Demand::Whole => fitting(test, events, least, alloc),
    }
}

/// Whether these events are a candidate that is coherent and whole.
fn fits(test: &LitmusTest, events: &[MemoryEvent]) -> bool
    ensures { result ≡ fits test.now events.now }
{
    is_candidate(test, events) && is_coherent(events) && is_whole(events)
}

fn is_less(cost: Cost, least: Option<Cost>) -> bool {
    match least {
        Some(other) => cost.is_less(other),
        None => true,
    }
}

/// Of a candidate that fits its least cycle, or an order where it has none.
fn fitting(
    test: &LitmusTest,
    events: &[MemoryEvent],
    least: Option<Cost>,
    alloc: Global,
) -> Result<Option<Judged>, AllocError>
    ensures judged { IfOk result (λ judged. IfSome judged (IsJudged Whole test.now events.now)) }
    ensures some { IfOk result (λ judged. IfSome judged (λ it. fits test.now events.now ≡ true)) }
    ensures none { IfOk result (λ judged. judged ≡ None → fits test.now events.now ≡ false) }
{
    if !fits(test, events) {
        return Ok(None);
    }
    let ways = Ways::of(events, alloc)?;
    let edges = least_cycle(events, &ways, alloc)?;
    if is_cycle(events, edges.as_slice()) {
        let cost = Cost::of(edges.as_slice());
        if !is_less(cost, least) {
            return Ok(Some(Judged::More));
        }
        let events = events.to_vec(alloc)?;
        return Ok(Some(Judged::Less(Shown::Cycle { events, edges }, cost)));
    }
    Ok(Some(execution(test, events, &ways, alloc)?))
}

/// Of a candidate that fits and has no cycle the order of its events.
fn execution(
    test: &LitmusTest,
    events: &[MemoryEvent],
    ways: &Ways,
    alloc: Global,
) -> Result<Judged, AllocError>
    requires { IsTrue (fits test.now events.now) }
    ensures { IfOk result (IsJudged Whole test.now events.now) }
{
    let order = order_of(ways, alloc)?;
    if !is_order(events, order.as_slice()) {
        return Ok(Judged::Untold);
    }
    let events = events.to_vec(alloc)?;
    Ok(Judged::Allowed(Shown::Execution { events, order }))
}

/// Of a candidate that isn't coherent a cycle at one location.
fn incoherent(
    test: &LitmusTest,
    events: &[MemoryEvent],
    alloc: Global,
) -> Result<Option<Judged>, AllocError>
    ensures judged { IfOk result (λ judged. IfSome judged (IsJudged Numbers test.now events.now)) }
    ensures some { IfOk result (λ judged. IfSome judged (λ it. is_candidate test.now events.now ≡ true)) }
    ensures none { IfOk result (λ judged. judged ≡ None → is_candidate test.now events.now ≡ false) }
{
    if !is_candidate(test, events) {
        return Ok(None);
    }
    let ways = Ways::at_one_location(events, alloc)?;
    let edges = least_cycle(events, &ways, alloc)?;
    if is_cycle(events, edges.as_slice()) && stays_at_one_location(events, edges.as_slice()) {
        let events = events.to_vec(alloc)?;
        return Ok(Some(Judged::Last(Shown::Incoherent { events, edges })));
    }
    Ok(Some(Judged::Untold))
}

/// So it is of a candidate whose harts' writes are in program order.
fn ordered(
    test: &LitmusTest,
    events: &[MemoryEvent],
    alloc: Global,
) -> Result<Option<Judged>, AllocError>
    ensures judged { IfOk result (λ judged. IfSome judged (IsJudged Writes test.now events.now)) }
    ensures some { IfOk result (λ judged. IfSome judged (λ it.
        (is_candidate test.now events.now && all_pairs are_own_in_order events.now) ≡ true)) }
    ensures none { IfOk result (λ judged. judged ≡ None
        → (is_candidate test.now events.now && all_pairs are_own_in_order events.now) ≡ false) }
{
    if !are_writes_in_order(events) {
        return Ok(None);
    }
    incoherent(test, events, alloc)
}

/// Of a coherent candidate what breaks an AMO or a store-conditional.
fn atomicity(
    test: &LitmusTest,
    events: &[MemoryEvent],
    alloc: Global,
) -> Result<Option<Judged>, AllocError>
    ensures judged { IfOk result (λ judged. IfSome judged (IsJudged Coherent test.now events.now)) }
    ensures some { IfOk result (λ judged. IfSome judged (λ it.
        (is_candidate test.now events.now && is_coherent_execution events.now) ≡ true)) }
    ensures none { IfOk result (λ judged. judged ≡ None
        → (is_candidate test.now events.now && is_coherent_execution events.now) ≡ false) }
{
    if !is_candidate(test, events) || !is_coherent(events) {
        return Ok(None);
    }
    if let Some(broken) = broken(events) {
        if is_broken(events, broken) {
            let events = events.to_vec(alloc)?;
            return Ok(Some(Judged::Last(Shown::Atomicity { events, broken })));
        }
    }
    Ok(Some(Judged::Untold))
}
