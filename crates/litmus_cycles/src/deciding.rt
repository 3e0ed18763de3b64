//! Whether something may come of what is decided of a candidate: nothing that is refused here fits, whatever else is
//! decided.

ghost use Rattle.std.specs.Prelude.{◌≡◌, ◌&&◌, ◌||◌, not, nat_lt, false, List};
ghost use Rattle.std.specs.List.{list_all, list_any};
ghost use Rattle.litmus_cycles.specs.declared.open.Open.{Open};
ghost use Rattle.litmus_cycles.specs.{Endings.may_end, Counts.is_ruled_out};
ghost use Rattle.litmus_cycles.specs.Executions.{has_number, written_at};
ghost use Rattle.litmus_cycles.specs.Refusals.{has_write, stands_before, goes_before, may_read_that, may_follow};
ghost use Rattle.litmus_cycles.specs.Refusals.{is_next, is_own_behind, is_handed_to, is_ahead, is_behind, is_whole_with};
ghost use Rattle.litmus_cycles.specs.Refusals.{orders_writes, orders_all, asks_whole, may_be_first, is_handed_on, is_in_order};
ghost use Rattle.litmus_cycles.specs.Refusals.{is_whole_at, may_have_place, may_have_source};
ghost use Rattle.litmus_cycles.specs.Choices.{writes_at};
ghost use Rattle.litmus_cycles.specs.Kept.{IsDecided, StandsLast, IsGiven, AreUnsourced, NoneComes};

use crate::checking::{has_number, is_failing, written_at};
use crate::coherence::{are_own_in_order, is_whole_access, keeps_order, load_of, writes_behind};
use crate::demand::Demand;
use crate::ending::Ending;
use crate::event::MemoryEvent;
use crate::open::{Open, count_writes};
use litmus_runs::{AllRuns, initial_number};
use litmus_tests::LitmusTest;

/// Candidates of a test whose harts have chosen their ways.
#[derive(Clone, Copy, Drop)]
pub(crate) struct Asked<'test, 'runs, 'chosen> {
    pub test: &'test LitmusTest,
    pub runs: &'runs AllRuns,
    pub chosen: &'chosen [usize],
    pub demand: Demand,
}

impl Asked<'_, '_, '_> {
    /// Whether something may come of a choice that was made of what was open.
    pub fn may_come(&self, what: Open, choice: usize, events: &[MemoryEvent]) -> bool
        ensures none { result ≡ false → (rest : List Open) → IsDecided rest what choice events.now
            → AreUnsourced rest events.now
            → NoneComes self.now.test.now self.now.runs.now self.now.chosen.now self.now.demand rest events.now }
    {
        match what {
            Open::Place { .. } => self.may_stand(events, choice),
            Open::Source(index) => self.may_read(events, index),
        }
    }

    /// Whether something may come of events of which nothing is decided.
    pub fn may_begin(&self, events: &[MemoryEvent]) -> bool
        ensures none { result ≡ false → (rest : List Open)
            → NoneComes self.now.test.now self.now.runs.now self.now.chosen.now self.now.demand rest events.now }
    {
        self.may_be_written(events)
    }

    fn may_be_written(&self, events: &[MemoryEvent]) -> bool
        ensures { result ≡ (may_end self.now.test.now self.now.runs.now self.now.chosen.now events.now
            && list_all (has_write self.now.test.now events.now) events.now) }
    {
        self.may_end(events) && self.have_writes(events)
    }

    /// Whether the condition may hold of a state in which it ends, as far as the events are decided.
    pub fn may_end(&self, events: &[MemoryEvent]) -> bool
        ensures { result ≡ may_end self.now.test.now self.now.runs.now self.now.chosen.now events.now }
    {
        let ending = Ending {
            test: self.test,
            runs: self.runs,
            chosen: self.chosen,
            has_events: true,
            events,
        };
        match ending.is_asked_for() {
            Some(holds) => holds,
            None => true,
        }
    }

    /// Whether the registers rule the condition out, whatever else is chosen.
    pub fn is_ruled_out(&self) -> bool
        ensures { result ≡ is_ruled_out self.now.test.now self.now.runs.now self.now.chosen.now }
    {
        let ending = Ending {
            test: self.test,
            runs: self.runs,
            chosen: self.chosen,
            has_events: false,
            events: &[],
        };
        match ending.is_asked_for() {
            Some(holds) => !holds,
            None => false,
        }
    }

    /// Whether each read's number is written by some event, or there at the start.
    fn have_writes(&self, events: &[MemoryEvent]) -> bool
        ensures { result ≡ list_all (has_write self.now.test.now events.now) events.now }
    {
        events
            .iter()
            .all(|event| has_write(self.test, events, event))
    }

    /// Whether a write that has its place may stand there: those behind it have theirs, and no others.
    fn may_stand(&self, events: &[MemoryEvent], index: usize) -> bool
        ensures none { result ≡ false → (rest : List Open) → StandsLast rest index events.now
            → AreUnsourced rest events.now
            → NoneComes self.now.test.now self.now.runs.now self.now.chosen.now self.now.demand rest events.now }
    {
        match events.get(index) {
            Some(write) => self.may_have_place(events, write),
            None => true,
        }
    }

    fn may_have_place(&self, events: &[MemoryEvent], write: &MemoryEvent) -> bool
        ensures { result ≡ may_have_place self.now.test.now self.now.runs.now self.now.chosen.now self.now.demand
            events.now write.now }
    {
        self.is_before_own(events, write)
            && self.is_handed_on(events, write)
            && self.may_be_last(events, write)
    }

    fn is_before_own(&self, events: &[MemoryEvent], write: &MemoryEvent) -> bool
        ensures { result ≡ (not (orders_writes self.now.demand) || list_all (stands_before write.now) events.now) }
    {
        !self.demand.orders_writes() || are_own_behind(events, write)
    }

    fn is_handed_on(&self, events: &[MemoryEvent], write: &MemoryEvent) -> bool
        ensures { result ≡ (not (asks_whole self.now.demand) || is_handed_on self.now.test.now events.now write.now) }
    {
        !self.demand.is_whole() || is_handed_on(self.test, events, write)
    }

    fn may_be_last(&self, events: &[MemoryEvent], write: &MemoryEvent) -> bool
        ensures { result ≡ (nat_lt write.now.rank (writes_at write.now.location events.now)
            || may_end self.now.test.now self.now.runs.now self.now.chosen.now events.now) }
    {
        write.rank < count_writes(events, write.location) || self.may_end(events)
    }

    /// Whether an event that has its source may read it: all writes of its location have their places.
    fn may_read(&self, events: &[MemoryEvent], index: usize) -> bool
        ensures none { result ≡ false → (rest : List Open) → IsGiven rest index events.now → AreUnsourced rest events.now
            → NoneComes self.now.test.now self.now.runs.now self.now.chosen.now self.now.demand rest events.now }
    {
        match events.get(index) {
            Some(event) => self.may_have_source(events, event, index),
            None => true,
        }
    }

    fn may_have_source(&self, events: &[MemoryEvent], event: &MemoryEvent, index: usize) -> bool
        ensures { result ≡ may_have_source self.now.demand events.now index event.now }
    {
        if event.reads.is_none() {
            return is_failing(events, event);
        }
        self.is_in_order(events, event) && self.is_whole_at(events, event, index)
    }

    fn is_in_order(&self, events: &[MemoryEvent], event: &MemoryEvent) -> bool
        ensures { result ≡ (not (orders_all self.now.demand) || is_in_order events.now event.now) }
    {
        !self.demand.orders_all() || is_in_order(events, event)
    }

    fn is_whole_at(&self, events: &[MemoryEvent], event: &MemoryEvent, index: usize) -> bool
        ensures { result ≡ (not (asks_whole self.now.demand) || is_whole_at events.now index event.now) }
    {
        !self.demand.is_whole() || is_whole_at(events, event, index)
    }
}

/// Whether a read's number is written by some event, or there at the start.
fn has_write(test: &LitmusTest, events: &[MemoryEvent], event: &MemoryEvent) -> bool
    ensures { result ≡ has_write test.now events.now event.now }
{
    let Some(number) = event.reads else {
        return true;
    };
    has_number(number, initial_number(test, event.location)) || is_written(events, event, number)
}

/// Whether some event writes a number to the location of another.
fn is_written(events: &[MemoryEvent], event: &MemoryEvent, number: u32) -> bool
    ensures { result ≡ list_any (λ write. has_number number (written_at write event.now.location)) events.now }
{
    events.iter().any(|write| has_number(number, written_at(write, event.location)))
}

/// Whether a write stands before another one, where that is its hart's, to its location and behind it in program order.
fn stands_before(write: &MemoryEvent, other: &MemoryEvent) -> bool
    ensures { result ≡ stands_before write.now other.now }
{
    !(write.place < other.place) || are_own_in_order(write, other)
}

/// Whether the writes of its hart to its location that are behind a write in program order have their places behind it.
fn are_own_behind(events: &[MemoryEvent], write: &MemoryEvent) -> bool
    ensures { result ≡ list_all (stands_before write.now) events.now }
{
    events.iter().all(|other| stands_before(write, other))
}

/// Whether a load is that of an AMO, or goes before its store-conditional at its location.
fn goes_before(load: &MemoryEvent, store: &MemoryEvent) -> bool
    ensures { result ≡ goes_before load.now store.now }
{
    store.reads.is_some()
        || (load.hart == store.hart
            && load.location == store.location
            && load.place < store.place
            && load.writes.is_none())
}

/// Whether an event reads this number, if it reads one.
fn may_read_that(load: &MemoryEvent, given: Option<u32>) -> bool
    ensures { result ≡ may_read_that load.now given }
{
    match load.reads {
        Some(number) => has_number(number, given),
        None => true,
    }
}

/// Whether what goes with a write, where something does, may read a number that stands right before it.
fn may_follow(events: &[MemoryEvent], store: &MemoryEvent, given: Option<u32>) -> bool
    ensures { result ≡ may_follow events.now store.now given }
{
    match load_of(events, store) {
        Some(load) => !goes_before(&load, store) || may_read_that(&load, given),
        None => true,
    }
}

/// Whether a write stands right before a store of its location.
fn is_next(write: &MemoryEvent, store: &MemoryEvent) -> bool
    ensures { result ≡ is_next write.now store.now }
{
    store.location == write.location
        && write.writes.is_some()
        && store.writes.is_some()
        && 0 < write.rank
        && store.rank.saturating_sub(1) == write.rank
}

/// Whether a write is the own one of a store's hart, and not before the load that goes with it.
fn is_own_behind(events: &[MemoryEvent], write: &MemoryEvent, store: &MemoryEvent) -> bool
    ensures { result ≡ is_own_behind events.now write.now store.now }
{
    match load_of(events, store) {
        Some(load) => write.hart == store.hart && !(write.place < load.place),
        None => true,
    }
}

/// Whether what goes with a store, where the write stands right before it, may read its number. Between a load-reserved
/// and its store-conditional their hart may write too.
fn is_handed_to(events: &[MemoryEvent], write: &MemoryEvent, store: &MemoryEvent) -> bool
    ensures { result ≡ is_handed_to events.now write.now store.now }
{
    let may_follow = may_follow(events, store, write.writes);
    let is_own = is_own_behind(events, write, store);
    !is_next(write, store) || is_own || may_follow
}

/// Whether what goes with the write behind this one, an AMO or a store-conditional, may read its number, and where this
/// is the first one, what goes with it the number that is there at the start.
fn is_handed_on(test: &LitmusTest, events: &[MemoryEvent], write: &MemoryEvent) -> bool
    ensures { result ≡ is_handed_on test.now events.now write.now }
{
    may_be_first(test, events, write) && is_handed_to_all(events, write)
}

fn may_be_first(test: &LitmusTest, events: &[MemoryEvent], write: &MemoryEvent) -> bool
    ensures { result ≡ may_be_first test.now events.now write.now }
{
    let start = initial_number(test, write.location);
    let may_follow = may_follow(events, write, start);
    write.rank != 1 || write.writes.is_none() || may_follow
}

fn is_handed_to_all(events: &[MemoryEvent], write: &MemoryEvent) -> bool
    ensures { result ≡ list_all (is_handed_to events.now write.now) events.now }
{
    events
        .iter()
        .all(|store| is_handed_to(events, write, store))
}

/// Whether an event goes on from another one, where that is before it on its hart.
fn is_ahead(events: &[MemoryEvent], event: &MemoryEvent, other: &MemoryEvent) -> bool
    ensures { result ≡ is_ahead events.now event.now other.now }
{
    let keeps_order = keeps_order(events, other, event);
    !(other.place < event.place) || keeps_order
}

/// Whether a write goes on from an event, where it is behind that on its hart.
fn is_behind(events: &[MemoryEvent], event: &MemoryEvent, other: &MemoryEvent) -> bool
    ensures { result ≡ is_behind events.now event.now other.now }
{
    let keeps_order = keeps_order(events, event, other);
    !(event.place < other.place) || other.reads.is_some() || keeps_order
}

fn are_ahead(events: &[MemoryEvent], event: &MemoryEvent) -> bool
    ensures { result ≡ list_all (is_ahead events.now event.now) events.now }
{
    events.iter().all(|other| is_ahead(events, event, other))
}

fn are_behind(events: &[MemoryEvent], event: &MemoryEvent) -> bool
    ensures { result ≡ list_all (is_behind events.now event.now) events.now }
{
    events.iter().all(|other| is_behind(events, event, other))
}

/// Whether an event's hart sees its location in one order, as far as that is decided.
fn is_in_order(events: &[MemoryEvent], event: &MemoryEvent) -> bool
    ensures { result ≡ is_in_order events.now event.now }
{
    writes_behind(events, event) && are_ahead(events, event) && are_behind(events, event)
}

/// Whether a load is the load-reserved of a store-conditional.
fn goes_with(store: &MemoryEvent, index: usize) -> bool
    ensures { result ≡ has_number index store.now.reserved_by }
{
    match store.reserved_by {
        Some(load) => load == index,
        None => false,
    }
}

/// Whether no other hart's write stands before a store-conditional, where the event is its load-reserved and has read
/// something older.
fn is_whole_with(events: &[MemoryEvent], index: usize, store: &MemoryEvent) -> bool
    ensures { result ≡ is_whole_with events.now index store.now }
{
    let is_whole = is_whole_access(events, store);
    store.reads.is_some() || !goes_with(store, index) || is_whole
}

fn is_whole_with_all(events: &[MemoryEvent], index: usize) -> bool
    ensures { result ≡ list_all (is_whole_with events.now index) events.now }
{
    events
        .iter()
        .all(|store| is_whole_with(events, index, store))
}

/// Whether no other hart's write stands between what an event has read and what it, or its store-conditional, writes.
fn is_whole_at(events: &[MemoryEvent], event: &MemoryEvent, index: usize) -> bool
    ensures { result ≡ is_whole_at events.now index event.now }
{
    is_whole_access(events, event) && is_whole_with_all(events, index)
}
