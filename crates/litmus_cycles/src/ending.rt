//! Whether a condition holds where harts have chosen their runs, as far as that can be said.

ghost use Rattle.std.specs.Prelude.{◌≡◌, Option, Some, None, option_map, if◌then◌else◌, slice_get};
ghost use Rattle.litmus_cycles.specs.Endings.{both, either, negated, alike, meets, meets_term, register_of, part_of};
ghost use Rattle.litmus_cycles.specs.Endings.{written_last, last_word, located, found_at, asked_for};

use crate::event::MemoryEvent;
use crate::open::count_writes;
use litmus_runs::{AllRuns, initial_number, word_of};
use litmus_tests::{Condition, LitmusTest, Location, Observed, Term, narrowed};
use numbers::Reg;

/// The runs that the first harts have chosen, and their events, once all have: the order of their writes as far as it is
/// decided.
#[derive(Clone, Copy, Drop)]
pub(crate) struct Ending<'test, 'runs, 'chosen, 'events> {
    pub test: &'test LitmusTest,
    pub runs: &'runs AllRuns,
    /// Of each hart that has chosen, the index of its run.
    pub chosen: &'chosen [usize],
    /// Whether all have, and the events are theirs.
    pub has_events: bool,
    pub events: &'events [MemoryEvent],
}

impl Ending<'_, '_, '_, '_> {
    /// Whether it is a final state of the test, and its condition holds; none where what isn't chosen yet decides.
    pub fn is_asked_for(&self) -> Option<bool>
        ensures { result ≡ asked_for self.now.test.now self.now.runs.now self.now.chosen.now self.now.has_events
            self.now.events.now }
    {
        both(
            self.meets(&self.test.filter),
            self.meets(&self.test.condition),
        )
    }

    /// Whether a condition holds; none where what isn't chosen yet decides.
    fn meets(&self, condition: &Condition) -> Option<bool>
        ensures { result ≡ meets (found_at self.now.test.now self.now.runs.now self.now.chosen.now self.now.has_events
            self.now.events.now) condition.now }
    {
        match condition {
            Condition::Always => Some(true),
            Condition::Holds(term) => self.meets_term(term),
            Condition::Not(inner) => negated(self.meets(inner)),
            Condition::Both(first, second) => both(self.meets(first), self.meets(second)),
            Condition::Either(first, second) => either(self.meets(first), self.meets(second)),
            Condition::Implies(first, second) => {
                either(negated(self.meets(first)), self.meets(second))
            }
            Condition::Equivalent(first, second) => alike(self.meets(first), self.meets(second)),
        }
    }

    fn meets_term(&self, term: &Term) -> Option<bool>
        ensures { result ≡ meets_term (found_at self.now.test.now self.now.runs.now self.now.chosen.now
            self.now.has_events self.now.events.now) term.now }
    {
        let found = self.found_at(term.observed)?;
        Some(found == narrowed(term.width, word_of(term.value)))
    }

    /// The number of what is looked at, as far as it is known.
    fn found_at(&self, observed: Observed) -> Option<u32>
        ensures { result ≡ found_at self.now.test.now self.now.runs.now self.now.chosen.now self.now.has_events
            self.now.events.now observed }
    {
        match observed {
            Observed::Register { hart, register } => self.register(hart, register),
            Observed::Location(location) => self.located(location),
        }
    }

    fn register(&self, hart: u8, register: Reg) -> Option<u32>
        ensures { result ≡ register_of self.now.runs.now self.now.chosen.now hart register }
    {
        let index = *self.chosen.get(usize::from(hart))?;
        let ways = self.runs.harts.get(usize::from(hart))?;
        let run = ways.runs.get(index)?;
        run.registers.get(usize::from(register)).copied()
    }

    /// The number that a location has at the end, or an element.
    fn located(&self, index: usize) -> Option<u32>
        ensures { result ≡ located self.now.test.now self.now.has_events self.now.events.now index }
    {
        let location = self.test.locations.get(index)?;
        let word = self.last_word(location.byte / 4)?;
        Some(part_of(word, location))
    }

    /// What the write of a word of the locations writes that is last in coherence order, or what is there at the start.
    fn last_word(&self, word: usize) -> Option<u32>
        ensures { result ≡ last_word self.now.test.now self.now.has_events self.now.events.now word }
    {
        if !self.has_events {
            return None;
        }
        let count = count_writes(self.events, word);
        if count == 0 {
            return initial_number(self.test, word);
        }
        written_last(self.events, word, count)
    }
}

/// The number that a location has in its word: the lowest byte stands first.
fn part_of(word: u32, location: &Location) -> u32
    ensures { result ≡ part_of word location.now }
{
    let bytes = match location.byte % 4 {
        0 => word,
        1 => word / 0x100,
        2 => word / 0x1_0000,
        _ => word / 0x100_0000,
    };
    narrowed(location.number_type.width, bytes)
}

/// What the write of a location with this place in coherence order writes, if it has its place.
fn written_last(events: &[MemoryEvent], location: usize, rank: usize) -> Option<u32>
    ensures { result ≡ written_last events.now location rank }
{
    let [event, rest @ ..] = events else {
        return None;
    };
    if event.location == location && event.writes.is_some() && event.rank == rank {
        return event.writes;
    }
    written_last(rest, location, rank)
}

fn negated(one: Option<bool>) -> Option<bool>
    ensures { result ≡ negated one }
{
    match one {
        Some(holds) => Some(!holds),
        None => None,
    }
}

fn both(first: Option<bool>, second: Option<bool>) -> Option<bool>
    ensures { result ≡ both first second }
{
    match first {
        Some(false) => Some(false),
        Some(true) => second,
        None => match second {
            Some(false) => Some(false),
            Some(true) | None => None,
        },
    }
}

fn either(first: Option<bool>, second: Option<bool>) -> Option<bool>
    ensures { result ≡ either first second }
{
    match first {
        Some(true) => Some(true),
        Some(false) => second,
        None => match second {
            Some(true) => Some(true),
            Some(false) | None => None,
        },
    }
}

fn alike(first: Option<bool>, second: Option<bool>) -> Option<bool>
    ensures { result ≡ alike first second }
{
    match first {
        Some(true) => second,
        Some(false) => negated(second),
        None => None,
    }
}
