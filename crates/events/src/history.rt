//! The history: every event so far, up to a limit that is set when it is made. It keeps them packed,
//! and gives each back as it was.

mod packed;

ghost use Rattle.std.specs.Prelude.{◌≡◌, ◌∷◌, ◌++◌, [], ◌<◌, ◌≤◌, ◌↔◌, length, IsTrue, IfOk, OnOk};
ghost use Rattle.std.specs.Prelude.{slice_get};
ghost use Rattle.std.specs.Option.{option_map};
ghost use Rattle.events.specs.Event.{actor_of};
ghost use Rattle.std.specs.Prelude.{OnErr, IsOk};
ghost use Rattle.std.specs.Bool.{OnFalse};

use crate::event::Event;
use numbers::sizes::MOST_EVENTS;
use packed::{Packed, pack};
use std::alloc::{AllocError, Global};
use std::marker::Model;

/// The events so far, the oldest first. All its room is made at once, so that `push` takes no
/// memory.
#[derive(Drop)]
pub struct History {
    limit: u32,
    events: Vec<Packed>,
}

impl Model for History {
    ghost use Rattle.std.specs.Prelude.{◌≤◌, length};
    ghost use Rattle.events.specs.History.{EventList};

    ghost Value = { EventList };

    ghost use Rattle.events.specs.HistoryInside.{event_list, IsRoomy};

    ghost view = { event_list };

    ghost invariant = { IsRoomy };
}

/// The events of a history, one after another. A clause sees the list of those to come.
#[derive(Drop)]
pub struct Events<'a> {
    rest: &'a [Packed],
}

impl<'a> Model for Events<'a> {
    ghost use Rattle.std.specs.Prelude.{List};
    ghost use Rattle.events.specs.declared.event.Event.{Event as AnyEvent};

    ghost Value = { List AnyEvent };

    ghost use Rattle.events.specs.HistoryInside.{events_left};

    ghost view = { events_left };
}

impl<'a> Iterator for Events<'a> {
    ghost use Rattle.std.specs.Iterator.{YieldsFirst, item_count};

    type Item = Event;

    ghost next_gives = { YieldsFirst (λ left. left) };

    ghost remaining = { item_count (λ left. left) };

    fn next(&mut self) -> Option<Event> {
        let (first, rest) = self.rest.split_first()?;
        self.rest = rest;
        Some(first.event())
    }
}

/// The history has as many events as its limit allows.
#[derive(Clone, Copy, PartialEq, Eq, Drop)]
pub struct Full;

impl History {
    /// The largest limit: numbers of 24 bits tell so many instructions apart.
    pub const MAX_LIMIT: u32 = MOST_EVENTS;

    /// An empty history with room for `limit` events, 0 to `MAX_LIMIT`. No other function of a
    /// history takes memory.
    pub fn with_limit(limit: u32, alloc: Global) -> Result<History, AllocError>
        requires { limit ≤ Self.MAX_LIMIT }
        ensures { IfOk result (λ h. h ≡ record { limit = limit; items = [] }) }
    {
        Ok(History {
            limit,
            events: Vec::with_capacity(alloc, limit as usize)?,
        })
    }

    /// Appends an event; `Full` where there are `limit` events already, and then nothing changes.
    ///
    /// In its caller, which knows the event's kind, an event of `step` takes 60 instructions less, of some 900.
    #[inline(always)]
    pub fn push(&mut self, event: Event) -> Result<(), Full>
        ensures room { IsOk result ↔ (length self.old.items < self.old.limit) }
        ensures full { OnErr result (length self.old.items ≡ self.old.limit) }
        ensures pushed { OnOk result
            (self.new ≡ record self.old { items = self.old.items ++ event ∷ [] }) }
        ensures unchanged { OnErr result (self.new ≡ self.old) }
    {
        if self.is_full() {
            return Err(Full);
        }
        self.events.push_reserved(pack(event));
        Ok(())
    }

    /// The event at a place, the oldest at 0; none where there are no more than `index`.
    pub fn get(&self, index: usize) -> Option<Event>
        ensures { result ≡ slice_get self.now.items index }
    {
        Some(self.events.get(index)?.event())
    }

    /// The actor of the event at a place, as `get` has it; the rest of the event isn't unpacked.
    #[inline]
    pub fn actor_at(&self, index: usize) -> Option<u8>
        ensures { result ≡ option_map actor_of (slice_get self.now.items index) }
    {
        Some(self.events.get(index)?.actor())
    }

    /// All events so far, the oldest first.
    pub fn iter(&self) -> Events<'_>
        ensures events { result ≡ self.now.items }
        ensures within { length result ≤ self.now.limit }
        ensures small { self.now.limit ≤ Self.MAX_LIMIT }
    {
        Events {
            rest: self.events.as_slice(),
        }
    }

    /// How many events there are.
    pub fn len(&self) -> usize
        ensures count { result ≡ length self.now.items }
        ensures within { result ≤ self.now.limit }
        ensures small { self.now.limit ≤ Self.MAX_LIMIT }
    {
        self.events.len()
    }

    /// Whether there is no event yet.
    pub fn is_empty(&self) -> bool
        ensures { IsTrue result ↔ (self.now.items ≡ []) }
    {
        self.events.is_empty()
    }

    /// The most events that there may be.
    pub fn limit(&self) -> u32
        ensures limit { result ≡ self.now.limit }
        ensures small { result ≤ Self.MAX_LIMIT }
        ensures within { length self.now.items ≤ result }
    {
        self.limit
    }

    /// Whether the next `push` answers `Full`.
    pub fn is_full(&self) -> bool
        ensures full { IsTrue result ↔ (length self.now.items ≡ self.now.limit) }
        ensures room { OnFalse result (length self.now.items < self.now.limit) }
    {
        self.len() >= self.limit as usize
    }
}
