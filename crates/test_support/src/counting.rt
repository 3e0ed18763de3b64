use numbers::sizes::MOST_ACTORS;
use smt_core::{Core, Finished};

/// A place at which a pass counted otherwise than its actor has events in the history.
#[derive(Clone, Copy, Drop)]
pub struct Miscount {
    pub actor: u8,
    /// What the pass counted.
    pub counted: u64,
    /// How many of the history's events are the actor's.
    pub events: u64,
}

/// How many events of its history are each actor's.
fn events_by_actor(core: &Core) -> [u64; MOST_ACTORS] {
    let mut events = [0u64; MOST_ACTORS];
    for event in core.history().iter() {
        if let Some(count) = events.get_mut(event.actor() as usize) {
            *count = count.wrapping_add(1);
        }
    }
    events
}

/// The first place at which a pass counted otherwise than its actor has events, if there is one.
pub fn first_miscount(finished: &Finished) -> Option<Miscount> {
    let by_actor = events_by_actor(&finished.core);
    for (actor, (counted, events)) in (0..MOST_ACTORS as u8).zip(
        finished.counts.iter().zip(&by_actor),
    ) {
        if counted != events {
            return Some(Miscount {
                actor,
                counted: *counted,
                events: *events,
            });
        }
    }
    None
}
