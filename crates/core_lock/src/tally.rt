ghost use Rattle.std.specs.Prelude.{◌≡◌, ◌∷◌, [], ◌+◌, ◌<◌, ◌≤◌, ◌==◌, if◌then◌else◌, Some, length};
ghost use Rattle.std.specs.Prelude.{slice_get};
ghost use Rattle.std.specs.Prelude.{reverse, ℕ, List};
ghost use Rattle.numbers.specs.Sizes.{most_actors, most_events};
ghost use Rattle.smt_model.specs.Account.{event_count, last_event_of};
ghost use Rattle.events.specs.Event.{actor_of};
ghost use Rattle.events.specs.declared.event.Event.{Event as AnyEvent};
ghost use Rattle.core_lock.specs.Passes.{IsTold};
ghost use Rattle.core_lock.specs.Tallies.{AreMade, AreBelow, event_at};

use events::{Event, History};
use numbers::sizes::MOST_ACTORS;

/// What a history holds of one actor: how many events it made, and the last of them.
#[derive(Clone, Copy, Drop)]
pub struct Tally {
    pub count: u64,
    pub last: Option<Event>,
}

/// What a history holds of actor `actor`.
pub fn tally_of(history: &History, actor: u8) -> Tally
    ensures count { result.count ≡ event_count actor (reverse history.now.items) }
    ensures last { result.last ≡ last_event_of actor (reverse history.now.items) }
    ensures within { result.count ≤ length history.now.items }
{
    let mut tally = Tally {
        count: 0,
        last: None,
    };
    for event in history.iter() {
        tally = with_event(tally, &event, actor);
    }
    tally
}

fn with_event(tally: Tally, event: &Event, actor: u8) -> Tally
    requires { tally.count < most_events }
    ensures count { result.count ≡ tally.count + event_count actor (event.now ∷ []) }
    ensures last { result.last
        ≡ (if actor_of event.now == actor then Some event.now else tally.last) }
{
    if event.actor() != actor {
        return tally;
    }
    Tally {
        count: tally.count + 1,
        last: Some(*event),
    }
}

/// How many events of a history one actor made, and where the last of them stands.
#[derive(Clone, Copy, Drop)]
pub struct Made {
    pub count: u64,
    pub last: Option<usize>,
}

/// What a history holds of each actor, told in one pass over it. No event is unpacked for that: to unpack each, an
/// event of `step` took 90 instructions more, of some 800.
pub fn made_in(history: &History) -> [Made; MOST_ACTORS]
    ensures { AreMade (reverse history.now.items) history.now.items result }
{
    let mut made = [Made {
        count: 0,
        last: None,
    }; MOST_ACTORS];
    for place in 0..history.len() {
        enter(history, &mut made, place);
    }
    made
}

/// What a history holds of the actor at a place, with its last event.
pub fn tally_at(history: &History, made: &[Made; MOST_ACTORS], actor: usize) -> Tally
    requires { actor < most_actors }
    ensures { (past : List AnyEvent) → AreMade past history.now.items made.now
        → IsTold past actor result.count result.last }
{
    let Made { count, last } = made[actor];
    Tally {
        count,
        last: event_at(history, last),
    }
}

/// The event at a place, if there is a place.
fn event_at(history: &History, place: Option<usize>) -> Option<Event>
    ensures { result ≡ event_at history.now.items place }
{
    match place {
        Some(place) => history.get(place),
        None => None,
    }
}

/// Enters the event at a place of the history at its actor's.
fn enter(history: &History, made: &mut [Made; MOST_ACTORS], place: usize)
    requires few { AreBelow most_events made.old }
    ensures { (past : List AnyEvent) (event : AnyEvent)
        → slice_get history.now.items place ≡ Some event → AreMade past history.now.items made.old
        → AreMade (event ∷ past) history.now.items made.new }
{
    let Some(actor) = history.actor_at(place) else {
        return;
    };
    enter_for(made, actor, place);
}

/// Enters a place at an actor's. There is none for an actor from `MOST_ACTORS` on.
fn enter_for(made: &mut [Made; MOST_ACTORS], actor: u8, place: usize)
    requires few { AreBelow most_events made.old }
    ensures { (past events : List AnyEvent) (event : AnyEvent)
        → slice_get events place ≡ Some event → actor ≡ actor_of event → AreMade past events made.old
        → AreMade (event ∷ past) events made.new }
{
    let actor = usize::from(actor);
    if actor < MOST_ACTORS {
        made[actor] = Made {
            count: made[actor].count + 1,
            last: Some(place),
        };
    }
}
