//! The events of a history, by kind.

ghost use Rattle.std.specs.Prelude.{◌≡◌, reverse};
ghost use Rattle.smt_model.specs.Basics.{how_many};
ghost use Rattle.history_counts.specs.Numbers.{events_of, is_kind};

use events::{Event, EventKind};

/// How many events are of a kind.
pub(crate) fn count_events(events: &[Event], kind: EventKind) -> usize
    ensures { result ≡ events_of kind (reverse events.now) }
{
    count_listed(events, kind)
}

/// The same, said of the events in their order.
fn count_listed(events: &[Event], kind: EventKind) -> usize
    ensures { result ≡ how_many (is_kind kind) events.now }
{
    events.iter().filter(|event| is_kind(event, kind)).count()
}

fn is_kind(event: &Event, kind: EventKind) -> bool
    ensures { result ≡ is_kind kind event.now }
{
    event.kind().letter() == kind.letter()
}
