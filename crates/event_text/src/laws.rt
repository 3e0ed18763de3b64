//! The laws of the text: an event is read back from its line, and from no other text; a trace's text
//! is that of its events alone, and what is none is refused in one way. No function here does
//! anything.

ghost use Rattle.std.specs.Prelude.{◌≡◌, ℕ, List, Ok};
ghost use Rattle.events.specs.declared.event.Event.{Event};
ghost use Rattle.event_text.specs.declared.head.TraceHead.{TraceHead};
ghost use Rattle.event_text.specs.declared.head.LaterVersion.TheVariants.{Third};
ghost use Rattle.event_text.specs.declared.head.TraceHead.TheVariants.{First, Later};
ghost use Rattle.event_text.specs.Core.{CoreSizes};
ghost use Rattle.event_text.specs.Line.{line_of};
ghost use Rattle.event_text.specs.Ranges.{ranges_of, IsEventWithin};
ghost use Rattle.event_text.specs.Reading.{event_within};
ghost use Rattle.event_text.specs.Trace.{trace_text, AreWithin, IsHead, IsRefusedAt};

/// The line of an event within the ranges of a version is read as this event; what is read as an event
/// is the line of it, and it is within them.
pub fn line_law()
    ensures back { (head : TraceHead) (event : Event) → IsEventWithin (ranges_of head) event
        → event_within (ranges_of head) (line_of event) ≡ Ok event }
    ensures only { (head : TraceHead) (event : Event) (text : List ℕ)
        → event_within (ranges_of head) text ≡ Ok event
        → IsEventWithin (ranges_of head) event × (text ≡ line_of event) }
{}

/// How a trace begins and events within the ranges of its version have a text of their own, which is
/// refused at no line; another text is refused at one line, by one rule.
pub fn trace_law()
    ensures own { (head other : TraceHead) (events others : List Event) → IsHead head → IsHead other
        → AreWithin head events → AreWithin other others
        → trace_text head events ≡ trace_text other others → (head ≡ other) × (events ≡ others) }
    ensures taken { (head : TraceHead) (events : List Event) (line rule : ℕ) → IsHead head
        → AreWithin head events → IsRefusedAt (trace_text head events) line rule → ⊥ }
    ensures once { (text : List ℕ) (line rule line' rule' : ℕ) → IsRefusedAt text line rule
        → IsRefusedAt text line' rule' → (line ≡ line') × (rule ≡ rule') }
{}

/// What is within the ranges of version 1 is within those of each version, and what is within those
/// of some version is within those of version 3: so the events of a trace of version 1 may stand
/// behind any other beginning, and those of each trace behind the beginning of a newest one.
pub fn migration_law()
    ensures first { (head : TraceHead) (events : List Event) → AreWithin First events
        → AreWithin head events }
    ensures newest { (head : TraceHead) (sizes : CoreSizes) (events : List Event)
        → AreWithin head events → AreWithin (Later Third sizes) events }
{}
