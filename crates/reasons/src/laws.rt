//! The law of reasons. The function does nothing: it is there for its contract.

ghost use Rattle.reasons.specs.Exact.{ReasonsAreExact};

/// For a step that is asked of a core, no reason is named exactly where an event is possible.
pub fn reasons_are_exact()
    ensures exact { ReasonsAreExact }
{}
