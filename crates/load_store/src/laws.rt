//! What `completion` and `effect` say is what the rules want, over every history. The function does
//! nothing: it is there for its contract.
ghost use Rattle.load_store.specs.Histories.{SeesFirstLook, SaysOutcomes, SaysEffects};

/// Where memory is as a history says, and the stores of a hart in flight are those that the history
/// has: a load sees through them what the rules call its first look, what `completion` says is what
/// the rules want of a completion, and what `effect` says is what they want of a retirement.
pub fn says_what_the_rules_want()
    ensures look { SeesFirstLook }
    ensures outcome { SaysOutcomes }
    ensures effect { SaysEffects }
{}
