//! The function does nothing: it is there for its contract, which ranges over all that harts may share.

ghost use Rattle.changed_memory.specs.Canonical.{EqualMemoriesAreOneList};

/// Of two lists of changes in the form in which they are kept that tell the same memory, both are one.
pub fn equal_memories_are_one_list()
    ensures { EqualMemoriesAreOneList }
{}
