//! The rules of each kind of event, by their numbers in the definitions (`smt_model/specs/Rules`): what
//! must be so for the event to come next. Of several that are broken the lowest is named.

/// Of a fetch.
#[derive(Clone, Copy, Drop)]
pub(super) enum FetchRule {
    /// The core has such an actor.
    Actor = 1,
    /// The hart is the one to fetch.
    Chosen = 2,
    /// The number is the next one.
    Number = 3,
    /// The pc is that at which the hart goes on.
    Pc = 4,
    /// The word is the one that memory has there.
    Word = 5,
}

/// Of a decode.
#[derive(Clone, Copy, Drop)]
pub(super) enum DecodeRule {
    Actor = 1,
    /// The instruction is in a decode latch.
    Fetched = 2,
    /// It is the oldest there.
    Oldest = 3,
    /// The rename latch has room.
    Room = 4,
}

/// Of a rename.
#[derive(Clone, Copy, Drop)]
pub(super) enum RenameRule {
    Actor = 1,
    /// The instruction is in a rename latch.
    Decoded = 2,
    /// It is the oldest there.
    Oldest = 3,
    /// The queue, its hart's active list, and where it is a load or a store those of its hart have
    /// room.
    QueueRoom = 4,
    FlightRoom = 5,
    LoadRoom = 6,
    StoreRoom = 7,
    /// It is given a register exactly where it writes one.
    Fitting = 8,
    /// The register is free.
    Free = 9,
}

/// Of an issue.
#[derive(Clone, Copy, Drop)]
pub(super) enum IssueRule {
    Actor = 1,
    /// The actor is a unit that has no job.
    IdleUnit = 2,
    /// The instruction waits in the queue.
    Waiting = 3,
    /// It is for this kind of unit.
    Kind = 4,
    /// It has its operands.
    Ready = 5,
    /// It is the oldest ready one for such a unit.
    Oldest = 6,
}

/// Of a completion.
#[derive(Clone, Copy, Drop)]
pub(super) enum CompleteRule {
    Actor = 1,
    /// The actor has the instruction as its job.
    Job = 2,
    /// It wasn't squashed.
    InFlight = 3,
    /// The outcome is the one that comes of it.
    Outcome = 4,
}

/// Of a drop.
#[derive(Clone, Copy, Drop)]
pub(super) enum DropRule {
    Actor = 1,
    /// The actor has the instruction as its job.
    Job = 2,
    /// It was squashed.
    Squashed = 3,
}

/// Of a retirement and of a refetch.
#[derive(Clone, Copy, Drop)]
pub(super) enum OldestRule {
    Actor = 1,
    /// The instruction is completed.
    Completed = 2,
    /// It is its hart's oldest in flight.
    Oldest = 3,
}

/// Of a retirement, behind those.
#[derive(Clone, Copy, Drop)]
pub(super) enum RetireRule {
    /// The effect is the one that comes of it.
    Effect = 4,
    /// Its word is still the one at its pc.
    Fresh = 5,
}

/// Of a refetch, behind those.
#[derive(Clone, Copy, Drop)]
pub(super) enum RefetchRule {
    /// Its word is no longer the one at its pc.
    Stale = 4,
}
