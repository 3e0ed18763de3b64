//! The accesses to memory of an execution, and how they are related.

/// One access of a hart to a location. An atomic memory operation is one that reads and writes; a
/// store-conditional that fails is one that does neither.
#[derive(Clone, Copy, PartialEq, Eq, Drop)]
pub struct MemoryEvent {
    pub hart: u8,
    /// How many accesses its hart has made before it.
    pub place: usize,
    /// The step of its hart's thread that makes it.
    pub step: usize,
    /// The location, by its index among the test's.
    pub location: usize,
    /// The number that it reads, where it reads.
    pub reads: Option<u32>,
    /// The number that it writes, where it writes.
    pub writes: Option<u32>,
    /// The event whose write it reads, by its index among the events; none where it reads what is there at
    /// the start. Of a store-conditional that fails, the event whose write broke its reservation.
    pub source: Option<usize>,
    /// Of a write, the how-manieth of its location it is in coherence order, from 1 on: 0 is the write of
    /// what is there at the start.
    pub rank: usize,
    /// Of a store-conditional, the load-reserved of its hart that it goes with, by its index.
    pub reserved_by: Option<usize>,
}

/// How two events of an execution are related (Alglave, Maranget and Tautschnig 2014).
#[derive(Clone, Copy, PartialEq, Eq, Drop)]
pub enum Relation {
    /// po: the one is before the other on their hart.
    ProgramOrder,
    /// rf: the one reads what the other writes.
    ReadsFrom,
    /// co: both write the same location, the one before the other.
    Coherence,
    /// fr: the one reads what was there before the other writes.
    FromRead,
    /// The one breaks the reservation for want of which the other, a store-conditional, fails.
    Breaks,
}

/// Two events that are related, by their indices.
#[derive(Clone, Copy, PartialEq, Eq, Drop)]
pub struct Edge {
    pub from: usize,
    pub relation: Relation,
    pub to: usize,
}
