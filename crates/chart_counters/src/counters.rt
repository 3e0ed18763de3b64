use numbers::sizes::HART_ROOM;

/// The numbers behind an event of a history. A number of each hart is 0 for those that the core hasn't.
#[derive(Clone, Copy, PartialEq, Eq, Drop)]
pub struct Counters {
    /// How many instructions of each hart are in decode, rename and the issue queue (ICOUNT; Tullsen and others,
    /// ISCA 1996).
    pub icount: [u32; HART_ROOM],
    /// The hart that the event has fetched, where it is a fetch.
    pub chosen: Option<u8>,
    /// The issue queue, all harts together.
    pub queue: Waiting,
    /// How many instructions of each hart are renamed and neither retired nor squashed.
    pub in_flight: [u32; HART_ROOM],
    /// How many physical registers are free.
    pub free: u32,
}

/// How many instructions wait in the issue queue, by the kind of unit that executes them.
#[derive(Clone, Copy, PartialEq, Eq, Drop)]
pub struct Waiting {
    pub alu: u32,
    pub mul: u32,
    pub mem: u32,
}
