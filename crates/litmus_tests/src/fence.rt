/// A set of accesses, as a fence names it.
#[derive(Clone, Copy, Debug, PartialEq, Eq, Drop)]
pub struct AccessSet {
    /// `i`: input from devices.
    pub input: bool,
    /// `o`: output to devices.
    pub output: bool,
    /// `r`: reads of memory.
    pub reads: bool,
    /// `w`: writes to memory.
    pub writes: bool,
}

/// What a fence orders, as its test writes it. Each of them means the same here, where all accesses are in order.
#[derive(Clone, Copy, Debug, PartialEq, Eq, Drop)]
pub enum Fence {
    /// `fence rw,w`: the accesses before it and those behind it. `fence` alone names all of both.
    Sets { before: AccessSet, after: AccessSet },
    /// `fence.tso`.
    TotalStoreOrder,
}
