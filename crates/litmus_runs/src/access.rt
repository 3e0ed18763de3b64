/// How many accesses a hart makes at most, and how many an execution has.
pub const MOST_ACCESSES: usize = 32;

/// What one hart does with memory at a step.
#[derive(Clone, Copy, Drop)]
pub struct Access {
    pub step: usize,
    pub location: usize,
    pub reads: Option<u32>,
    pub writes: Option<u32>,
    /// Of a store-conditional, the index of its load-reserved among its hart's accesses.
    pub reserved_by: Option<usize>,
}
