/// Why a run in rounds isn't made, or not to its end.
#[derive(Clone, Copy, PartialEq, Eq, Drop)]
pub enum RoundsStopped {
    /// There are no harts, or more than `MOST_HARTS`.
    Harts,
    /// There isn't enough memory.
    Memory,
    /// The records couldn't be written.
    Output,
}

/// Why a turn isn't made to its end.
#[derive(Clone, Copy, PartialEq, Eq, Drop)]
pub enum Broken {
    /// There isn't enough memory for the output.
    Memory,
    /// A record couldn't be written.
    Output,
}
