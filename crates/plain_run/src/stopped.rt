use sc_machine::Stopped;
use thiserror::Error;

/// Why the steps of an order weren't all made.
#[derive(Clone, Copy, Debug, PartialEq, Eq, Drop, Error)]
pub enum OrderStopped {
    /// There are no harts, or more than `MOST_HARTS`.
    #[error("harts")]
    Harts,
    /// There isn't enough memory.
    #[error("memory")]
    Memory,
    /// The step at this place of the order, from 0, is the first that isn't made.
    #[error("order {index} refused {}", .why.number())]
    Step { index: usize, why: Stopped },
}
