//! The instructions of all harts that wait for their operands or for a unit, by rising number.
//!
//! Read in this order: `entry` (an instruction that waits), `plain` (a queue that goes through all
//! of them at each call); then what wakes by lists: `waiting` (for each register the sources that
//! wait for it), `order` (ready entries, by rising number), `ready` (one for each kind of unit),
//! `parts` (these and the slab of entries), `slab_queue`; then `tagged` (what both queues promise) and `commands` (calls
//! in turn, and their answers). The oldest ready one is issued first (Tullsen and others, ISCA
//! 1996).
#![tactic(auto)]

pub mod commands;
pub mod entry;
mod order;
mod parts;
pub mod plain;
mod ready;
pub mod slab_queue;
pub mod tagged;
mod waiting;

pub use commands::{QueueAnswer, QueueCommand, run_queue};
pub use entry::{Entry, Source};
pub use plain::PlainQueue;
pub use slab_queue::SlabQueue;
pub use tagged::TaggedQueue;
