//! The loads and stores in flight, and what the core says of memory as an instruction completes and
//! as it retires.
//!
//! Read in this order: `load` (a load and its first look), `store` (a store), `hart_queues` (the
//! loads and stores of one hart), `look` (what a load sees), `queues` (those of all harts, the two
//! looks of a load, and which loads a write touches), `completions` (the fault of an access, or a
//! load's first look), `retirements` (what an instruction does to memory as it retires, and
//! whether it looks again), `laws`.
#![tactic(auto)]

mod completions;
mod hart_queues;
pub mod laws;
mod load;
mod look;
mod queues;
mod retirements;
mod store;

pub use completions::completion;
pub use load::{FirstLook, Load};
pub use queues::LoadStore;
pub use retirements::{effect, gives_loaded, looks_after};
pub use store::Store;
