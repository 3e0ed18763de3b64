//! The steps of the core over its parts, from fetch to retire. What a step asks and leaves is said
//! with a picture of the history, never with the history.
//!
//! Read in the order of the pipeline: `fetch` with `point` (where the next fetch is), `decode`,
//! `rename`, `issue`, `complete`, `retire`. They share `latch` (the oldest instruction leaves a
//! latch), `accesses` (the loads and stores in flight), `checkpoints` (the maps that are kept of
//! branches, JAL and JALR) and `fill` (a number goes into its register). A step that squashes calls
//! `core_parts`.
#![tactic(auto)]

mod accesses;
mod checkpoints;
mod complete;
mod decode;
mod fetch;
mod fill;
mod issue;
mod latch;
mod point;
mod rename;
mod retire;

pub use complete::{completion_of, drop_job, finish, handed_back, in_flight};
pub use decode::{decode_oldest, next_to_decode};
pub use fetch::{choose, fetch_slot};
pub use issue::{issue_entry, next_to_issue};
pub use point::FetchPoint;
pub use rename::{next_to_rename, rename_oldest};
pub use retire::{next_to_retire, refetch_oldest, retire_oldest};
