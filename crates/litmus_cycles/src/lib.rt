//! Why a final state of a litmus test can't come: the cycle of program order, reads-from, coherence order and
//! from-read that each execution with such an end has (Shasha and Snir, "Efficient and correct execution of
//! parallel programs that share memory", 1988; Alglave, Maranget and Tautschnig, "Herding Cats", 2014: an execution
//! is sequentially consistent where these relations together are acyclic).
//!
//! Read in this order: `event` (accesses to memory and how they are related), `relating`, `coherence`, `checking` (what
//! a cycle and a candidate is, as tests), `explanation` (what is told); `demand`, `open` (what is to be decided of a
//! candidate), `choosing`, `ending`, `deciding`, `related`, `cycles`, `showing`, `findings`, `onlooker`, `searching`,
//! `explaining` (the search).
//! The definitions are `specs/Executions`, `specs/OneOrder`, `specs/Choices`, `specs/Endings`, `specs/Kept`,
//! `specs/Refusals` and `specs/Explained`; how it is told and drawn is `explained_cycles`.
#![tactic(auto)]

mod checking;
mod choosing;
mod coherence;
mod cycles;
mod deciding;
mod demand;
mod ending;
pub mod event;
pub mod explaining;
pub mod explanation;
mod findings;
mod onlooker;
mod open;
mod related;
mod relating;
mod searching;
mod showing;

pub use event::{Edge, MemoryEvent, Relation};
pub use explaining::explain_forbidden;
pub use explanation::{Broken, Explanation, Shown};
pub use onlooker::ChoiceOnlooker;
pub use relating::is_edge;
