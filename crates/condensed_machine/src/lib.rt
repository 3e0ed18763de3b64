//! The plain machine for a search over its states, of which it keeps few: those in which each hart that goes
//! has a step next that other harts may see, with 0 in each register that nobody reads again, and no reservation of a
//! hart that has stepped and can't use it.
//!
//! Read in this order: `jumping` (jumps by registers, held against a table), `local` (a step that other harts
//! don't see), `settling` (how a hart follows its own), `resting` (which registers it keeps), `program` (what is
//! searched), `executed` and `tables` (what a step does, and the numbers of the parts of states), `state`, `numbering`
//! (the numbers of a state's harts), `way` (what local steps a step was), `machine`, `moves` (what a step comes to,
//! noted), `losing` (harts that lose their reservations by it), `stepping`, `begun` and `beginning` (the first state),
//! `searching` (the machine as one that is searched).
#![tactic(auto)]

mod beginning;
mod begun;
mod executed;
mod jumping;
mod local;
mod losing;
mod machine;
mod moves;
mod numbering;
mod program;
mod resting;
mod searching;
mod settling;
mod state;
mod stepping;
mod tables;
mod way;

pub use begun::Begun;
pub use machine::CondensedMachine;
pub use state::State;
pub use way::{Rows, Way};
