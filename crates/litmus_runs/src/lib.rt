//! The ways of a litmus test's harts through their steps: each hart by itself, by the numbers that it may read, which are
//! those that are there at the start and those that some hart may write.
//!
//! Proved (`specs/Ways`): each run that is listed is a way of its hart, by steps that do what the definitions say (`exec`,
//! `effect_of`), and what it reads is there at the start or is written on such a way. And where they are told to be whole
//! (`specs/Rounds`, `specs/Needed`): none is left out by the numbers of a round but those with a needless turn, and where
//! nothing new is written on these, none at all. That else no execution reads what is new is only argued (`growth`).
//!
//! Read in this order: `number` (the words that values are), `access` (what a hart does with memory at a step), `known`
//! (the numbers that a location may have), `registers`, `reservation`, `finding` (what an instruction finds), `made` (the
//! access that it makes), `hart` (one step), `turns` (which turns of a loop are needless), `following` (all ways of one
//! hart), `written` and `growth` (which numbers these write, and when all are known), `runs` (all ways of all harts).
#![tactic(auto)]

mod access;
mod finding;
mod following;
mod growth;
mod hart;
mod known;
mod made;
mod number;
mod registers;
mod reservation;
mod runs;
mod turns;
mod written;

pub use access::{Access, MOST_ACCESSES};
pub use finding::Found;
pub use growth::Growth;
pub use made::{access_of, reserving};
pub use number::{initial_number, word_of};
pub use reservation::{holds_word, reservation_after};
pub use runs::{AllRuns, GatheredRuns, HartRuns, Run, all_runs, gathered_runs};
