//! The ways of a program's harts to their ends, each hart by itself, by the numbers that it may read: those that are
//! there at the start, and those that some hart may write. They are for programs of few accesses, as `litmus_runs` has
//! the ways of a litmus test.
//!
//! A word that one hart alone touches is its own: what it reads there is what it has written. Only words that several
//! harts touch, and those that are asked for, are locations; an access to one of these is an access of the way.
//!
//! Proved (`specs/Ways`): each run that is listed is a way of its hart by the plain machine's own steps, and what it reads
//! of a location is there at the start or is written on such a way. That all are listed is only tested.
//!
//! Read in this order: `bound` (why ways aren't told), `program`, `words` (those that harts share), `own` (those that
//! are a hart's own), `places` (which instructions access memory), `known` (the numbers that a location may
//! have), `hart` (what a hart does up to its next access), `finding` (what it may find there), `turns` (which turns of a
//! loop are needless), `following` (all ways of one hart), `gathering` (all ways of all).
#![tactic(auto)]

mod bound;
mod finding;
mod following;
mod gathering;
mod hart;
mod known;
mod own;
mod places;
mod program;
mod turns;
mod words;

pub use bound::Bound;
pub use gathering::{ProgramWays, Unfollowed, program_ways};
pub use hart::{ENDED, stopped_for};
pub use places::Place;
