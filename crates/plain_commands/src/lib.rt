//! The commands over the plain machine, and over orders of its harts.
//!
//! A module a command: `plain` and `plain_rounds` (an order, and turns without one), `schedule` (the script that makes
//! a core retire in an order), `all_outcomes` and `litmus` (both over `searching`), `suite` (many litmus tests:
//! `litmus_summary` has the line of one, `telling` what is printed of each, `test_source` where they come from).
//! Beside `all_outcomes` stand `asking` (its question, and what is watched), `settling` (which outcome answers it),
//! `written_orders` (the order that it writes), `how` (how many states its search has, and others) and `outcome_why`
//! (why a condition holds of none), beside `litmus` `test_parts` (what it makes ready), `state_orders` (the order that
//! it writes), `why` (why its condition holds of no state, or how it comes to hold of one),
//! `shown_states` (which one) and `told_states` (how that one is told and drawn), and beside `plain` too
//! `drawn_orders` (the picture of an order's story). `retiring` has the law that a printed schedule is retired. What
//! each command comes to, and when each of its refusals comes, stands in `specs` under the command's name.
#![tactic(auto)]

mod all_outcomes;
mod asking;
mod drawn_orders;
mod how;
mod litmus;
mod litmus_summary;
mod outcome_why;
mod plain;
mod plain_rounds;
pub mod retiring;
mod schedule;
mod searching;
mod settling;
mod shown_states;
mod state_orders;
mod suite;
mod telling;
mod test_parts;
mod test_source;
mod told_states;
mod why;
mod written_orders;
mod written_stories;

pub use all_outcomes::perform_outcomes;
pub use asking::{question_of, see_harts, terms_asked};
pub use litmus::{perform_litmus, perform_test};
pub use plain::{perform_plain, tell_image};
pub use plain_rounds::{MOST_STEPS, perform_rounds, rounds_of};
pub use schedule::perform_schedule;
pub use searching::find_shown;
pub use settling::status_of_answer;
pub use suite::perform_suite;
pub use telling::{LineTelling, Telling};
pub use test_parts::{put_image, settings_for, test_of};
pub use test_source::TestSource;
