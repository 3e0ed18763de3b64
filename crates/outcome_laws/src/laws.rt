//! The functions do nothing: each is there for its contract, which ranges over all setups and all
//! states of the plain machine, and over all tables that are good.
ghost use Rattle.outcome_laws.specs.Paths.{PathsKeepCode, RunsArePaths};
ghost use Rattle.outcome_laws.specs.Tables.{StartsAsCoded, HoldsAsCoded, LiveAloneIsTables};
ghost use Rattle.outcome_laws.specs.Local.{FitsOnItsOwn, LocalStepsCommute, EveryStepFits, SilentStepsAreLocal};
ghost use Rattle.outcome_laws.specs.Local.{FitsByItsTarget};
ghost use Rattle.outcome_laws.specs.Live.{AlikeStatesStepAlike};
ghost use Rattle.outcome_laws.specs.Search.{EachSettles, EachMemoryIsVisited, EveryEndIsVisited};
ghost use Rattle.outcome_laws.specs.Search.{WhatSettlesIsReached, NoEndIsReached, EachCanEnd};

/// A run of the plain machine in an order is the path of that order, from the start; and code that may
/// not be written stays what the image has.
pub fn runs_are_paths()
    ensures paths { RunsArePaths }
    ensures code { PathsKeepCode }
{}

/// Code that may not change by the tables is at the start what the image has, and so it is wherever code
/// that may not be written is, if the tables say that every other word may be.
pub fn code_is_as_coded()
    ensures starts { StartsAsCoded }
    ensures holds { HoldsAsCoded }
{}

/// Whether a step fits the tables is its own hart's matter; and a local step and any step that fits of
/// another hart come to the same in both orders, and stay so.
pub fn local_steps_commute()
    ensures own { FitsOnItsOwn }
    ensures commute { LocalStepsCommute }
{}

/// Tables that know nothing but which registers are live are good if that is, and allow all; every step
/// fits tables that allow all; where each hart may touch anything and the code may not change, a step fits
/// unless it jumps by a register to where the table has no jump; and where the code may not change, a step that
/// fits is local if it neither touches memory nor puts a byte out, or is a store-conditional without a reservation.
pub fn steps_fit_what_allows_all()
    ensures tables { LiveAloneIsTables }
    ensures fits { EveryStepFits }
    ensures target { FitsByItsTarget }
    ensures silent { SilentStepsAreLocal }
{}

/// States that differ only in what doesn't matter any more make the same steps that fit, and differ in
/// that alone afterwards.
pub fn alike_states_step_alike()
    ensures alike { AlikeStatesStepAlike }
{}

/// A search that goes on by each step, which it sees to fit, and then by local ones, and keeps one of
/// several states that are alike: every state settles in one that it visits, and each step from there fits.
pub fn each_state_settles()
    ensures settles { EachSettles }
{}

/// It visits every end, and all that memory shows where it is seen, and nothing that no order leads to.
pub fn visited_states_are_enough()
    ensures ends { EveryEndIsVisited }
    ensures memory { EachMemoryIsVisited }
    ensures reached { WhatSettlesIsReached }
{}

/// Where no visited state is an end, none is reached; and where each can go on to an end, every state can.
pub fn visited_states_tell_what_can_end()
    ensures stuck { NoEndIsReached }
    ensures always { EachCanEnd }
{}
