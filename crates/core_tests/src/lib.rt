//! The tests of the core's calls, of the lock and the board, of the actors, of the checker, of why
//! traces are refused, and of the plain machine's runs. They stand in one crate, since a crate with tests of its own is proved twice
//! by the gate. Each module whose name ends in `_tests` has the tests of the crate that it is named
//! after, through its public calls alone.
#![tactic(auto)]

#[cfg(test)]
mod actors_tests;
#[cfg(test)]
mod asking;
#[cfg(test)]
mod chart_counters_tests;
#[cfg(test)]
mod chart_registers_tests;
#[cfg(test)]
mod computed_jumps_tests;
#[cfg(test)]
mod condensed_machine_tests;
#[cfg(test)]
mod core_lock_tests;
#[cfg(test)]
mod core_state_tests;
#[cfg(test)]
mod first_program;
#[cfg(test)]
mod first_trace;
#[cfg(test)]
mod history_check_tests;
#[cfg(test)]
mod litmus_files_tests;
#[cfg(test)]
mod litmus_histograms_tests;
#[cfg(test)]
mod litmus_images_tests;
#[cfg(test)]
mod litmus_reading_tests;
#[cfg(test)]
mod live_registers_tests;
#[cfg(test)]
mod outcomes_tests;
#[cfg(test)]
mod overtaken;
#[cfg(test)]
mod plain_run_tests;
#[cfg(test)]
mod reasons_tests;
#[cfg(test)]
mod reductions_tests;
#[cfg(test)]
mod refused_traces_tests;
#[cfg(test)]
mod rows;
#[cfg(test)]
mod sc_machine_tests;
#[cfg(test)]
mod searched;
#[cfg(test)]
mod smt_core_tests;
#[cfg(test)]
mod stories_tests;
#[cfg(test)]
mod story_text_tests;
mod stuck_harts_tests;
