//! The tests of the program: scripts, schedules, the scripts of histories, the words of a line and
//! its configuration, reports, the numbers of histories, asks explained, lines that are typed, whole
//! lines performed, and what a terminal shows of a run. They stand in one crate, since a crate with tests of its own is
//! proved twice by the gate. Each module whose name ends in `_tests` has the tests of the crate that
//! it is named after, through its public calls alone; `progress_tests` has those of the gate of the
//! crate `program_io` that shows on a terminal how far a run is, and `files_tests` of how it reads.
#![tactic(auto)]

#[cfg(test)]
mod commands_tests;
#[cfg(test)]
mod explained_asks_tests;
#[cfg(test)]
mod failing;
#[cfg(test)]
mod files_tests;
#[cfg(test)]
mod hints_tests;
#[cfg(test)]
mod history_counts_tests;
#[cfg(test)]
mod history_scripts_tests;
#[cfg(test)]
mod lines;
#[cfg(test)]
mod performing;
#[cfg(test)]
mod progress_tests;
#[cfg(test)]
mod prompts_tests;
#[cfg(test)]
mod reports_tests;
#[cfg(test)]
mod rounds_tests;
#[cfg(test)]
mod rows;
#[cfg(test)]
mod schedules_tests;
#[cfg(test)]
mod scripts_tests;
#[cfg(test)]
mod sim_inputs_tests;
