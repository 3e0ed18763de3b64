//! The tests of the crates below the core's state: words, text, files, and the parts of a core. They
//! stand in one crate, since a crate with tests of its own is proved twice by the gate. Each module
//! has the tests of the crate that it is named after, through its public calls alone; of `elf_image`
//! there are also `image_tests` (what an image is) and `writer_tests`, of `rv_decode` also
//! `encoder_tests`, and of `issue_queue` also `queue_commands_tests`; `sizes_tests` is of `numbers`.
#![tactic(auto)]

#[cfg(test)]
mod changed_memory_tests;
#[cfg(test)]
mod decoded_code_tests;
#[cfg(test)]
mod elf_image_tests;
#[cfg(test)]
mod encoder_tests;
#[cfg(test)]
mod event_text_tests;
#[cfg(test)]
mod events_tests;
#[cfg(test)]
mod exec_units_tests;
#[cfg(test)]
mod free_list_tests;
#[cfg(test)]
mod image_tests;
#[cfg(test)]
mod issue_queue_tests;
#[cfg(test)]
mod litmus_cycles_tests;
mod litmus_runs_tests;
#[cfg(test)]
mod load_store_tests;
#[cfg(test)]
mod outcome_queries_tests;
#[cfg(test)]
mod placing;
#[cfg(test)]
mod program_ways_tests;
#[cfg(test)]
mod queue_commands_tests;
#[cfg(test)]
mod rename_map_tests;
#[cfg(test)]
mod retire_squash_tests;
#[cfg(test)]
mod rows;
#[cfg(test)]
mod rv_decode_tests;
#[cfg(test)]
mod rv_execute_tests;
#[cfg(test)]
mod rv_instr_tests;
#[cfg(test)]
mod rv_text_tests;
#[cfg(test)]
mod rv_word_tests;
#[cfg(test)]
mod searches_tests;
#[cfg(test)]
mod shared_memory_tests;
#[cfg(test)]
mod sizes_tests;
#[cfg(test)]
mod source_lines_tests;
#[cfg(test)]
mod story_pictures_tests;
mod symbols_tests;
#[cfg(test)]
mod text_fields_tests;
#[cfg(test)]
mod writer_tests;
