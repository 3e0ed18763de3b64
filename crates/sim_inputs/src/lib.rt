//! What the program is asked to do, and with which settings: its words, read by `clap`, and its
//! configuration, read by `toml`. No other crate sees `clap` or `toml`.
//!
//! Read in this order: `line` (what the words may ask for), `hart_count` (how many harts there are), `hints_wanted`
//! (when hints are told), `files` (the files that they name), `words` (how they are read), `found_commands` (what was
//! found for each command), `questions` (what is asked of outcomes), `outcome_options` and `test_orders` (whether those of `outcomes` and of a litmus test go
//! together, and what that asks of an order), `found_values` (what for one option), `several_tests` (litmus tests of
//! which there are several), `chart_ends` (where a chart begins and ends), `chart_options` (whether those of a chart go
//! together), `left_out` (what a search does without), `themes` (a picture's colours),
//! `clap_errors` (what is made of an error of `clap`), `refused_words`, `refused_options`,
//! `refused_together` and `refused_charts` (why words are refused, for a person), `description` (the command line as it is described to
//! `clap`), `arguments` (its arguments and options), `forms` (what stands behind it of files), `version` (which one it
//! is), `limits` (what stands in its texts for the limits of a core); then `settings`, `configuration` (how they are
//! read), `roles` and `ranges` (its parts), `explained` (which fault a refused configuration has).
#![tactic(auto)]

mod arguments;
mod chart_ends;
mod chart_options;
mod clap_errors;
mod configuration;
mod description;
mod explained;
mod files;
mod forms;
mod found_commands;
mod found_values;
mod hart_count;
mod hints_wanted;
mod left_out;
mod limits;
mod line;
mod outcome_options;
mod questions;
mod ranges;
mod refused_charts;
mod refused_options;
mod refused_together;
mod refused_words;
mod roles;
mod settings;
mod several_tests;
mod test_orders;
mod themes;
mod version;
mod words;

pub use configuration::{ConfigRefused, read_config};
pub use explained::{
    ActorsFault, ConfigFault, KNOWN_KEYS, NumberKey, ROLE_NAMES, read_config_or_fault,
};
pub use files::{Files, is_standard_input};
pub use hart_count::HartCount;
pub use hints_wanted::{HintsWanted, hints_asked};
pub use line::{
    Beside, ChartCommand, ChartEnd, CheckCommand, Columns, Command, ExplainCommand, Line,
    ListCommand, LitmusCommand, MigrateCommand, OutcomesCommand, PlainCommand, ProgramCommand,
    QuestionText, RunCommand, ScheduleCommand, ScriptCommand, StepCommand, WordsRefused,
};
pub use refused_words::add_refused_words;
pub use settings::Settings;
pub use several_tests::{names_list, tests_asked};
pub use words::read_words;
