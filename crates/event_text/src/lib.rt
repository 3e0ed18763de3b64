//! The text of events: the line of an event or of a record, and a trace, which is a line for each
//! event behind lines that name its version and its core.
//!
//! Read in this order: `print` (a line), `head` and `ranges` (how a trace begins, and its numbers),
//! `fields` and `read` (a line's fields, and a line), `trace` and `sink` (a whole text), `laws`
//! (printing and reading are each other's inverse).
#![tactic(auto)]

mod fields;
pub mod head;
pub mod laws;
pub mod print;
pub mod ranges;
pub mod read;
pub mod sink;
pub mod trace;

pub use head::{LaterVersion, TraceHead, TraceHeader, names_core};
pub use print::{Line, print_event, print_record, push_event, push_record};
pub use ranges::{FIRST_RANGES, Ranges, SECOND_RANGES, THIRD_RANGES};
pub use read::{Rule, read_event_within};
pub use sink::{Broken, Over, Sink, put_all};
pub use trace::{
    MigrateRefused, Trace, TraceRefused, migrate, print_trace, read_config_line, read_trace,
};
