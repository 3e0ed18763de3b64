//! The lines by which a simulation is told: of records, of counts, of how each hart stands, and of the
//! bytes that were put out.
//!
//! Nothing here knows of a core. Read in this order: `line` (a number under its word), `records` (the
//! records' lines), `standing` (the harts and the output), `statuses` (the exit status that goes with them).
#![tactic(auto)]

mod line;
mod records;
mod standing;
mod statuses;

pub use line::{Line, report_count};
pub use records::{report_records, write_record};
pub use standing::{report_end, report_standing, write_bytes};
pub use statuses::status_of;
