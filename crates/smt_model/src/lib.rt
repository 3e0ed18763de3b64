//! What the simulator is held against: the definitions of the machine, of its histories and of what
//! a history says.
//!
//! There is hardly any code here. The definitions stand in `specs`, to be read in this order:
//! `Setup`, `Kinds`, `Exec`, `Nexts`, `Faults`, `Bytes`, `Reservations`, `Outcomes`, `Effects`,
//! `Plain`; then, over lists of events, `Folds`, `Fates`, `Flights`, `Registers`, `Memory`, `Looks`,
//! `Fetching`, `Jobs`, `Comparisons`, `Rules`, `Account`, `Picture`, `Frames`, `Steps`, `Asks`.
//! What follows from them for every legal history stands in `smt_laws`.
//! The types that these speak of are the code: `config`, `account` (what a history comes to) and `turn` (that of
//! a script).
#![tactic(auto)]

mod account;
pub mod config;
mod turn;

pub use account::Account;
pub use config::{Config, Status};
pub use events::Role;
pub use turn::Turn;
