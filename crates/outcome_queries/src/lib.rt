//! What is asked of the outcomes of a program: which registers and places in memory tell them apart, and which of
//! them a condition holds of. Both are read from text, beside the names of the program.
//!
//! Read in this order: `refused` (why a text is refused), `quoted` (a text with quotation marks), `width` (how many
//! bytes a text says), `placed` (a place in memory by a name, as it is written), `at_name` (which bytes that is),
//! `watched` (a register at a hart, or bytes of memory), `list` (a list of what is watched), `relation` (how numbers are
//! compared), `sign` (a term, cut at its relation), `term` (a term of a condition), `put` (one of what was put out),
//! `condition` (what a condition is), `outer` (where a text is cut), `parsing` (how one is read), `question` (what is
//! asked), `naming` (the name that a text begins with), `watching` (what is watched for a list and terms), `harts` (the
//! harts that terms name), `holding` (whether a condition holds of an outcome).
#![tactic(auto)]

mod at_name;
mod condition;
mod harts;
mod holding;
mod list;
mod naming;
mod outer;
mod parsing;
mod placed;
mod printed;
mod put;
mod question;
mod quoted;
mod refused;
mod relation;
mod sign;
mod term;
mod watched;
mod watching;
mod width;

pub use condition::{Condition, Joint, MOST_LEVELS, MOST_TERMS, Terms, terms_of};
pub use harts::absent_hart;
pub use holding::holds;
pub use list::{WatchList, read_watch_list};
pub use naming::name_asked;
pub use parsing::read_condition;
pub use question::{Answer, Question};
pub use refused::{ConditionRefused, Expected, QueryRefused};
pub use relation::Relation;
pub use term::{Harts, Term};
pub use watched::{Asked, Watched};
pub use watching::{Columns, columns_of, watch_of, with_terms};
