//! The names of a program: the functions, objects and labels of an image's table of symbols, where it has one.
//!
//! Whatever is damaged in a table, the image stays what it is: `read` says so, and there are no names.
//!
//! Read in this order: `sections` (where the table lies), `symbol` (one of its entries), `reading` (all of them),
//! `naming` (the name of an address), `parts` (the file of a local symbol), `meanings` (what a name stands for).
#![tactic(auto)]

mod meanings;
mod naming;
mod parts;
mod reading;
mod sections;
mod symbol;

pub use meanings::{Meaning, Name, meaning_of, namesakes};
pub use naming::{Place, covers, name_at};
pub use parts::file_of;
pub use reading::{Symbols, Unread, read};
pub use symbol::Symbol;
