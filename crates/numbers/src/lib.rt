//! The numbers by which a core names its parts, and how many of each it may have.
//!
//! Read in this order: `names` (what a number stands for), `sizes` (how many there may be),
//! `layout` (which physical register is whose at the start).
#![tactic(auto)]

mod layout;
mod names;
pub mod sizes;

pub use layout::{first_extra, first_register};
pub use names::{Phys, Reg, Seq};
