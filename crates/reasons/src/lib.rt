//! Why a core can't make a step that is asked of it. Nothing is changed by asking.
//!
//! Read in this order: `reason` (what a reason is), `text` (its words), `asks` (the reason of each ask), `laws` (that
//! reasons are exact); then how they are found: `looks` (what a core has of an actor and a hart),
//! `fetching`, `harts`, `units`.
#![tactic(auto)]

mod asks;
mod fetching;
mod harts;
pub mod laws;
mod looks;
pub mod reason;
mod text;
mod units;

pub use asks::{
    complete_reason, decode_reason, fetch_reason, issue_reason, rename_reason, retire_reason,
};
pub use reason::{Progress, Reason};
