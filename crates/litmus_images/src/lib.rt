//! A litmus test as a program: the image in which every hart begins at the same entry, what is watched in its
//! ends, and what an end says of the test.
//!
//! Read in this order: `constants` (a number into a register), `steps` (those of one hart), `code` (all of it),
//! `image`; `watching` (what is watched), `holding` (whether the condition holds of an end).
#![tactic(auto)]

mod code;
mod constants;
mod holding;
mod image;
mod steps;
mod watching;

pub use holding::{holds_in, passes, value_in};
pub use image::image_of;
pub use watching::{harts_of, watch_of};
