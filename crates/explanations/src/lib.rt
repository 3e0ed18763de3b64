//! Why a configuration or an image is refused, and what is in one that is accepted, in lines for a
//! person.
//!
//! Read in this order: `lines`, `place` (where something stands in a text), `near` (which name was meant),
//! `settings_text`, `config_fault` and `config` (what is said of a configuration); `headers` (the segments that a file
//! names), `segments`, `names` (of its program), `check_words`, `file_fault`, `enough_ram`, `segment_fault` and `image`
//! (what is said of an image).
#![tactic(auto)]

mod check_words;
mod config;
mod config_fault;
mod enough_ram;
mod file_fault;
mod headers;
mod image;
mod lines;
mod names;
mod near;
mod place;
mod segment_fault;
mod segments;
mod settings_text;

pub use check_words::words_of_check;
pub use config::{ConfigExplained, explain_config};
pub use image::{ImageExplained, explain_image};
pub use lines::{joined, no_memory};
