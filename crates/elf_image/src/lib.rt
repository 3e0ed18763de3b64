//! Program images: what memory holds as the harts start, where the code is, and the entry. `load`
//! makes an `Image` of an ELF32 file, or says which check the file fails first; `write` makes a
//! file of an image, by which tests write what the program is to read.
//!
//! Read in this order: `fields` (numbers in bytes), `ram_size`, `segment`, `image`; `refusal`,
//! `file_header`, `program_header`, `checks`, `loader`; `writer`.
#![tactic(auto)]

mod checks;
mod fields;
mod file_header;
mod image;
mod loader;
pub mod program_header;
mod ram_size;
mod refusal;
mod segment;
mod writer;

pub use fields::{read_half, read_word};
pub use image::Image;
pub use loader::load;
pub use program_header::{LOADABLE, ProgramHeader, read_header};
pub use ram_size::{RAM_START, RamSize};
pub use refusal::LoadRefused;
pub use segment::Segment;
pub use writer::write;
