//! Searches for all outcomes of a program's words, for the tests that look at what they find. A function that owns what
//! was found has a long proof: so few do, and the others borrow it.

use arrayvec::ArrayVec;
use elf_image::Image;
use outcomes::{Outcomes, find_outcomes};
use reductions::Without;
use std::alloc::Global;
use test_support::{file_of, image_of};
use watched_outcomes::Watch;

/// The image of these words, which may not be written.
pub fn image_with(words: &[u32], alloc: Global) -> Option<Image> {
    let file = file_of(words, 0, alloc).ok()?;
    image_of(file.as_slice(), 65536, alloc)
}

/// Nothing is watched.
pub fn watching_nothing() -> Watch {
    Watch {
        registers: ArrayVec::new(),
        words: ArrayVec::new(),
    }
}

/// What is found of these words, with all reductions.
pub fn found_of(
    words: &[u32],
    harts: u8,
    watch: &Watch,
    budget: u32,
    alloc: Global,
) -> Option<Outcomes> {
    let image = image_with(words, alloc)?;
    find_outcomes(
        &image,
        harts,
        watch,
        budget,
        Without::none(),
        &(),
        &(),
        alloc,
    )
    .ok()
}
