//! How a story is told.

use address_labels::Labels;
use symbols::Symbols;

/// How a story is told.
#[derive(Clone, Copy, Drop)]
pub struct StoryForm<'a> {
    /// How many harts there are: each has a column.
    pub harts: u8,
    /// Whether each step has a row, and not just those that other harts can see.
    pub all: bool,
    /// The names of the program, by which places in memory are shown.
    pub names: &'a Symbols<'a>,
    /// What is wanted behind each row, beside the pc of its instruction.
    pub labels: Labels<'a>,
}
