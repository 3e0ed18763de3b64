//! The lines of an image's sources, as the file beside it has them that `image.sh -g` writes: of a word of the code its
//! address, a file, and the number of a line of it.
//!
//! Read in this order: `line` (one of them, and why it is refused), `reading` (those of a text), `looking` (that of an
//! address).
#![tactic(auto)]

mod line;
mod looking;
mod reading;

pub use line::{LineFault, SourceLine};
pub use reading::{LinesRefused, SourceLines, read_lines};
