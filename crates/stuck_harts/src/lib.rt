//! What the harts of a state do that has no way to an end: what each shows again and again while all go on in turns.
//!
//! That a state is stuck is told by a search of all states; nothing here says so. Whoever knows it reads here what each
//! hart waits for: the numbers that it reads, at the places that nobody is left to write.
//!
//! Read in this order: `turns` (all harts go on), `spins` (what one of them shows meanwhile), `line` (its text).
#![tactic(auto)]

mod line;
mod spins;
mod turns;

pub use line::{Unspun, tell_spin};
pub use spins::{MOST_SPINS, Spin, spins_of};
