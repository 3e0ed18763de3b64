//! One core behind one lock, and the board by which those who ask see one another without it. A
//! thread asks through its pass; what is asked, what is said and what each pass counts stands here.
//!
//! Read in this order: `ask` (what is asked and said), `tally` (what a history holds of one actor),
//! `origin` (which core it is), `reader` (what looks at a core), `idle` (how many asks found nothing to
//! do), `unlocked` (what is left at the end), `held` (what stands behind the lock, with the passes;
//! `held/passes` and `held/replies` read them out), `locked` (the lock), `board` (the words where each
//! actor posts its count).
#![tactic(auto)]

pub mod ask;
pub mod board;
pub mod held;
pub mod idle;
pub mod locked;
pub mod origin;
pub mod reader;
mod tally;
pub mod unlocked;

pub use ask::{Ask, Asked, Said};
pub use board::{BOARD_WORDS, Board, BoardView, Reason, Seat};
pub use held::{Held, Pass, Reply};
pub use idle::IdleAsks;
pub use locked::LockedCore;
pub use origin::Origin;
pub use reader::CoreReader;
pub use unlocked::Unlocked;
