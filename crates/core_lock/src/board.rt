//! A board of words, by which the threads of a run see how far the others are: a count for each
//! actor that there may be, and a word that says whether to stop and why.
//!
//! Each call is a few single atomic steps on the words, and returns whatever other threads do. `rest`
//! alone takes the handle `Wait`, and sleeps: no longer than it is told, and no longer than nobody asks
//! to stop. The others can't wait for a lock: a board behind a mutex can't be had.
//!
//! Read in this order: `reason` (why a run stops), `knowledge` (what a seat knows of the words, the
//! rule that the words keep, and what each step tells), `seat` (who may write which word), `view`
//! (what a reader sees), `calls` (what can be done with a board).

ghost use Rattle.std.specs.Prelude.{◌≡◌};
ghost use Rattle.core_lock.specs.Knowledge.{board_words};

mod calls;
pub mod knowledge;
pub mod reason;
pub mod seat;
pub mod view;

use atomic_table::Table;
use knowledge::{BoardRule, Knowledge};
use numbers::sizes::MOST_ACTORS;
pub use reason::Reason;
pub use seat::Seat;
use std::alloc::Global;
pub use view::BoardView;

/// How many words a board has: a count for each actor, and the stop word.
pub const BOARD_WORDS: usize = MOST_ACTORS + 1;

/// Words that many threads may write and read at once.
#[derive(Drop)]
pub struct Board {
    table: Table<u8, Knowledge, (), BoardRule, Global>,
    ghost sized: { table.shared.table_id.words ≡ board_words },
    ghost no_slots: { table.shared.table_id.slots ≡ 0 },
}
