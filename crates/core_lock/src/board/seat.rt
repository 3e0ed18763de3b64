ghost use Rattle.std.specs.Prelude.{◌≡◌, ◌<◌, ◌≤◌, slice_index, length};
ghost use Rattle.core_lock.specs.Knowledge.{board_words, stop_word};

use crate::board::knowledge::Knowledge;

/// A thread's right to step on one board: to write the word of its place, and to look at all. It
/// can't be made but with the board.
#[derive(Drop)]
pub struct Seat {
    pub(crate) place: u8,
    pub(crate) posted: u64,
    pub(crate) token: atomic_table::Seat<u8, Knowledge>,
    ghost inside: { place < board_words },
    ghost sized: { length token.me.0.seen ≡ board_words },
    ghost begins: { token.me.0.first ≡ place },
    ghost ends: { place < token.me.0.end },
    ghost counted: { place < stop_word → slice_index token.me.0.seen place ≡ posted },
    ghost asked: { token.me.0.asked ≤ slice_index token.me.0.seen stop_word },
}

impl Seat {
    /// Its place, below `BOARD_WORDS`. The seats of actors have the places below `MOST_ACTORS`.
    pub fn place(&self) -> u8
        ensures place { result ≡ self.now.place }
        ensures inside { result < board_words }
    {
        self.place
    }

    /// The count that it has posted last; 0 where it has posted none.
    pub fn posted(&self) -> u64
        ensures { result ≡ self.now.posted }
    {
        self.posted
    }
}
