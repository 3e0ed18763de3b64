//! Who took a reservation, among the rows told so far.

ghost use Rattle.std.specs.Prelude.{◌≡◌, ◌<◌, ◌==◌, if◌then◌else◌, ℕ, List, [], ◌∷◌, length, slice_index_or};
ghost use Rattle.numbers.specs.Sizes.{most_harts};
ghost use Rattle.stories.specs.Takers.{HasHeard, taker, takes_some, writes_at};
ghost use Rattle.stories.specs.Takers.{reserves_of, taken_heard, watch_heard};
ghost use Rattle.stories.specs.declared.row.Row.{Row as RowView};
ghost use Rattle.stories.specs.declared.teller.Watch.{Watch as WatchView};

use crate::deed::Deed;
use crate::row::Row;
use numbers::sizes::{HART_ROOM, MOST_HARTS};

/// What is kept of the rows told so far, to say who took a reservation: of each hart the word that its last LR has
/// reserved, and the first row behind that which wrote to the word. It takes no memory.
#[derive(Clone, Copy, Drop)]
pub struct Teller {
    pub(crate) watches: [Watch; HART_ROOM],
}

/// What is kept for one hart.
#[derive(Clone, Copy, Drop)]
pub(crate) struct Watch {
    /// The address that its last LR has reserved, if there was one.
    pub(crate) word: Option<u32>,
    /// The first row behind that which wrote to the word.
    pub(crate) taken: Option<Row>,
}

impl Teller {
    /// No row was told yet.
    pub fn new() -> Teller
        ensures { HasHeard [] result }
    {
        Teller {
            watches: [Watch {
                word: None,
                taken: None,
            }; HART_ROOM],
        }
    }

    /// The next row is told.
    pub fn hear(&mut self, row: &Row)
        ensures { (past : List RowView) → HasHeard past self.old → HasHeard (row.now ∷ past) self.new }
    {
        for hart in 0..MOST_HARTS {
            hear_of(&mut self.watches, hart, row);
        }
    }

    /// The row that took a hart's reservation of the word at an address: the first behind its last LR that wrote to
    /// the word. None where its last LR was of another address, where it made none, and where nothing was written.
    pub fn taker(&self, hart: u8, addr: u32) -> Option<Row>
        requires { hart < most_harts }
        ensures { (past : List RowView) → HasHeard past self.now → result ≡ taker hart addr past }
    {
        let watch = self.watches[usize::from(hart)];
        if watch.word != Some(addr) {
            return None;
        }
        watch.taken
    }
}

/// One hart's part of what is kept once a row was told.
fn hear_of(watches: &mut [Watch; HART_ROOM], hart: u8, row: &Row)
    requires { hart < most_harts }
    ensures length { length watches.new ≡ length watches.old }
    ensures each { (h : ℕ) (d : WatchView) → slice_index_or watches.new h d
        ≡ (if h == hart then watch_heard hart row.now (slice_index_or watches.old h d)
        else slice_index_or watches.old h d) }
{
    let index = usize::from(hart);
    watches[index] = watch_heard(watches[index], hart, row);
}

/// What is kept for a hart once a row was told.
fn watch_heard(watch: Watch, hart: u8, row: &Row) -> Watch
    ensures { result ≡ watch_heard hart row.now watch }
{
    if let Some(addr) = reserves(row, hart) {
        return Watch {
            word: Some(addr),
            taken: None,
        };
    }
    Watch {
        word: watch.word,
        taken: taken_heard(&watch, row),
    }
}

/// The first row that wrote to a reserved word, once a row was told.
fn taken_heard(watch: &Watch, row: &Row) -> Option<Row>
    ensures { result ≡ taken_heard watch.now.word row.now watch.now.taken }
{
    if watch.taken.is_some() {
        return watch.taken;
    }
    if takes(watch.word, row) {
        return Some(*row);
    }
    None
}

/// The address that a row has reserved as an LR of a hart.
fn reserves(row: &Row, hart: u8) -> Option<u32>
    ensures { result ≡ reserves_of hart row.now }
{
    if row.hart != hart {
        return None;
    }
    match row.deed {
        Deed::Reserved { addr, .. } => Some(addr),
        _ => None,
    }
}

/// Whether a row wrote to a reserved word, where one was reserved.
fn takes(word: Option<u32>, row: &Row) -> bool
    ensures { result ≡ takes_some word row.now }
{
    let Some(word) = word else {
        return false;
    };
    let Some(addr) = writes_at(row) else {
        return false;
    };
    addr - addr % 4 == word - word % 4
}

/// The address that a row wrote to.
fn writes_at(row: &Row) -> Option<u32>
    ensures { result ≡ writes_at row.now.deed }
{
    match row.deed {
        Deed::Stored { addr, .. } | Deed::Conditional { addr, .. } | Deed::Atomic { addr, .. } => {
            Some(addr)
        }
        _ => None,
    }
}
