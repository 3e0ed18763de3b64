//! The last rows told, and what they say of the next one.

ghost use Rattle.std.specs.Prelude.{◌≡◌, List, [], ◌∷◌, find, position, length, IfSome, ◌<◌};
ghost use Rattle.std.specs.List.{before_first};
ghost use Rattle.stories.specs.Notes.{HasKept, again, is_access_by, is_write_of_another, last_access, last_write_since};
ghost use Rattle.stories.specs.Notes.{lost_update, newest, note_of};
ghost use Rattle.stories.specs.declared.row.Row.{Row as RowView};

use crate::deed::Deed;
use crate::row::Row;
use crate::span::{
    Span, has_read, meets, read_span, span_accessed, store_size, word_at, written_span,
};

/// How many rows are kept.
const KEPT_ROWS: usize = 256;

/// What earlier rows make of a step.
#[derive(Clone, Copy, Drop)]
pub enum Note {
    /// This row took the reservation that an SC has missed.
    Taken(Row),
    /// A lost update: a store overwrites what another hart has written since this one read there.
    Overwrites {
        /// The hart's last access.
        read: Row,
        /// The last write of another hart behind it.
        write: Row,
    },
    /// An ABA: an LR reads the number that its hart has read there before, though another hart has written since.
    Again {
        /// The hart's last access.
        read: Row,
        /// The last write of another hart behind it.
        write: Row,
    },
}

/// The last 256 rows told. It takes no memory.
#[derive(Clone, Copy, Drop)]
pub struct Recent {
    /// The newest first.
    pub(crate) rows: [Row; KEPT_ROWS],
    /// How many of them were told.
    pub(crate) count: usize,
}

impl Recent {
    /// No row was told yet.
    pub fn new() -> Recent
        ensures { HasKept [] result }
    {
        Recent {
            rows: [Row {
                number: 0,
                hart: 0,
                pc: 0,
                deed: Deed::Ended(0),
            }; KEPT_ROWS],
            count: 0,
        }
    }

    /// The next row is told.
    pub fn hear(&mut self, row: &Row)
        ensures { (past : List RowView) → HasKept past self.old → HasKept (row.now ∷ past) self.new }
    {
        self.rows.copy_within(..KEPT_ROWS - 1, 1);
        self.rows[0] = *row;
        if self.count < KEPT_ROWS {
            self.count += 1;
        }
    }

    /// What the rows told so far make of a hart's next step: of a store a lost update, of an LR an ABA. None where it
    /// is neither.
    pub fn note_of(&self, hart: u8, deed: &Deed) -> Option<Note>
        ensures { (past : List RowView) → HasKept past self.now → result ≡ note_of hart deed.now past }
    {
        let rows = self.newest();
        match *deed {
            Deed::Stored { op, addr, .. } => lost_update(
                rows,
                hart,
                Span {
                    addr,
                    size: store_size(op),
                },
            ),
            Deed::Reserved { addr, number } => again(rows, hart, addr, number),
            _ => None,
        }
    }

    /// The rows that are kept, the newest first.
    fn newest(&self) -> &[Row]
        ensures { (past : List RowView) → HasKept past self.now → result.now ≡ newest past }
    {
        &self.rows[..self.count.min(KEPT_ROWS)]
    }
}

/// Whether a store of a hart to these bytes loses an update: the hart's last access of them was a read, and another
/// hart has written to them behind that.
fn lost_update(rows: &[Row], hart: u8, span: Span) -> Option<Note>
    ensures { result ≡ lost_update hart span rows.now }
{
    let read = last_access(rows, hart, span)?;
    let write = last_write_since(rows, hart, span)?;
    if read_span(&read.deed).is_none() {
        return None;
    }
    Some(Note::Overwrites { read, write })
}

/// Whether a hart's LR that reads this number is an ABA: the hart's last access of the word has read the same, and
/// another hart has written to the word behind that.
fn again(rows: &[Row], hart: u8, addr: u32, number: u32) -> Option<Note>
    ensures { result ≡ again hart addr number rows.now }
{
    let read = last_access(rows, hart, word_at(addr))?;
    let write = last_write_since(rows, hart, word_at(addr))?;
    if !has_read(addr, number, &read.deed) {
        return None;
    }
    Some(Note::Again { read, write })
}

/// The last row in which a hart accesses one of these bytes.
fn last_access(rows: &[Row], hart: u8, span: Span) -> Option<Row>
    ensures { result ≡ last_access hart span rows.now }
{
    rows.iter()
        .copied()
        .find(|row| is_access_by(hart, span, row))
}

/// The last row behind that one in which another hart has written to one of them.
fn last_write_since(rows: &[Row], hart: u8, span: Span) -> Option<Row>
    ensures { result ≡ last_write_since hart span rows.now }
{
    last_write(rows_since(rows, hart, span), hart, span)
}

/// The last row in which another hart has written to one of these bytes.
fn last_write(rows: &[Row], hart: u8, span: Span) -> Option<Row>
    ensures { result ≡ find (is_write_of_another hart span) rows.now }
{
    rows.iter()
        .copied()
        .find(|row| is_write_of_another(hart, span, row))
}

/// The rows behind a hart's last access of these bytes: all, where there is none.
fn rows_since(rows: &[Row], hart: u8, span: Span) -> &[Row]
    ensures { result.now ≡ before_first (is_access_by hart span) rows.now }
{
    match place_of_access(rows, hart, span) {
        Some(place) => &rows[..place],
        None => rows,
    }
}

fn place_of_access(rows: &[Row], hart: u8, span: Span) -> Option<usize>
    ensures place { result ≡ position (is_access_by hart span) rows.now }
    ensures inside { IfSome result (λ place. place < length rows.now) }
{
    rows.iter().position(|row| is_access_by(hart, span, row))
}

fn is_access_by(hart: u8, span: Span, row: &Row) -> bool
    ensures { result ≡ is_access_by hart span row.now }
{
    row.hart == hart && meets(span, span_accessed(&row.deed))
}

fn is_write_of_another(hart: u8, span: Span, row: &Row) -> bool
    ensures { result ≡ is_write_of_another hart span row.now }
{
    row.hart != hart && meets(span, written_span(&row.deed))
}
