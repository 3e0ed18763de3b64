//! What earlier rows make of a row: as the story's text says it.

ghost use Rattle.std.specs.Prelude.{◌≡◌, if◌then◌else◌, List, [], ◌∷◌, ◌++◌, Some, OnOk, codes, reverse};
ghost use Rattle.std.specs.Io.KnownBytes.{Appends};
ghost use Rattle.stories.specs.declared.row.Row.{Row as RowView};
ghost use Rattle.story_text.specs.Deeds.{reason_text, row_text, taker_text};
ghost use Rattle.story_pictures.specs.Notes.{
  HasNoted,
  NotesAreTold,
  again_words,
  has_words,
  is_fault,
  last_fault,
  lost_words,
  made_words,
  note_in,
  note_words,
  taker_in,
};

use crate::elements::write_number;
use numbers::sizes::MOST_HARTS;
use std::io;
use std::io::Write;
use stories::{Deed, Note, Recent, Row, Teller};
use story_text::name_of;

/// What is kept of the rows so far, to say what they make of the next one. It takes no memory.
#[derive(Clone, Copy, Drop)]
pub(crate) struct Noting {
    pub(crate) teller: Teller,
    pub(crate) recent: Recent,
}

impl Noting {
    /// There was no row yet.
    pub(crate) fn new() -> Noting
        ensures { HasNoted [] result }
    {
        Noting {
            teller: Teller::new(),
            recent: Recent::new(),
        }
    }

    /// What the rows so far make of the next one.
    pub(crate) fn note_of(&self, row: &Row) -> Option<Note>
        ensures { (past : List RowView) → HasNoted past self.now → result ≡ note_in past row.now }
    {
        match self.taker_of(row) {
            Some(taker) => Some(Note::Taken(taker)),
            None => self.recent.note_of(row.hart, &row.deed),
        }
    }

    /// The row that took the reservation that a row has missed.
    fn taker_of(&self, row: &Row) -> Option<Row>
        ensures { (past : List RowView) → HasNoted past self.now → result ≡ taker_in past row.now.hart row.now.deed }
    {
        match row.deed {
            Deed::Failed { addr } if row.hart < MOST_HARTS => self.teller.taker(row.hart, addr),
            _ => None,
        }
    }

    /// The next row is there.
    pub(crate) fn hear(&mut self, row: &Row)
        ensures { (past : List RowView) → HasNoted past self.old → HasNoted (row.now ∷ past) self.new }
    {
        self.teller.hear(row);
        self.recent.hear(row);
    }
}

/// The index of the last row that is a lost update or an ABA.
pub(crate) fn last_fault(rows: &[Row]) -> Option<usize>
    ensures { result ≡ last_fault (reverse rows.now) }
{
    let mut noting = Noting::new();
    let mut last = None;
    for (index, row) in rows.iter().enumerate() {
        last = later_fault(&noting.note_of(row), index, last);
        noting.hear(row);
    }
    last
}

/// The index of the last such row, where this is said of the row at `index`.
fn later_fault(note: &Option<Note>, index: usize, last: Option<usize>) -> Option<usize>
    ensures { result ≡ if is_fault note.now then Some index else last }
{
    if is_fault(note) {
        return Some(index);
    }
    last
}

/// Whether this is said of a lost update or an ABA.
fn is_fault(note: &Option<Note>) -> bool
    ensures { result ≡ is_fault note.now }
{
    match note {
        Some(Note::Overwrites { .. } | Note::Again { .. }) => true,
        _ => false,
    }
}

/// Whether something is said of a row: of an SC that fails in any case.
pub(crate) fn has_words(note: &Option<Note>, deed: &Deed) -> bool
    ensures { result ≡ has_words note.now deed.now }
{
    match *deed {
        Deed::Failed { .. } => true,
        _ => is_fault(note),
    }
}

/// Writes what is said of a row.
pub(crate) fn write_note<W: Write>(note: &Option<Note>, deed: &Deed, out: &mut W) -> io::Result<()>
    ensures { OnOk result (Appends (W.contents out.old) (W.contents out.new) (note_words note.now deed.now)) }
{
    match *deed {
        Deed::Failed { .. } => write_failing(note, out),
        _ => write_made(note, out),
    }
}

/// Writes why an SC has written nothing.
fn write_failing<W: Write>(note: &Option<Note>, out: &mut W) -> io::Result<()>
    ensures { OnOk result (Appends (W.contents out.old) (W.contents out.new)
        (codes "fails: " ++ reason_text note.now)) }
{
    out.write_all(b"fails: ")?;
    write_reason(note, out)
}

fn write_reason<W: Write>(note: &Option<Note>, out: &mut W) -> io::Result<()>
    ensures { OnOk result (Appends (W.contents out.old) (W.contents out.new) (reason_text note.now)) }
{
    match note {
        Some(Note::Taken(row)) => write_taker(row, out),
        _ => out.write_all(b"no reservation"),
    }
}

/// Writes which row took a reservation.
fn write_taker<W: Write>(row: &Row, out: &mut W) -> io::Result<()>
    ensures { OnOk result (Appends (W.contents out.old) (W.contents out.new) (taker_text row.now)) }
{
    write_row(row, out)?;
    out.write_all(b" took the reservation")
}

/// Writes which row it is: its hart, its mnemonic and its number.
fn write_row<W: Write>(row: &Row, out: &mut W) -> io::Result<()>
    ensures { OnOk result (Appends (W.contents out.old) (W.contents out.new) (row_text row.now)) }
{
    out.write_all(b"hart ")?;
    write_number(u64::from(row.hart), out)?;
    out.write_all(b"'s ")?;
    out.write_all(name_of(&row.deed).as_bytes())?;
    out.write_all(b" at row ")?;
    write_number(row.number, out)
}

/// Writes what earlier rows make of a row that does access memory.
fn write_made<W: Write>(note: &Option<Note>, out: &mut W) -> io::Result<()>
    ensures { OnOk result (Appends (W.contents out.old) (W.contents out.new) (made_words note.now)) }
{
    match note {
        Some(Note::Overwrites { read, write }) => write_lost_update(read, write, out),
        Some(Note::Again { read, write }) => write_again(read, write, out),
        _ => out.write_all(b""),
    }
}

fn write_lost_update<W: Write>(read: &Row, write: &Row, out: &mut W) -> io::Result<()>
    ensures { OnOk result (Appends (W.contents out.old) (W.contents out.new) (lost_words read.now write.now)) }
{
    out.write_all(b"lost update: row ")?;
    write_number(write.number, out)?;
    out.write_all(b" wrote since row ")?;
    write_number(read.number, out)
}

fn write_again<W: Write>(read: &Row, write: &Row, out: &mut W) -> io::Result<()>
    ensures { OnOk result (Appends (W.contents out.old) (W.contents out.new) (again_words read.now write.now)) }
{
    out.write_all(b"ABA: as in row ")?;
    write_number(read.number, out)?;
    out.write_all(b", though row ")?;
    write_number(write.number, out)?;
    out.write_all(b" wrote since")
}

/// What a picture says of a row is what the story's text says of it.
pub fn notes_are_told()
    ensures { NotesAreTold }
{}
