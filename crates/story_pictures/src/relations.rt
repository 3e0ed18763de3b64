//! Which read found which write, which write nobody found, and where harts are stuck.

ghost use Rattle.std.specs.Prelude.{◌≡◌, ◌<◌, ◌==◌, find, length, option_copied};
ghost use Rattle.stories.specs.declared.row.Row.{Row as RowView};
ghost use Rattle.std.specs.List.{list_any};
ghost use Rattle.story_pictures.specs.Accesses.{touches_byte, writes_byte};
ghost use Rattle.story_pictures.specs.Relations.{finds, gives, gives_at, is_gone, is_gone_at};
ghost use Rattle.story_pictures.specs.Relations.{is_end, is_over, is_overwritten, is_stuck, reads_from};

use crate::accesses::{byte_at, found_span, reads_byte, touches_byte, writes_byte};
use stories::{Deed, Row, written_span};

/// Whether a read found a byte of a write: the row at `index` of those before the read.
pub fn reads_from(earlier: &[Row], index: usize, write: &Row, read: &Row) -> bool
    requires { index < length earlier.now }
    ensures { result ≡ reads_from earlier.now index write.now read.now }
{
    finds(&earlier[index + 1..], write, read)
}

fn finds(between: &[Row], write: &Row, read: &Row) -> bool
    ensures { result ≡ finds between.now write.now read.now }
{
    gives_at(between, write, read, 0)
        || gives_at(between, write, read, 1)
        || gives_at(between, write, read, 2)
        || gives_at(between, write, read, 3)
}

fn gives_at(between: &[Row], write: &Row, read: &Row, place: u32) -> bool
    ensures { result ≡ gives_at between.now write.now read.now place }
{
    gives(between, write, byte_at(found_span(&read.deed), place))
}

fn gives(between: &[Row], write: &Row, byte: Option<u64>) -> bool
    ensures { result ≡ gives between.now write.now byte }
{
    let Some(byte) = byte else {
        return false;
    };
    writes_byte(byte, write) && !is_written(between, byte)
}

fn is_written(rows: &[Row], byte: u64) -> bool
    ensures { result ≡ list_any (writes_byte byte) rows.now }
{
    rows.iter().any(|row| writes_byte(byte, row))
}

/// Whether a row is a write that was written over before anyone read it; `later` are the rows behind it.
pub fn is_overwritten(later: &[Row], write: &Row) -> bool
    ensures { result ≡ is_overwritten later.now write.now }
{
    written_span(&write.deed).is_some()
        && is_gone_at(later, write, 0)
        && is_gone_at(later, write, 1)
        && is_gone_at(later, write, 2)
        && is_gone_at(later, write, 3)
}

fn is_gone_at(later: &[Row], write: &Row, place: u32) -> bool
    ensures { result ≡ is_gone_at later.now write.now place }
{
    is_gone(later, byte_at(written_span(&write.deed), place))
}

fn is_gone(later: &[Row], byte: Option<u64>) -> bool
    ensures { result ≡ is_gone later.now byte }
{
    let Some(byte) = byte else {
        return true;
    };
    match first_touch(later, byte) {
        Some(row) => !reads_byte(byte, row),
        None => false,
    }
}

fn first_touch(rows: &[Row], byte: u64) -> Option<&Row>
    ensures { option_copied result ≡ find (touches_byte byte) rows.now }
{
    rows.iter().find(|row| touches_byte(byte, row))
}

/// Whether a row is the last of a hart that goes on; `later` are the rows behind it.
pub fn is_stuck(later: &[Row], row: &Row) -> bool
    ensures { result ≡ is_stuck later.now row.now }
{
    !is_end(&row.deed) && !has_row_of(later, row.hart)
}

/// Whether a hart goes on no more behind this.
fn is_end(deed: &Deed) -> bool
    ensures { result ≡ is_end deed.now }
{
    match *deed {
        Deed::Ended(_) | Deed::Stopped(_) => true,
        _ => false,
    }
}

fn has_row_of(rows: &[Row], hart: u8) -> bool
    ensures { result ≡ list_any (λ (row : RowView). row.hart == hart) rows.now }
{
    rows.iter().any(|row| row.hart == hart)
}
