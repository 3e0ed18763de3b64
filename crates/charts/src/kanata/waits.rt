//! For whose results an instruction has waited.

use super::id_of;
use chart_rows::Row;
use rv_decode::{Op, decode_op};
use std::io;
use std::io::Write;

/// Writes a line for each source for which an instruction has waited in the queue.
pub(crate) fn write_waits<W: Write>(
    rows: &[Row],
    ids: &[Option<u32>],
    seq: usize,
    id: u32,
    out: &mut W,
) -> io::Result<()> {
    let Some(row) = rows.get(seq) else {
        return Ok(());
    };
    let op = decode_op(row.word);
    let (first, second) = (op.rs1().unwrap_or(0), op.rs2().unwrap_or(0));
    write_wait(rows, ids, seq, id, first, out)?;
    if second == first {
        return Ok(());
    }
    write_wait(rows, ids, seq, id, second, out)
}

fn write_wait<W: Write>(
    rows: &[Row],
    ids: &[Option<u32>],
    seq: usize,
    id: u32,
    register: u8,
    out: &mut W,
) -> io::Result<()> {
    let Some(producer) = producer_of(rows, seq, register) else {
        return Ok(());
    };
    match id_of(ids, producer) {
        Some(its) => writeln!(out, "W\t{id}\t{its}\t0"),
        None => Ok(()),
    }
}

/// The instruction that writes a register of the hart of another one, as that was renamed, and hadn't
/// its number yet. x0 is written by none.
fn producer_of(rows: &[Row], seq: usize, register: u8) -> Option<usize> {
    let consumer = rows.get(seq)?;
    let renamed = consumer.renamed?;
    if register == 0 {
        return None;
    }
    for back in 0..seq {
        let older = seq - 1 - back;
        let row = rows.get(older)?;
        if row.hart == consumer.hart {
            if is_before(row.retired, renamed) {
                return None;
            }
            if !row.is_squashed_by(renamed) && decode_op(row.word).destination() == register {
                return if has_number_before(row, renamed) {
                    None
                } else {
                    Some(older)
                };
            }
        }
    }
    None
}

/// Whether a row's register had its number before this place: of most from the completion on, of an
/// atomic from the retirement on.
fn has_number_before(row: &Row, place: u32) -> bool {
    is_before(row.retired, place) || (row.value.is_some() && is_before(row.completed, place))
}

fn is_before(event: Option<u32>, place: u32) -> bool {
    match event {
        Some(at) => at < place,
        None => false,
    }
}
