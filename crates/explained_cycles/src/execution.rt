//! An execution that comes, as boxes and arrows: a row for each access in its order, po to the next one of its hart,
//! rf to each read, co from each write to the next one of its bytes, and fr from each read to the next write of its
//! bytes.

use crate::names::Naming;
use crate::scene::{Arrow, Heading, Scene, Shape, mark, none_of, start_text};
use litmus_cycles::Relation;
use litmus_runs::word_of;
use litmus_tests::{LitmusTest, Value};
use std::alloc::Global;
use std::io;
use std::io::Write;
use stories::{Deed, Row, Span, read_span, written_span};
use story_text::name_of;

/// What is drawn of the rows of a story: its accesses. `sentence` stands above all, `line` is the state at the end.
pub(crate) fn scene_of(
    test: &LitmusTest,
    rows: &[Row],
    sentence: &[u8],
    line: &[u8],
    alloc: Global,
) -> io::Result<Scene> {
    let accesses = accesses_of(rows, alloc)?;
    Ok(Scene {
        heading: heading_of(test, sentence, alloc)?,
        columns: test.threads.len(),
        shapes: shapes_of(test, accesses.as_slice(), alloc)?,
        arrows: arrows_of(accesses.as_slice(), alloc)?,
        start: start_of(test, accesses.as_slice(), alloc)?,
        end: end_of(line, alloc)?,
    })
}

fn heading_of(test: &LitmusTest, sentence: &[u8], alloc: Global) -> io::Result<Heading> {
    let mut name = Vec::new(alloc);
    name.write_all(test.name.as_slice())?;
    let mut told = Vec::new(alloc);
    told.write_all(without_end(sentence))?;
    let mut way = Vec::new(alloc);
    way.write_all(
        b"time goes down; an access has its number in the order, and its row in the story",
    )?;
    Ok(Heading {
        name,
        sentence: told,
        way,
    })
}

/// A line without the newline at its end.
fn without_end(line: &[u8]) -> &[u8] {
    match line.split_last() {
        Some((last, before)) if *last == b'\n' => before,
        _ => line,
    }
}

fn end_of(line: &[u8], alloc: Global) -> io::Result<Vec<u8>> {
    let mut end = Vec::new(alloc);
    end.write_all(b"end ")?;
    end.write_all(without_end(line))?;
    Ok(end)
}

/// The rows that access memory.
fn accesses_of(rows: &[Row], alloc: Global) -> io::Result<Vec<Row>> {
    let mut accesses = Vec::new(alloc);
    for row in rows {
        if span_of(&row.deed).is_some() {
            accesses.push(*row)?;
        }
    }
    Ok(accesses)
}

/// The bytes that a step accesses, also where it is an SC that fails.
fn span_of(deed: &Deed) -> Option<Span> {
    if let Deed::Failed { addr } = *deed {
        return Some(Span { addr, size: 4 });
    }
    match read_span(deed) {
        Some(span) => Some(span),
        None => written_span(deed),
    }
}

/// The bytes whose number a step has found: an AMO finds that of the word that it writes.
fn found_span(deed: &Deed) -> Option<Span> {
    match *deed {
        Deed::Atomic { .. } => written_span(deed),
        _ => read_span(deed),
    }
}

fn shapes_of(test: &LitmusTest, accesses: &[Row], alloc: Global) -> io::Result<Vec<Shape>> {
    let mut shapes = Vec::new(alloc);
    for (index, row) in accesses.iter().enumerate() {
        shapes.push(shape_of(test, index, row, alloc)?)?;
    }
    Ok(shapes)
}

fn shape_of(test: &LitmusTest, index: usize, row: &Row, alloc: Global) -> io::Result<Shape> {
    let mut title = Vec::new(alloc);
    write!(&mut title, "{}: ", index.saturating_add(1))?;
    write_deed(test, &row.deed, &mut title)?;
    let mut below = Vec::new(alloc);
    write!(&mut below, "{} in row {}", name_of(&row.deed), row.number)?;
    Ok(Shape {
        column: usize::from(row.hart),
        row: index,
        title,
        below,
    })
}

/// Writes what a step does with memory, as it is written of an event.
fn write_deed<W: Write>(test: &LitmusTest, deed: &Deed, out: &mut W) -> io::Result<()> {
    match *deed {
        Deed::Loaded { addr, number, .. } | Deed::Reserved { addr, number } => {
            write_access(test, b"R ", addr, number, out)
        }
        Deed::Stored { addr, number, .. } | Deed::Conditional { addr, number } => {
            write_access(test, b"W ", addr, number, out)
        }
        Deed::Atomic { addr, old, new, .. } => {
            write_access(test, b"RW ", addr, old, out)?;
            out.write_all(b" ")?;
            test.write_number(new, out)
        }
        Deed::Failed { addr } => {
            out.write_all(b"F ")?;
            write_place(test, addr, out)
        }
        Deed::Out(_) | Deed::Ended(_) | Deed::Stopped(_) => Ok(()),
    }
}

fn write_access<W: Write>(
    test: &LitmusTest,
    kind: &[u8],
    addr: u32,
    number: u32,
    out: &mut W,
) -> io::Result<()> {
    out.write_all(kind)?;
    write_place(test, addr, out)?;
    out.write_all(b" ")?;
    test.write_number(number, out)
}

/// Writes the location that begins at an address; else the address as a number is written.
fn write_place<W: Write>(test: &LitmusTest, addr: u32, out: &mut W) -> io::Result<()> {
    match word_at(test, addr) {
        Some(word) if addr % 4 == 0 => test.write_location(word, out),
        _ => test.write_number(addr, out),
    }
}

/// The word of the locations in which an address lies.
fn word_at(test: &LitmusTest, addr: u32) -> Option<usize> {
    let word = addr.wrapping_sub(word_of(Value::Address(0))) as usize / 4;
    if word < test.words.len() {
        return Some(word);
    }
    None
}

fn start_of(test: &LitmusTest, accesses: &[Row], alloc: Global) -> io::Result<Vec<u8>> {
    let mut accessed = none_of(test, alloc)?;
    for row in accesses {
        mark_accessed(test, row, &mut accessed);
    }
    start_text(test, test, accessed.as_slice(), alloc)
}

fn mark_accessed(test: &LitmusTest, row: &Row, accessed: &mut Vec<bool>) {
    let Some(span) = span_of(&row.deed) else {
        return;
    };
    if let Some(word) = word_at(test, span.addr) {
        mark(accessed, word);
    }
}

fn arrows_of(accesses: &[Row], alloc: Global) -> io::Result<Vec<Arrow>> {
    let mut arrows = Vec::new(alloc);
    for (to, row) in accesses.iter().enumerate() {
        let earlier = &accesses[..to];
        push_sources(earlier, row, to, &mut arrows)?;
        push_before(earlier, row, to, &mut arrows)?;
    }
    Ok(arrows)
}

/// rf from each write of which a read has found a byte, and from the start.
fn push_sources(earlier: &[Row], row: &Row, to: usize, arrows: &mut Vec<Arrow>) -> io::Result<()> {
    let Some(read) = found_span(&row.deed) else {
        return Ok(());
    };
    if is_of_start(earlier, read) {
        arrows.push(arrow(None, Relation::ReadsFrom, to))?;
    }
    for (from, write) in earlier.iter().enumerate() {
        let between = &earlier[from + 1..];
        if has_found(between, write, read) {
            arrows.push(arrow(Some(from), Relation::ReadsFrom, to))?;
        }
    }
    Ok(())
}

/// po from the access of its hart before it; co from the write of its bytes before it; fr from each read of its bytes
/// since that.
fn push_before(earlier: &[Row], row: &Row, to: usize, arrows: &mut Vec<Arrow>) -> io::Result<()> {
    let written = written_span(&row.deed);
    for (from, before) in earlier.iter().enumerate() {
        let between = &earlier[from + 1..];
        if before.hart == row.hart && !has_hart(between, row.hart) {
            arrows.push(arrow(Some(from), Relation::ProgramOrder, to))?;
        }
        if let Some(relation) = overwrites(between, before, written) {
            arrows.push(arrow(Some(from), relation, to))?;
        }
    }
    Ok(())
}

fn arrow(from: Option<usize>, relation: Relation, to: usize) -> Arrow {
    Arrow {
        from,
        relation,
        to,
        is_thick: false,
    }
}

fn has_hart(rows: &[Row], hart: u8) -> bool {
    rows.iter().any(|row| row.hart == hart)
}

/// How an access is related to the next write of its bytes, if that is this one: co where it writes them, fr where it
/// reads.
fn overwrites(between: &[Row], before: &Row, written: Option<Span>) -> Option<Relation> {
    let written = written?;
    let own = written_span(&before.deed);
    let span = match own {
        Some(span) => span,
        None => found_span(&before.deed)?,
    };
    if !meets(span, written) || is_written(between, span) {
        return None;
    }
    Some(match own {
        Some(_) => Relation::Coherence,
        None => Relation::FromRead,
    })
}

/// Whether some of these write a byte of a span.
fn is_written(rows: &[Row], span: Span) -> bool {
    for row in rows {
        if let Some(written) = written_span(&row.deed) {
            if meets(span, written) {
                return true;
            }
        }
    }
    false
}

fn meets(a: Span, b: Span) -> bool {
    ends_behind(a, b.addr) && ends_behind(b, a.addr)
}

fn ends_behind(span: Span, addr: u32) -> bool {
    u64::from(addr) < u64::from(span.addr).saturating_add(u64::from(span.size))
}

/// Whether a read has found a byte of a write behind which these come.
fn has_found(between: &[Row], write: &Row, read: Span) -> bool {
    let Some(written) = written_span(&write.deed) else {
        return false;
    };
    for place in 0..read.size {
        let byte = byte_of(read, place);
        if meets(byte, written) && !is_written(between, byte) {
            return true;
        }
    }
    false
}

/// Whether a read has found a byte that none of these has written.
fn is_of_start(earlier: &[Row], read: Span) -> bool {
    for place in 0..read.size {
        if !is_written(earlier, byte_of(read, place)) {
            return true;
        }
    }
    false
}

fn byte_of(span: Span, place: u8) -> Span {
    Span {
        addr: span.addr.wrapping_add(u32::from(place)),
        size: 1,
    }
}
