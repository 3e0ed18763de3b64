//! The boxes of rows.

ghost use Rattle.std.specs.Prelude.{◌≡◌, ◌<◌, ◌≤◌, OnOk, length, reverse};
ghost use Rattle.std.specs.Io.KnownBytes.{Appends};
ghost use Rattle.symbols.specs.Tables.{table_of};
ghost use Rattle.address_labels.specs.Labels.{marks_of};
ghost use Rattle.story_pictures.specs.Form.{most_rows, plan_of};
ghost use Rattle.story_pictures.specs.Boxes.{
  boxes_text,
  class_if,
  count_text,
  frame_text,
  is_marked,
  kind_class,
  kind_of,
  look_class,
  look_classes,
  look_of,
  look_word,
  looks_text,
  mark_text,
  note_class,
  noted_text,
  pc_text,
  row_back,
  row_front,
  row_text,
  size_text,
  title_text,
  what_text,
};
ghost use Rattle.story_pictures.specs.Notes.{is_place, last_fault};

use crate::accesses::found_span;
use crate::elements::{write_close_text, write_number, write_open_text, write_place_attributes};
use crate::form::PictureForm;
use crate::geometry::{lane_left, lane_right, row_base, row_top};
use crate::notes::{Noting, has_words, last_fault, write_note};
use crate::relations::{is_overwritten, is_stuck};
use crate::words::{write_address, write_deed};
use address_labels::{Form, Labels, write_labels};
use std::io;
use std::io::Write;
use stories::{Deed, Note, Row, written_span};
use symbols::Symbols;

/// How a box looks: as a write that was overwritten before anyone read it, as where a stuck order ends, and as the one
/// that strikes the eye.
#[derive(Clone, Copy, Drop)]
pub(crate) struct Look {
    pub(crate) over: bool,
    pub(crate) stuck: bool,
    pub(crate) fault: bool,
}

/// Writes the boxes of all rows.
pub(crate) fn write_boxes<W: Write>(
    rows: &[Row],
    form: &PictureForm<'_, '_>,
    out: &mut W,
) -> io::Result<()>
    requires { length rows.now ≤ most_rows }
    ensures { OnOk result (Appends (W.contents out.old) (W.contents out.new)
        (boxes_text (plan_of form.now) rows.now)) }
{
    let fault = last_fault(rows);
    let mut noting = Noting::new();
    for (index, row) in rows.iter().enumerate() {
        let look = look_of(rows, form, fault, index, row);
        write_row(form, look, &noting.note_of(row), index, row, out)?;
        noting.hear(row);
    }
    Ok(())
}

/// How the box of the row at `index` looks; `fault` is the index of the one that strikes the eye.
fn look_of(
    rows: &[Row],
    form: &PictureForm<'_, '_>,
    fault: Option<usize>,
    index: usize,
    row: &Row,
) -> Look
    requires there { index < length rows.now }
    requires fault { fault ≡ last_fault (reverse rows.now) }
    ensures { result ≡ look_of (plan_of form.now) rows.now index row.now }
{
    let later = &rows[index + 1..];
    Look {
        over: is_overwritten(later, row),
        stuck: is_marked(form, later, row),
        fault: is_place(fault, index),
    }
}

fn is_place(place: Option<usize>, index: usize) -> bool
    ensures { result ≡ is_place place index }
{
    match place {
        Some(place) => place == index,
        None => false,
    }
}

/// Whether a stuck order ends in a row.
fn is_marked(form: &PictureForm<'_, '_>, later: &[Row], row: &Row) -> bool
    ensures { result ≡ is_marked (plan_of form.now) later.now row.now }
{
    form.is_stuck && is_stuck(later, row)
}

/// Writes the box of a row, and what stands beside it.
#[tactic(auto, unfolding(crate::specs::Boxes::row_text))]
fn write_row<W: Write>(
    form: &PictureForm<'_, '_>,
    look: Look,
    note: &Option<Note>,
    index: usize,
    row: &Row,
    out: &mut W,
) -> io::Result<()>
    requires { index ≤ most_rows }
    ensures { OnOk result (Appends (W.contents out.old) (W.contents out.new)
        (row_text (plan_of form.now) look note.now index row.now)) }
{
    write_row_front(form, look, index, row, out)?;
    write_row_back(form, look, note, index, row, out)
}

/// Writes the title of a row, its number and its frame.
#[tactic(auto, unfolding(crate::specs::Boxes::row_front))]
fn write_row_front<W: Write>(
    form: &PictureForm<'_, '_>,
    look: Look,
    index: usize,
    row: &Row,
    out: &mut W,
) -> io::Result<()>
    requires { index ≤ most_rows }
    ensures { OnOk result (Appends (W.contents out.old) (W.contents out.new)
        (row_front (plan_of form.now) look index row.now)) }
{
    write_title(form.names, &form.labels, row, out)?;
    write_count(row.number, index, out)?;
    write_frame(&row.deed, look, row.hart, index, out)
}

/// Writes what a row shows, and what stands beside it.
#[tactic(auto, unfolding(crate::specs::Boxes::row_back))]
fn write_row_back<W: Write>(
    form: &PictureForm<'_, '_>,
    look: Look,
    note: &Option<Note>,
    index: usize,
    row: &Row,
    out: &mut W,
) -> io::Result<()>
    requires { index ≤ most_rows }
    ensures { OnOk result (Appends (W.contents out.old) (W.contents out.new)
        (row_back (plan_of form.now) look note.now index row.now)) }
{
    write_what(form.names, &row.deed, row.hart, index, out)?;
    write_mark(look, note, &row.deed, row.hart, index, out)?;
    out.write_all(b"</g>\n")
}

/// Writes what a browser shows where one points at a row, and begins what belongs to that.
#[tactic(auto, unfolding(crate::specs::Boxes::title_text))]
fn write_title<W: Write>(
    names: &Symbols<'_>,
    labels: &Labels<'_>,
    row: &Row,
    out: &mut W,
) -> io::Result<()>
    ensures { OnOk result (Appends (W.contents out.old) (W.contents out.new)
        (title_text (table_of names.now) (marks_of labels.now) row.now)) }
{
    out.write_all(b"<g><title>")?;
    write_deed(&row.deed, names, out)?;
    out.write_all(b" at ")?;
    write_pc(labels, row.pc, out)
}

#[tactic(auto, unfolding(crate::specs::Boxes::pc_text))]
fn write_pc<W: Write>(labels: &Labels<'_>, pc: u32, out: &mut W) -> io::Result<()>
    ensures { OnOk result (Appends (W.contents out.old) (W.contents out.new)
        (pc_text (marks_of labels.now) pc)) }
{
    write_address(pc, out)?;
    write_labels(labels, Form::Drawn, pc, out)?;
    out.write_all(b"</title>\n")
}

/// Writes the number of a row, at the left of all lanes.
#[tactic(auto, unfolding(crate::specs::Boxes::count_text))]
fn write_count<W: Write>(number: u64, index: usize, out: &mut W) -> io::Result<()>
    requires { index ≤ most_rows }
    ensures { OnOk result (Appends (W.contents out.old) (W.contents out.new) (count_text number index)) }
{
    write_open_text("count", 46, row_base(index), out)?;
    write_number(number, out)?;
    write_close_text(out)
}

fn write_frame<W: Write>(
    deed: &Deed,
    look: Look,
    hart: u8,
    index: usize,
    out: &mut W,
) -> io::Result<()>
    requires { index ≤ most_rows }
    ensures { OnOk result (Appends (W.contents out.old) (W.contents out.new)
        (frame_text deed.now look hart index)) }
{
    out.write_all(b"<rect class=\"box")?;
    out.write_all(kind_of(deed).as_bytes())?;
    write_look_classes(look, out)?;
    write_size(hart, index, out)
}

#[tactic(auto, unfolding(crate::specs::Boxes::look_classes))]
fn write_look_classes<W: Write>(look: Look, out: &mut W) -> io::Result<()>
    ensures { OnOk result (Appends (W.contents out.old) (W.contents out.new) (look_classes look)) }
{
    write_class_if(look.over, " over", out)?;
    write_class_if(look.stuck, " stuck", out)?;
    write_class_if(look.fault, " fault", out)
}

fn write_class_if<W: Write>(holds: bool, class: &str, out: &mut W) -> io::Result<()>
    ensures { OnOk result (Appends (W.contents out.old) (W.contents out.new) (class_if holds class.now)) }
{
    if holds {
        return out.write_all(class.as_bytes());
    }
    out.write_all(b"")
}

/// Writes where a box stands, and its size.
fn write_size<W: Write>(hart: u8, index: usize, out: &mut W) -> io::Result<()>
    requires { index ≤ most_rows }
    ensures { OnOk result (Appends (W.contents out.old) (W.contents out.new) (size_text hart index)) }
{
    out.write_all(b"\" ")?;
    write_place_attributes(lane_left(hart), row_top(index), out)?;
    out.write_all(b" width=\"320\" height=\"24\" rx=\"4\"/>\n")
}

/// The class of a box, by whether its row reads and writes.
fn kind_of(deed: &Deed) -> &'static str
    ensures { result.now ≡ kind_of deed.now }
{
    kind_class(found_span(deed).is_some(), written_span(deed).is_some())
}

fn kind_class(reads: bool, writes: bool) -> &'static str
    ensures { result.now ≡ kind_class reads writes }
{
    match (reads, writes) {
        (true, true) => " both",
        (true, false) => " reads",
        (false, true) => " writes",
        (false, false) => "",
    }
}

/// Writes what a row shows, in its box, at whose edge a longer text ends.
fn write_what<W: Write>(
    names: &Symbols<'_>,
    deed: &Deed,
    hart: u8,
    index: usize,
    out: &mut W,
) -> io::Result<()>
    requires { index ≤ most_rows }
    ensures { OnOk result (Appends (W.contents out.old) (W.contents out.new)
        (what_text (table_of names.now) deed.now hart index)) }
{
    out.write_all(b"<svg ")?;
    write_place_attributes(lane_left(hart), row_top(index), out)?;
    out.write_all(b" width=\"316\" height=\"24\"><text x=\"8\" y=\"16\">")?;
    write_deed(deed, names, out)?;
    out.write_all(b"</text></svg>\n")
}

/// Writes what stands beside the box of a row: what is said of it, or else the word of its look.
fn write_mark<W: Write>(
    look: Look,
    note: &Option<Note>,
    deed: &Deed,
    hart: u8,
    index: usize,
    out: &mut W,
) -> io::Result<()>
    requires { index ≤ most_rows }
    ensures { OnOk result (Appends (W.contents out.old) (W.contents out.new)
        (mark_text look note.now deed.now hart index)) }
{
    if has_words(note, deed) {
        return write_noted(look, note, deed, hart, index, out);
    }
    if look.over || look.stuck {
        return write_look(look, hart, index, out);
    }
    out.write_all(b"")
}

#[tactic(auto, unfolding(crate::specs::Boxes::noted_text))]
fn write_noted<W: Write>(
    look: Look,
    note: &Option<Note>,
    deed: &Deed,
    hart: u8,
    index: usize,
    out: &mut W,
) -> io::Result<()>
    requires { index ≤ most_rows }
    ensures { OnOk result (Appends (W.contents out.old) (W.contents out.new)
        (noted_text look note.now deed.now hart index)) }
{
    write_open_text(
        note_class(look),
        lane_right(hart) + 14,
        row_base(index),
        out,
    )?;
    write_note(note, deed, out)?;
    write_close_text(out)
}

#[tactic(auto, unfolding(crate::specs::Boxes::looks_text))]
fn write_look<W: Write>(look: Look, hart: u8, index: usize, out: &mut W) -> io::Result<()>
    requires { index ≤ most_rows }
    ensures { OnOk result (Appends (W.contents out.old) (W.contents out.new) (looks_text look hart index)) }
{
    write_open_text(
        look_class(look),
        lane_right(hart) + 14,
        row_base(index),
        out,
    )?;
    out.write_all(look_word(look).as_bytes())?;
    write_close_text(out)
}

fn look_word(look: Look) -> &'static str
    ensures { result.now ≡ look_word look }
{
    match (look.over, look.stuck) {
        (true, true) => "overwritten, stuck",
        (true, false) => "overwritten",
        (false, true) => "stuck here",
        (false, false) => "",
    }
}

fn look_class(look: Look) -> &'static str
    ensures { result.now ≡ look_class look }
{
    if look.stuck {
        "mark stuck-is"
    } else {
        "mark over-is"
    }
}

fn note_class(look: Look) -> &'static str
    ensures { result.now ≡ note_class look }
{
    if look.fault { "mark fault-is" } else { "mark" }
}
