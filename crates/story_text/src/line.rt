//! The rows of a story, and their head.

ghost use Rattle.std.specs.Prelude.{◌≡◌, ◌<◌, ◌≤◌, ◌||◌, OnOk, is_some};
ghost use Rattle.std.specs.Io.KnownBytes.{Appends};
ghost use Rattle.numbers.specs.Sizes.{most_harts};
ghost use Rattle.rv_instr.specs.Table.{OpInRange};
ghost use Rattle.address_labels.specs.Labels.{marks_of};
ghost use Rattle.story_text.specs.Deeds.{body_of, op_text};
ghost use Rattle.story_text.specs.Fields.{head_cell, head_gap};
ghost use Rattle.story_text.specs.Text.{behind_row, has_marks, harts_text, head_text, numbered_line, plan_of};

use crate::deeds::write_deed;
use crate::fields::{column_width, write_blanks, write_column, write_number, write_number_field};
use crate::form::StoryForm;
use address_labels::{Form, Labels, write_labels};
use rv_instr::Op;
use rv_text::print;
use std::io;
use std::io::Write;
use stories::{Note, Step};

/// Writes the head of a story: the harts over their columns.
pub fn write_head<W: Write>(form: &StoryForm<'_>, out: &mut W) -> io::Result<()>
    requires { form.now.harts ≤ most_harts }
    ensures { OnOk result (Appends (W.contents out.old) (W.contents out.new) (head_text form.now.harts)) }
{
    out.write_all(b"     ")?;
    write_harts(form.harts, out)?;
    out.write_all(b"\n")
}

fn write_harts<W: Write>(harts: u8, out: &mut W) -> io::Result<()>
    ensures { OnOk result (Appends (W.contents out.old) (W.contents out.new) (harts_text harts)) }
{
    for hart in 0..harts {
        write_hart(harts, hart, out)?;
    }
    Ok(())
}

/// Writes a hart over its column, behind the one before it.
fn write_hart<W: Write>(harts: u8, hart: u8, out: &mut W) -> io::Result<()>
    ensures { OnOk result (Appends (W.contents out.old) (W.contents out.new) (head_cell harts hart)) }
{
    write_blanks(head_gap(harts, hart), out)?;
    out.write_all(b"h")?;
    write_number(u64::from(hart), out)
}

/// How many spaces are between a hart and the one before it, in the head.
fn head_gap(harts: u8, hart: u8) -> usize
    ensures value { result ≡ head_gap harts hart }
    ensures few { result ≤ 24 }
{
    if hart == 0 {
        return 0;
    }
    if hart <= 10 {
        return column_width(harts) - 2;
    }
    column_width(harts) - 3
}

/// Writes the row of this number that a step has; `note` is as in `write_deed`.
pub(crate) fn write_line<W: Write>(
    number: u64,
    step: &Step,
    note: &Option<Note>,
    form: &StoryForm<'_>,
    out: &mut W,
) -> io::Result<()>
    requires inside { step.now.hart < form.now.harts }
    requires few { form.now.harts ≤ most_harts }
    requires in_range { OpInRange step.now.op }
    ensures { OnOk result (Appends (W.contents out.old) (W.contents out.new)
        (numbered_line (plan_of form.now) number note.now step.now)) }
{
    write_number_field(number, out)?;
    write_column(form.harts, step.hart, out)?;
    write_body(step, note, form, out)?;
    write_behind_row(&form.labels, step.pc, out)
}

/// Writes what a step shows, or else its instruction.
fn write_body<W: Write>(
    step: &Step,
    note: &Option<Note>,
    form: &StoryForm<'_>,
    out: &mut W,
) -> io::Result<()>
    requires { OpInRange step.now.op }
    ensures { OnOk result (Appends (W.contents out.old) (W.contents out.new)
        (body_of (plan_of form.now).names note.now step.now step.now.deed)) }
{
    match &step.deed {
        Some(deed) => write_deed(deed, note, form.names, out),
        None => write_op(step.op, step.pc, out),
    }
}

/// Writes an instruction that stands at `pc`.
#[tactic(auto, unfolding(crate::specs::Deeds::op_text))]
fn write_op<W: Write>(op: Op, pc: u32, out: &mut W) -> io::Result<()>
    requires { OpInRange op }
    ensures { OnOk result (Appends (W.contents out.old) (W.contents out.new) (op_text op pc)) }
{
    match op {
        Op::Known(instr) => out.write_all(print(instr, pc).as_bytes()),
        Op::Illegal | Op::NoWord => out.write_all(b""),
    }
}

/// Writes what is wanted behind a row, and ends it.
fn write_behind_row<W: Write>(labels: &Labels<'_>, pc: u32, out: &mut W) -> io::Result<()>
    ensures { OnOk result (Appends (W.contents out.old) (W.contents out.new)
        (behind_row (marks_of labels.now) pc)) }
{
    if has_marks(labels) {
        out.write_all(b" ")?;
        write_labels(labels, Form::Word, pc, out)?;
    }
    out.write_all(b"\n")
}

fn has_marks(labels: &Labels<'_>) -> bool
    ensures { result ≡ has_marks (marks_of labels.now) }
{
    labels.names.is_some() || labels.lines.is_some()
}
