//! The name of a row: its hart, its number, its pc, its instruction, and what is wanted beside the pc.

ghost use Rattle.std.specs.Prelude.{◌≡◌, ◌++◌, ◌∷◌, [], OnOk, codes, if◌then◌else◌};
ghost use Rattle.std.specs.Fmt.{decimal};
ghost use Rattle.std.specs.Io.KnownBytes.{Appends};
ghost use Rattle.text_fields.specs.Spelling.{hex};
ghost use Rattle.address_labels.specs.Labels.{marks_of};
ghost use Rattle.charts.specs.Text.{
  digits,
  field_text,
  instruction_text,
  label_text,
  beside_text,
  name_text,
  place_text,
  name_width,
  remark_width,
  spaces,
  to_left,
  to_right,
  widened,
  widths_of,
};

use crate::registers::{registers_width, width_of, write_found};
use address_labels::{Form, Labels, label_width, write_labels};
use arrayvec::ArrayString;
use chart_registers::Registers;
use chart_rows::{Row, View};
use rv_decode::{Op, decode_op};
use std::io;
use std::io::Write;
use text_fields::{push_ascii, push_decimal, push_hex};

/// The spelling of a row's instruction; `.word` and the word where it is none, and a dash where there
/// is no word.
pub(crate) fn instruction_of(row: &Row) -> ArrayString<40>
    ensures { result.bytes ≡ instruction_text row.now }
{
    match decode_op(row.word) {
        Op::Known(instr) => rv_text::print(instr, row.pc),
        Op::Illegal => spelled(true),
        Op::NoWord => spelled(false),
    }
}

/// One of the two spellings of what is no instruction.
fn spelled(is_word: bool) -> ArrayString<40>
    ensures { result.bytes ≡ (if is_word then codes ".word" else codes "-") }
{
    let mut text = ArrayString::new();
    text.push_str(if is_word { ".word" } else { "-" });
    text
}

/// What is wanted beside the pcs of rows, and how it is spelled there.
#[derive(Clone, Copy, Drop)]
pub(crate) struct Named<'a> {
    pub labels: &'a Labels<'a>,
    pub form: Form,
    /// The registers of each instruction, by number; nothing where they aren't wanted.
    pub registers: &'a [Option<Registers>],
}

/// How wide the parts of a row's name are.
#[derive(Clone, Copy, Drop)]
pub(crate) struct Widths {
    /// The digits of the greatest hart that is drawn.
    hart: u8,
    /// The digits of the greatest number, drawn or not: a remark may name it.
    number: u8,
    /// The characters of the longest instruction that is drawn.
    instruction: u8,
    /// The characters of the longest labels beside a pc that is drawn, a space before each; 0 where none are wanted.
    labels: u32,
    /// The characters of the longest registers of a row that is drawn, a space before each; 0 where none are wanted.
    registers: u32,
}

impl Widths {
    /// Of the names of the rows that are drawn.
    pub fn of(
        rows: &[Row],
        view: &View,
        labels: &Labels<'_>,
        registers: &[Option<Registers>],
    ) -> Widths
        ensures { result ≡ widths_of view.now (marks_of labels.now) registers.now rows.now }
    {
        let mut widths = Widths {
            hart: 1,
            number: digits_of(rows.len().saturating_sub(1)),
            instruction: 0,
            labels: 0,
            registers: registers_width(rows, view, registers),
        };
        for row in rows {
            if view.shows(row) {
                widths = widths.widened(row, labels);
            }
        }
        widths
    }

    /// As wide, or as wide as the name of one more row.
    fn widened(self, row: &Row, labels: &Labels<'_>) -> Widths
        ensures { result ≡ widened (marks_of labels.now) row.now self }
    {
        Widths {
            hart: self.hart.max(digits_of(usize::from(row.hart))),
            number: self.number,
            instruction: self.instruction.max(instruction_of(row).len() as u8),
            labels: self.labels.max(label_width(labels, row.pc)),
            registers: self.registers,
        }
    }

    /// The width of a name, with a space behind each of its parts.
    pub fn name(&self) -> usize
        ensures { result ≡ name_width self.now }
    {
        // Eight digits for the pc, and a space behind each of the four.
        usize::from(self.hart)
            + usize::from(self.number)
            + usize::from(self.instruction)
            + self.labels as usize
            + self.registers as usize
            + 12
    }

    /// The width of the longest remark behind a row.
    pub fn remark(&self) -> usize
        ensures { result ≡ remark_width self.now }
    {
        // Either ` by ` and a number, or ` refetched`.
        (usize::from(self.number) + 4).max(10)
    }

    /// Writes the name of the row with this number, with what is wanted beside its pc.
    #[tactic(auto, unfolding(crate::specs::Text::name_text))]
    pub fn write_name<W: Write>(
        &self,
        row: &Row,
        number: usize,
        named: Named<'_>,
        out: &mut W,
    ) -> io::Result<()>
        ensures { OnOk result (Appends (W.contents out.old) (W.contents out.new)
            (name_text named.entry.form self.now (marks_of named.entry.labels.now) named.entry.registers.now
            number row.now)) }
    {
        self.write_place(row, number, out)?;
        self.write_beside(row.pc, number, named, out)
    }

    /// Writes the hart, the number, the pc and the instruction of a row.
    #[tactic(auto, unfolding(crate::specs::Text::place_text))]
    fn write_place<W: Write>(&self, row: &Row, number: usize, out: &mut W) -> io::Result<()>
        ensures { OnOk result (Appends (W.contents out.old) (W.contents out.new)
            (place_text self.now number row.now)) }
    {
        write_right(usize::from(row.hart), self.hart, out)?;
        write_right(number, self.number, out)?;
        write_pc(row.pc, out)?;
        write_instruction(row, self.instruction, out)
    }

    /// Writes what is wanted beside the pc of the row with this number.
    #[tactic(auto, unfolding(crate::specs::Text::beside_text))]
    fn write_beside<W: Write>(
        &self,
        pc: u32,
        number: usize,
        named: Named<'_>,
        out: &mut W,
    ) -> io::Result<()>
        ensures { OnOk result (Appends (W.contents out.old) (W.contents out.new)
            (beside_text named.entry.form self.now (marks_of named.entry.labels.now) named.entry.registers.now
            number pc)) }
    {
        write_label(named, self.labels, pc, out)?;
        write_field(named.registers, self.registers, number, out)?;
        out.write_all(b" ")
    }
}

/// Writes what is wanted beside a pc, to the left of so many places.
fn write_label<W: Write>(named: Named<'_>, places: u32, pc: u32, out: &mut W) -> io::Result<()>
    ensures { OnOk result (Appends (W.contents out.old) (W.contents out.new)
        (label_text named.entry.form places (marks_of named.entry.labels.now) pc)) }
{
    let width = label_width(named.labels, pc);
    write_labels(named.labels, named.form, pc, out)?;
    write_spaces(places.saturating_sub(width) as usize, out)
}

/// Writes the registers of the row with this number, to the left of so many places.
fn write_field<W: Write>(
    registers: &[Option<Registers>],
    places: u32,
    number: usize,
    out: &mut W,
) -> io::Result<()>
    ensures { OnOk result (Appends (W.contents out.old) (W.contents out.new) (field_text places registers.now number)) }
{
    let width = width_of(registers, number);
    write_found(registers, number, out)?;
    write_spaces(places.saturating_sub(width) as usize, out)
}

/// Writes a number to the right of so many places, and a space.
fn write_right<W: Write>(number: usize, places: u8, out: &mut W) -> io::Result<()>
    ensures { OnOk result (Appends (W.contents out.old) (W.contents out.new) (to_right places (decimal number))) }
{
    let mut text = ArrayString::<21>::new();
    push_decimal(&mut text, number);
    write_spaces(usize::from(places).saturating_sub(text.len()), out)?;
    push_ascii(&mut text, b' ');
    out.write_all(text.as_bytes())
}

/// Writes a pc, and a space.
fn write_pc<W: Write>(pc: u32, out: &mut W) -> io::Result<()>
    ensures { OnOk result (Appends (W.contents out.old) (W.contents out.new) (hex 8 pc ++ 32 ∷ [])) }
{
    let mut text = ArrayString::<9>::new();
    push_hex(&mut text, pc, 8);
    push_ascii(&mut text, b' ');
    out.write_all(text.as_bytes())
}

/// Writes the instruction of a row, to the left of so many places.
fn write_instruction<W: Write>(row: &Row, places: u8, out: &mut W) -> io::Result<()>
    ensures { OnOk result (Appends (W.contents out.old) (W.contents out.new)
        (to_left places (instruction_text row.now))) }
{
    let text = instruction_of(row);
    out.write_all(text.as_bytes())?;
    write_spaces(usize::from(places).saturating_sub(text.len()), out)
}

/// How many digits a number has.
pub(crate) fn digits_of(number: usize) -> u8
    ensures { result ≡ digits number }
{
    let mut text = ArrayString::<20>::new();
    push_decimal(&mut text, number);
    text.len() as u8
}

pub(crate) fn write_spaces<W: Write>(count: usize, out: &mut W) -> io::Result<()>
    ensures { OnOk result (Appends (W.contents out.old) (W.contents out.new) (spaces count)) }
{
    for _space in 0..count {
        out.write_all(b" ")?;
    }
    Ok(())
}
