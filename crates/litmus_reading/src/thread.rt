//! What one hart does: the cells of its column, one below the other.

ghost use Rattle.std.specs.Prelude.{◌≡◌, ◌≤◌, ◌+◌, ◌++◌, [], List, length, None, IfOk, OnOk};
ghost use Rattle.litmus_words.specs.Answered.{Gives, GivesOrMemory};
ghost use Rattle.litmus_tests.specs.Limits.{most_steps};
ghost use Rattle.litmus_tests.specs.declared.step.LitmusStep.{LitmusStep as AnyStep};
ghost use Rattle.litmus_reading.specs.declared.instruction.Written.{Written as AnyWritten};
ghost use Rattle.litmus_reading.specs.Rows.{column_of};
ghost use Rattle.litmus_reading.specs.Threads.{
  if_some,
  instruction_of,
  instructions_of,
  label_at,
  label_of,
  labels_from,
  target_of,
  AreOnce,
  AreSpelled,
  AreStepsOf,
  IsStepOf,
  SpellsThread,
  StepAdded,
};

use crate::instruction::{Written, read_instruction};
use crate::operands::is_label;
use crate::rows::cell_of;
use litmus_tests::LitmusStep;
use litmus_tests::test::MOST_STEPS;
use litmus_words::{Fault, Mark, Stop, Word, cut, is_mark, same_bytes, start_of};
use std::alloc::Global;

/// A label, with the index of the step before which it stands.
#[derive(Clone, Copy, Drop)]
pub(crate) struct Label {
    pub word: Word,
    pub place: usize,
}

/// The instructions of a hart as they are written, and the labels.
#[derive(Drop)]
pub(crate) struct Column {
    pub steps: Vec<Written>,
    pub labels: Vec<Label>,
}

/// Reads what a hart does from the rows.
pub(crate) fn read_steps(
    text: &[u8],
    rows: &[Word],
    hart: u8,
    alloc: Global,
) -> Result<Vec<LitmusStep>, Stop>
    ensures spelled { IfOk result (λ steps. SpellsThread text.now rows.now hart steps.items) }
    ensures only { (steps : List AnyStep) → SpellsThread text.now rows.now hart steps → length steps ≤ most_steps
        → GivesOrMemory result (λ found. found.items ≡ steps) }
{
    let column = read_column(text, rows, hart, alloc)?;
    let steps = steps_of(
        text,
        column.labels.as_slice(),
        column.steps.as_slice(),
        alloc,
    )?;
    Ok(steps)
}

/// The steps that instructions are, whose branches lead to these labels.
fn steps_of(
    text: &[u8],
    labels: &[Label],
    all: &[Written],
    alloc: Global,
) -> Result<Vec<LitmusStep>, Stop>
    ensures are { IfOk result (λ steps. AreStepsOf text.now labels.now all.now steps.items) }
    ensures only { (steps : List AnyStep) → AreStepsOf text.now labels.now all.now steps
        → GivesOrMemory result (λ found. found.items ≡ steps) }
{
    let mut steps = Vec::new(alloc);
    for written in all {
        let step = step_of(text, labels, *written)?;
        steps.push(step)?;
    }
    Ok(steps)
}

/// A column without cells.
pub(crate) fn no_column(alloc: Global) -> Column {
    Column {
        steps: Vec::new(alloc),
        labels: Vec::new(alloc),
    }
}

fn read_column(text: &[u8], rows: &[Word], hart: u8, alloc: Global) -> Result<Column, Stop>
    ensures steps { IfOk result (λ column.
        AreSpelled text.now (instructions_of (column_of hart rows.now)) column.steps.items) }
    ensures labels { IfOk result (λ column.
        column.labels.items ≡ labels_from 0 (column_of hart rows.now)) }
    ensures once { OnOk result (AreOnce text.now [] (labels_from 0 (column_of hart rows.now))) }
    ensures only { (written : List AnyWritten)
        → AreSpelled text.now (instructions_of (column_of hart rows.now)) written
        → AreOnce text.now [] (labels_from 0 (column_of hart rows.now)) → length written ≤ most_steps
        → GivesOrMemory result (λ column. column.steps.items ≡ written) }
{
    let mut steps = Vec::new(alloc);
    let mut labels = Vec::new(alloc);
    let mut rest = rows;
    while !rest.is_empty() {
        let (row, behind) = cut(rest, Mark::Semicolon);
        let cell = cell_of(row, hart);
        let instruction = instruction_of(cell);
        add_label(text, &mut labels, steps.len(), cell)?;
        add_step(text, &mut steps, instruction)?;
        rest = behind;
    }
    Ok(Column { steps, labels })
}

/// Reads a cell: a label, an instruction, both, or nothing.
pub(crate) fn read_cell(text: &[u8], column: &mut Column, cell: &[Word]) -> Result<(), Stop> {
    add_label(text, &mut column.labels, column.steps.len(), cell)?;
    add_step(text, &mut column.steps, instruction_of(cell))
}

/// Reads the instruction of a cell, if it has one.
fn add_step(text: &[u8], steps: &mut Vec<Written>, instruction: &[Word]) -> Result<(), Stop>
    ensures added { OnOk result (StepAdded text.now instruction.now steps.old.items steps.new.items) }
    ensures only { (written : List AnyWritten) → AreSpelled text.now (if_some instruction.now) written
        → length steps.old.items + length written ≤ most_steps
        → GivesOrMemory result (λ _. steps.new.items ≡ steps.old.items ++ written) }
{
    let Some(last) = instruction.last() else {
        return Ok(());
    };
    let written = read_instruction(text, instruction, last.end)?;
    if steps.len() >= MOST_STEPS {
        return Err(Stop::at(start_of(instruction, last.end), Fault::TooManySteps));
    }
    steps.push(written)?;
    Ok(())
}

/// Reads the label of a cell, if it has one, before the step of this index.
fn add_label(text: &[u8], labels: &mut Vec<Label>, place: usize, cell: &[Word]) -> Result<(), Stop>
    ensures added { OnOk result (labels.new.items ≡ labels.old.items ++ label_at place cell.now) }
    ensures once { OnOk result (AreOnce text.now labels.old.items (label_at place cell.now)) }
    ensures only { AreOnce text.now labels.old.items (label_at place cell.now)
        → GivesOrMemory result (λ _. Unit {0}) }
{
    let Some(word) = label_of(cell) else {
        return Ok(());
    };
    if !is_label(word) {
        return Err(Stop::at(word.start, Fault::NotOfSubset));
    }
    check_new(text, labels.as_slice(), word)?;
    labels.push(Label { word, place })?;
    Ok(())
}

/// Refuses a label that is there already.
fn check_new(text: &[u8], labels: &[Label], word: Word) -> Result<(), Stop>
    ensures new { OnOk result (target_of text.now labels.now word ≡ None) }
    ensures only { target_of text.now labels.now word ≡ None → Gives result (λ _. Unit {0}) }
{
    match target_of(text, labels, word) {
        Some(_) => Err(Stop::at(word.start, Fault::LabelTwice)),
        None => Ok(()),
    }
}

/// The label of a cell: the word before its colon.
fn label_of(cell: &[Word]) -> Option<Word>
    ensures { result ≡ label_of cell.now }
{
    if cell.len() < 2 {
        return None;
    }
    if is_mark(cell[1], Mark::Colon) {
        return Some(cell[0]);
    }
    None
}

/// The instruction of a cell: what stands behind its colon, or else all of it.
fn instruction_of(cell: &[Word]) -> &[Word]
    ensures { result.now ≡ instruction_of cell.now }
{
    if cell.len() < 2 {
        return cell;
    }
    if is_mark(cell[1], Mark::Colon) {
        return &cell[2..];
    }
    cell
}

/// The step that an instruction is: a branch has the index of the step behind its label.
pub(crate) fn step_of(text: &[u8], labels: &[Label], written: Written) -> Result<LitmusStep, Stop>
    ensures is { IfOk result (IsStepOf text.now labels.now written) }
    ensures only { (step : AnyStep) → IsStepOf text.now labels.now written step
        → Gives result (λ found. found ≡ step) }
{
    match written {
        Written::Straight(instr) => Ok(LitmusStep::Straight(instr)),
        Written::Fence(fence) => Ok(LitmusStep::Fence(fence)),
        Written::Constant { register, value } => Ok(LitmusStep::Constant { register, value }),
        Written::Branch {
            op,
            left,
            right,
            label,
        } => match target_of(text, labels, label) {
            Some(target) => Ok(LitmusStep::Branch {
                op,
                left,
                right,
                target,
            }),
            None => Err(Stop::at(label.start, Fault::NoLabel)),
        },
    }
}

/// Where a label leads.
fn target_of(text: &[u8], labels: &[Label], word: Word) -> Option<usize>
    ensures { result ≡ target_of text.now labels.now word }
{
    for label in labels {
        if same_bytes(text, label.word, word) {
            return Some(label.place);
        }
    }
    None
}
