//! A step as it is told.

ghost use Rattle.std.specs.Prelude.{◌≡◌, ◌<◌, ◌≤◌, List, [], ◌∷◌, OnOk, length, true};
ghost use Rattle.std.specs.Io.KnownBytes.{Appends};
ghost use Rattle.numbers.specs.Sizes.{most_harts};
ghost use Rattle.rv_instr.specs.Table.{OpInRange};
ghost use Rattle.sc_machine.specs.Machine.{InEachState};
ghost use Rattle.stories.specs.Story.{has_row, row_count, step_of};
ghost use Rattle.stories.specs.declared.step.Step.{Step as StepView};
ghost use Rattle.story_text.specs.Telling.{HasTold, most_told};
ghost use Rattle.story_text.specs.Text.{line_text, note_for, note_since, piece, plan_of, taker_for, unseen};
ghost use Rattle.story_text.specs.Fields.{unseen_text};

use crate::fields::write_unseen;
use crate::form::StoryForm;
use crate::line::write_line;
use sc_machine::Plain;
use std::io;
use std::io::Write;
use stories::{Deed, Note, Recent, Row, Step, Teller, row_of, step_of};

/// How far a story is told: how many rows it has, how many steps came behind the last of them, and what has to be known
/// to say who took a reservation, and what the last rows make of the next one. It takes no memory.
#[derive(Clone, Copy, Drop)]
pub struct Telling {
    pub(crate) teller: Teller,
    pub(crate) recent: Recent,
    pub(crate) rows: u64,
    pub(crate) unseen: u64,
}

impl Telling {
    /// Nothing is told yet.
    pub fn new() -> Telling
        ensures { (all : _) → HasTold all [] result }
    {
        Telling {
            teller: Teller::new(),
            recent: Recent::new(),
            rows: 0,
            unseen: 0,
        }
    }

    /// Tells the step that a hart makes next, as the machine stands before it. Errors: those of `out`.
    pub fn tell<W: Write>(
        &mut self,
        machine: &Plain,
        hart: u8,
        form: &StoryForm<'_>,
        out: &mut W,
    ) -> io::Result<()>
        requires there { hart < length machine.now.harts }
        requires inside { hart < form.now.harts }
        requires few { form.now.harts ≤ most_harts }
        ensures told { InEachState machine.now (λ setup s. (past : List StepView) → length past < most_told
            → HasTold form.now.all past self.old → HasTold form.now.all (step_of setup s hart ∷ past) self.new) }
        ensures written { InEachState machine.now (λ setup s. (past : List StepView)
            → HasTold form.now.all past self.old → length past < most_told
            → OnOk result (Appends (W.contents out.old) (W.contents out.new)
            (piece (plan_of form.now) past (step_of setup s hart)))) }
    {
        let step = step_of(machine, hart);
        let written = self.write_piece(&step, form, out);
        self.hear(&step, form.all);
        written
    }

    /// Ends a story behind its last step. Errors: those of `out`.
    pub fn finish<W: Write>(&self, out: &mut W) -> io::Result<()>
        ensures { (all : _) (past : List StepView) → HasTold all past self.now
            → OnOk result (Appends (W.contents out.old) (W.contents out.new) (unseen_text (unseen all past))) }
    {
        write_unseen(self.unseen, out)
    }

    /// Writes what a step adds to a story.
    fn write_piece<W: Write>(
        &self,
        step: &Step,
        form: &StoryForm<'_>,
        out: &mut W,
    ) -> io::Result<()>
        requires inside { step.now.hart < form.now.harts }
        requires few { form.now.harts ≤ most_harts }
        requires in_range { OpInRange step.now.op }
        ensures { (past : List StepView) → HasTold form.now.all past self.now → length past < most_told
            → OnOk result (Appends (W.contents out.old) (W.contents out.new)
            (piece (plan_of form.now) past step.now)) }
    {
        if !has_row(form.all, step) {
            return out.write_all(b"");
        }
        write_unseen(self.unseen, out)?;
        let number = self.rows.saturating_add(1);
        write_line(number, step, &self.note_for(step), form, out)
    }

    /// What earlier rows make of a step.
    fn note_for(&self, step: &Step) -> Option<Note>
        requires { step.now.hart < most_harts }
        ensures { (all : _) (past : List StepView) → HasTold all past self.now
            → result ≡ note_for all past step.now.hart step.now.deed }
    {
        match self.taker_for(step) {
            Some(row) => Some(Note::Taken(row)),
            None => self.note_since(step),
        }
    }

    /// What the last rows make of a step: a lost update, or an ABA.
    fn note_since(&self, step: &Step) -> Option<Note>
        ensures { (all : _) (past : List StepView) → HasTold all past self.now
            → result ≡ note_since all past step.now.hart step.now.deed }
    {
        match step.deed {
            Some(deed) => self.recent.note_of(step.hart, &deed),
            None => None,
        }
    }

    /// The row that took the reservation that a step has missed.
    fn taker_for(&self, step: &Step) -> Option<Row>
        requires { step.now.hart < most_harts }
        ensures { (all : _) (past : List StepView) → HasTold all past self.now
            → result ≡ taker_for all past step.now.hart step.now.deed }
    {
        match step.deed {
            Some(Deed::Failed { addr }) => self.teller.taker(step.hart, addr),
            _ => None,
        }
    }

    /// A step was told.
    fn hear(&mut self, step: &Step, all: bool)
        ensures { (past : List StepView) → length past < most_told → HasTold all past self.old
            → HasTold all (step.now ∷ past) self.new }
    {
        if !has_row(all, step) {
            self.unseen = self.unseen.saturating_add(1);
            return;
        }
        self.unseen = 0;
        self.rows = self.rows.saturating_add(1);
        if let Some(row) = row_of(self.rows, step) {
            self.teller.hear(&row);
            self.recent.hear(&row);
        }
    }
}

/// Whether a step has a row.
fn has_row(all: bool, step: &Step) -> bool
    ensures { result ≡ has_row all step.now }
{
    all || step.deed.is_some()
}
