//! The lines that are kept, the core that they come to, and what each line is answered.

ghost use Rattle.std.specs.Prelude.{◌≡◌, ◌∷◌, ◌++◌, ◌-◌, ◌^◌, [], IfOk, OnOk, OnErr, All, true, false};
ghost use Rattle.std.specs.Prelude.{None, Err, drop, length, take};
ghost use Rattle.core_state.specs.Setup.{setup_of};
ghost use Rattle.smt_model.specs.Setup.{is_accepted};
ghost use Rattle.scripts.specs.Script.{IsInRange};
ghost use Rattle.reports.specs.Tables.{AreTablesOf};
ghost use Rattle.prompts.specs.Kept.{AreInRange, kept_in};
ghost use Rattle.prompts.specs.Typed.{IsRead};
ghost use Rattle.charts.specs.Text.{chart_text};
ghost use Rattle.chart_rows.specs.{Order.AreByFetch, Views.view_of};
ghost use Rattle.prompts.specs.Printed.{AreLinesOfAsks, IsChartOf, help_text, plain_drawing};
ghost use Rattle.prompts.specs.Answers.{Follows, IsAnswered, answer_text, complaint_in};
ghost use Rattle.prompts.specs.Session.{IsSession, standing_of};
ghost use Rattle.prompts.specs.declared.session.Complaint.TheVariants.{Memory};

use crate::command::{Command, read_command};
use crate::simulation::{Asked, Simulation};
use address_labels::Labels;
use chart_columns::ColumnTable;
use chart_rows::{Row, View, rows_of};
use charts::{TextChart, write_text};
use events::{Event, History};
use explained_asks::explain;
use numbers::sizes::MOST_ACTORS;
use reports::write_tables;
use scripts::{ScriptRefused, ScriptWord, read_script};
use smt_core::{Core, CoreRefused, Predict};
use std::alloc::{AllocError, Global};

/// The most bytes of a line, with its newline: as many as a terminal hands over at once.
pub const MOST_BYTES: usize = 4096;

/// The columns of a chart.
const COLUMNS: u32 = 80;

/// What the prompt says of its own words.
const HELP: &[u8] = b"words of a script are asked; beside them there are\n\
show   the tables of the core\n\
why    the asks of the last line of words again, explained\n\
chart  the pipeline so far\n\
undo   takes the last line of words back\n\
help   these lines\n\
quit   ends, with what `step` prints at its end\n";

/// Why a line does nothing.
#[derive(Clone, Copy, PartialEq, Eq, Drop)]
pub enum Complaint {
    /// This word of it, from 1, is the first that says nothing.
    Word(usize),
    /// It has more than `MOST_BYTES`.
    TooLong,
    Memory,
    /// It couldn't be read.
    Unread,
}

impl From<AllocError> for Complaint {
    ghost from_gives = { λ _ complaint. complaint ≡ Memory };

    fn from(_why: AllocError) -> Complaint {
        Complaint::Memory
    }
}

/// The lines of words that are kept, and the core that was asked all of them.
#[derive(Drop)]
pub(crate) struct Session {
    lines: Vec<Vec<ScriptWord>>,
    asked: Asked,
}

impl Session {
    /// No line is kept.
    pub(crate) fn new<P: Predict + Copy>(
        simulation: &Simulation<'_, P>,
    ) -> Result<Session, CoreRefused>
        ensures none { IfOk result (λ session. session.lines.items ≡ []) }
        ensures session { IfOk result (IsSession P.predicts simulation.now.predict
            (setup_of simulation.now.image.now simulation.now.config.now) simulation.now.limit) }
        ensures accepted { OnOk result
            (is_accepted (setup_of simulation.now.image.now simulation.now.config.now)
            simulation.now.limit ≡ true) }
        ensures refused { result ≡ Err CoreRefused.Config
            → is_accepted (setup_of simulation.now.image.now simulation.now.config.now)
            simulation.now.limit ≡ false }
    {
        let lines = Vec::new(simulation.alloc);
        match simulation.ask_all(lines.as_slice()) {
            Ok(asked) => Ok(Session { lines, asked }),
            Err(refused) => Err(refused),
        }
    }

    /// The core that was asked all lines, and how many asks of each actor were answered idle.
    pub(crate) fn into_asked(self) -> (Core, [u64; MOST_ACTORS])
        ensures core { result.0 ≡ self.asked.core }
        ensures idle { result.1 ≡ self.asked.idle }
    {
        let Session { lines: _, asked } = self;
        let Asked {
            core,
            idle,
            text: _,
        } = asked;
        (core, idle)
    }

    /// Answers a line: the text to print, or why it does nothing.
    pub(crate) fn answer<P: Predict + Copy>(
        &mut self,
        simulation: &Simulation<'_, P>,
        why: bool,
        line: &[u8],
    ) -> Result<Vec<u8>, Complaint>
        requires { IsSession P.predicts simulation.now.predict
            (setup_of simulation.now.image.now simulation.now.config.now) simulation.now.limit
            self.old }
        ensures answered { IsAnswered why line.now (complaint_in result) (standing_of self.old)
            (standing_of self.new) (answer_text result) }
        ensures session { IsSession P.predicts simulation.now.predict
            (setup_of simulation.now.image.now simulation.now.config.now) simulation.now.limit
            self.new }
    {
        if line.len() > MOST_BYTES {
            return Err(Complaint::TooLong);
        }
        let Some(command) = read_command(line) else {
            return self.add_line(simulation, why, line);
        };
        Ok(self.follow(simulation, command)?)
    }

    /// Does what a command says.
    fn follow<P: Predict + Copy>(
        &mut self,
        simulation: &Simulation<'_, P>,
        command: Command,
    ) -> Result<Vec<u8>, AllocError>
        requires { IsSession P.predicts simulation.now.predict
            (setup_of simulation.now.image.now simulation.now.config.now) simulation.now.limit
            self.old }
        ensures done { IfOk result (λ text. Follows command (standing_of self.old)
            (standing_of self.new) text.items) }
        ensures left { OnErr result (self.new ≡ self.old) }
        ensures session { IsSession P.predicts simulation.now.predict
            (setup_of simulation.now.image.now simulation.now.config.now) simulation.now.limit
            self.new }
    {
        let alloc = simulation.alloc;
        match command {
            Command::Undo => self.undo(simulation),
            Command::Show => tables_of(&self.asked.core, alloc),
            Command::Why => explained(simulation, self.lines.as_slice(), &self.asked),
            Command::Chart => chart_of(&self.asked.core, alloc),
            Command::Help => help(alloc),
            Command::Quit => Ok(Vec::new(alloc)),
        }
    }

    /// Takes the last line back: the core is asked the others alone.
    fn undo<P: Predict + Copy>(
        &mut self,
        simulation: &Simulation<'_, P>,
    ) -> Result<Vec<u8>, AllocError>
        requires { IsSession P.predicts simulation.now.predict
            (setup_of simulation.now.image.now simulation.now.config.now) simulation.now.limit
            self.old }
        ensures done { OnOk result (self.new.lines.items
            ≡ take (length self.old.lines.items - 1) self.old.lines.items) }
        ensures silent { IfOk result (λ text. text.items ≡ []) }
        ensures left { OnErr result (self.new ≡ self.old) }
        ensures session { IsSession P.predicts simulation.now.predict
            (setup_of simulation.now.image.now simulation.now.config.now) simulation.now.limit
            self.new }
    {
        let count = self.lines.len();
        if count == 0 {
            return Ok(Vec::new(simulation.alloc));
        }
        match simulation.ask_all(&self.lines.as_slice()[..count - 1]) {
            Ok(asked) => {
                self.lines.truncate(count - 1);
                self.asked = asked;
                Ok(Vec::new(simulation.alloc))
            }
            Err(_) => Err(AllocError),
        }
    }

    /// Asks what a line of words says, and keeps the line.
    fn add_line<P: Predict + Copy>(
        &mut self,
        simulation: &Simulation<'_, P>,
        why: bool,
        line: &[u8],
    ) -> Result<Vec<u8>, Complaint>
        requires session { IsSession P.predicts simulation.now.predict
            (setup_of simulation.now.image.now simulation.now.config.now) simulation.now.limit
            self.old }
        requires words { IsRead line.now None }
        ensures answered { IsAnswered why line.now (complaint_in result) (standing_of self.old)
            (standing_of self.new) (answer_text result) }
        ensures session { IsSession P.predicts simulation.now.predict
            (setup_of simulation.now.image.now simulation.now.config.now) simulation.now.limit
            self.new }
    {
        let words = match read_script(line, simulation.alloc) {
            Ok(words) => words,
            Err(ScriptRefused::Word(number)) => return Err(Complaint::Word(number)),
            Err(ScriptRefused::Memory) => return Err(Complaint::Memory),
        };
        if words.is_empty() {
            return Ok(Vec::new(simulation.alloc));
        }
        Ok(self.add_words(simulation, why, words)?)
    }

    /// Asks these words, and keeps them as a line.
    fn add_words<P: Predict + Copy>(
        &mut self,
        simulation: &Simulation<'_, P>,
        why: bool,
        words: Vec<ScriptWord>,
    ) -> Result<Vec<u8>, AllocError>
        requires session { IsSession P.predicts simulation.now.predict
            (setup_of simulation.now.image.now simulation.now.config.now) simulation.now.limit
            self.old }
        requires in_range { All (λ word. IsInRange word.action) words.items }
        ensures kept { OnOk result (self.new.lines.items ≡ self.old.lines.items ++ words ∷ []) }
        ensures text { IfOk result (λ text. AreLinesOfAsks why self.old.asked.text.items
            self.new.asked.text.items text.items) }
        ensures left { OnErr result (standing_of self.new ≡ standing_of self.old) }
        ensures session { IsSession P.predicts simulation.now.predict
            (setup_of simulation.now.image.now simulation.now.config.now) simulation.now.limit
            self.new }
    {
        self.lines.push(words)?;
        match self.ask_again(simulation, why) {
            Ok(text) => Ok(text),
            Err(AllocError) => {
                self.lines.pop();
                Err(AllocError)
            }
        }
    }

    /// Asks the words of all lines, the last of which is a new one, and answers that one.
    fn ask_again<P: Predict + Copy>(
        &mut self,
        simulation: &Simulation<'_, P>,
        why: bool,
    ) -> Result<Vec<u8>, AllocError>
        requires { AreInRange (kept_in self.old.lines.items) }
        ensures lines { self.new.lines.items ≡ self.old.lines.items }
        ensures text { IfOk result (λ text. AreLinesOfAsks why self.old.asked.text.items
            self.new.asked.text.items text.items) }
        ensures left { OnErr result (self.new.asked ≡ self.old.asked) }
        ensures session { OnOk result (IsSession P.predicts simulation.now.predict
            (setup_of simulation.now.image.now simulation.now.config.now) simulation.now.limit
            self.new) }
    {
        let asked = match simulation.ask_all(self.lines.as_slice()) {
            Ok(asked) => asked,
            Err(_) => return Err(AllocError),
        };
        let text = if why {
            explained(simulation, self.lines.as_slice(), &asked)?
        } else {
            last_lines(&asked, self.asked.text.len(), simulation.alloc)?
        };
        self.asked = asked;
        Ok(text)
    }
}

/// The asks of the last line, explained.
fn explained<P: Predict + Copy>(
    simulation: &Simulation<'_, P>,
    lines: &[Vec<ScriptWord>],
    asked: &Asked,
) -> Result<Vec<u8>, AllocError>
    requires { AreInRange (kept_in lines.now) }
    ensures { lines.now ≡ [] → IfOk result (λ text. text.items ≡ []) }
{
    let count = lines.len();
    if count == 0 {
        return Ok(Vec::new(simulation.alloc));
    }
    let (before, last) = (&lines[..count - 1], lines[count - 1].as_slice());
    match simulation.ask_all(before) {
        Ok(earlier) => explain(
            last,
            behind(asked.text.as_slice(), earlier.text.len()),
            asked.core.history(),
            earlier.core,
            simulation.alloc,
        ),
        Err(_) => Err(AllocError),
    }
}

/// What a core has answered behind so many bytes.
fn last_lines(asked: &Asked, count: usize, alloc: Global) -> Result<Vec<u8>, AllocError>
    ensures { IfOk result (λ text. text.items ≡ drop count asked.now.text.items) }
{
    copy_of(behind(asked.text.as_slice(), count), alloc)
}

/// What stands behind so many bytes of a text.
fn behind(text: &[u8], count: usize) -> &[u8]
    ensures { result.now ≡ drop count text.now }
{
    if count > text.len() {
        return &[];
    }
    &text[count..]
}

/// The tables of a core.
fn tables_of(core: &Core, alloc: Global) -> Result<Vec<u8>, AllocError>
    ensures { IfOk result (λ text. AreTablesOf core.now text.items) }
{
    let mut text = Vec::new(alloc);
    match write_tables(core, &mut text) {
        Ok(()) => Ok(text),
        Err(_) => Err(AllocError),
    }
}

/// The pipeline of a core's history.
fn chart_of(core: &Core, alloc: Global) -> Result<Vec<u8>, AllocError>
    ensures { IfOk result (λ text. IsChartOf core.now text.items) }
{
    let events = listed(core.history(), alloc)?;
    let rows = rows_of(events.as_slice(), alloc)?;
    let columns = ColumnTable::events();
    let chart = chart_by(core, events.as_slice(), rows.as_slice(), &columns, alloc)?;
    Ok(chart)
}

/// The chart of all events of a history with these rows.
fn chart_by(
    core: &Core,
    events: &[Event],
    rows: &[Row],
    columns: &ColumnTable,
    alloc: Global,
) -> Result<Vec<u8>, AllocError>
    requires by_fetch { AreByFetch rows.now }
    requires events { columns.now ≡ [] }
    ensures { IfOk result (λ text. text.items ≡ chart_text
        (plain_drawing core.now.setup.harts (view_of 0 (2 ^ 32 - 1) None (length events.now)) events.now rows.now)) }
{
    let chart = TextChart {
        rows,
        events,
        columns,
        view: View::new(0, u32::MAX, None, events.len()),
        width: COLUMNS,
        harts: core.harts(),
        labels: Labels::none(),
        counters: &[],
        registers: &[],
    };
    let mut text = Vec::new(alloc);
    match write_text(&chart, &mut text) {
        Ok(()) => Ok(text),
        Err(_) => Err(AllocError),
    }
}

/// The events of a history, one after another.
fn listed(history: &History, alloc: Global) -> Result<Vec<Event>, AllocError>
    ensures { IfOk result (λ events. events.items ≡ history.now.items) }
{
    let mut events = Vec::new(alloc);
    for event in history.iter() {
        events.push(event)?;
    }
    Ok(events)
}

/// What the prompt says of its own words.
#[tactic(auto, unfolding(crate::specs::Printed::help_text))]
fn help(alloc: Global) -> Result<Vec<u8>, AllocError>
    ensures { IfOk result (λ text. text.items ≡ help_text) }
{
    copy_of(HELP, alloc)
}

fn copy_of(text: &[u8], alloc: Global) -> Result<Vec<u8>, AllocError>
    ensures { IfOk result (λ copy. copy.items ≡ text.now) }
{
    let mut copy = Vec::new(alloc);
    copy.extend_from_slice(text)?;
    Ok(copy)
}
