//! Where a chart begins and ends, where its options name functions.

ghost use Rattle.std.specs.Prelude.{◌≡◌, ◌≤◌, ℕ, IfOk, IfErr, IfSome, IfNone, false, find, length, option_copied};
ghost use Rattle.numbers.specs.Sizes.{most_events};
ghost use Rattle.command_parts.specs.declared.refused.ChartOption.TheVariants.{From, To};
ghost use Rattle.chart_rows.specs.Views.{draws_hart};
ghost use Rattle.symbols.specs.Tables.{table_of};
ghost use Rattle.text_fields.specs.Splitting.{Lacks};
ghost use Rattle.core_commands.specs.ChartEnds.{
  AreEnds,
  IsEndFault,
  IsEndRefusal,
  IsFirst,
  IsInFile,
  IsLast,
  IsLastEvent,
  IsMeaningOf,
  IsNamed,
  IsNoSymbol,
  first_fetch,
  is_drawn_in,
  is_event_in,
};

use chart_rows::Row;
use command_parts::{ChartOption, Refused};
use events::Event;
use sim_inputs::{ChartCommand, ChartEnd};
use symbols::{Meaning, Name, Symbol, Symbols, covers, meaning_of};

/// The history whose instructions are drawn, of all harts or of one, with the names of its program.
#[derive(Clone, Copy, Drop)]
pub(crate) struct Drawn<'a> {
    pub rows: &'a [Row],
    pub events: &'a [Event],
    pub hart: Option<u8>,
    pub names: &'a Symbols<'a>,
}

/// The first and the last event that are drawn of a chart.
pub(crate) fn ends_of(chart: &ChartCommand<'_>, drawn: &Drawn<'_>) -> Result<(u32, u32), Refused>
    requires few { length drawn.now.events.now ≤ most_events }
    ensures ends { IfOk result (λ ends. AreEnds chart.now drawn.now ends.0 ends.1) }
    ensures refused { IfErr result (IsEndRefusal chart.now drawn.now) }
{
    let from = first_event(chart.from, drawn)?;
    let to = last_event(chart.to, drawn)?;
    if from > to {
        return Err(Refused::Turned { from, to });
    }
    Ok((from, to))
}

/// The event at which a chart begins.
fn first_event(end: ChartEnd<'_>, drawn: &Drawn<'_>) -> Result<u32, Refused>
    ensures first { IfOk result (IsFirst end.entry drawn.now) }
    ensures refused { IfErr result (IsEndFault From end.entry drawn.now) }
{
    let name = match end {
        ChartEnd::Event(place) => return Ok(place),
        ChartEnd::Function(name) => name,
    };
    let symbol = symbol_of(name, ChartOption::From, drawn.names)?;
    match drawn.first_fetch(symbol) {
        Some(place) => Ok(place),
        None => Err(Refused::NeverFetched(ChartOption::From)),
    }
}

/// The event at which a chart ends.
fn last_event(end: ChartEnd<'_>, drawn: &Drawn<'_>) -> Result<u32, Refused>
    requires few { length drawn.now.events.now ≤ most_events }
    ensures last { IfOk result (IsLast end.entry drawn.now) }
    ensures refused { IfErr result (IsEndFault To end.entry drawn.now) }
{
    let name = match end {
        ChartEnd::Event(place) => return Ok(place),
        ChartEnd::Function(name) => name,
    };
    let symbol = symbol_of(name, ChartOption::To, drawn.names)?;
    match drawn.last_event(symbol) {
        Some(place) => Ok(place),
        None => Err(Refused::NeverFetched(ChartOption::To)),
    }
}

/// What a name stands for that an option of a chart gives.
fn symbol_of(name: &str, option: ChartOption, names: &Symbols<'_>) -> Result<Symbol, Refused>
    ensures named { IfOk result (IsNamed (table_of names.now) name.now) }
    ensures refused { IfErr result (IsNoSymbol (table_of names.now) name.now option) }
{
    match meaning_of_word(names, name.as_bytes()) {
        Meaning::One(symbol) => Ok(symbol),
        Meaning::Several => Err(Refused::NamesSeveral(option)),
        Meaning::Nothing => Err(Refused::NamesNothing(option)),
    }
}

impl Drawn<'_> {
    /// The place of the first fetch of an instruction in what a symbol names.
    fn first_fetch(&self, symbol: Symbol) -> Option<u32>
        ensures { result ≡ first_fetch self.now.hart symbol self.now.rows.now }
    {
        match first_row(self.rows, self.hart, symbol) {
            Some(row) => Some(row.fetched),
            None => None,
        }
    }

    /// The place of the last event of an instruction in what a symbol names.
    fn last_event(&self, symbol: Symbol) -> Option<u32>
        requires few { length self.now.events.now ≤ most_events }
        ensures some { IfSome result (IsLastEvent self.now.hart symbol self.now.rows.now self.now.events.now) }
        ensures none { IfNone result ((place : ℕ)
            → is_event_in self.now.hart symbol self.now.rows.now self.now.events.now place ≡ false) }
    {
        for back in 0..self.events.len() {
            let place = self.events.len() - 1 - back;
            if self.has_event_in(place, symbol) {
                return Some(place as u32);
            }
        }
        None
    }

    /// Whether the event at a place is of an instruction that is drawn, and in what a symbol names.
    fn has_event_in(&self, place: usize, symbol: Symbol) -> bool
        ensures { result ≡ is_event_in self.now.hart symbol self.now.rows.now self.now.events.now place }
    {
        let Some(event) = self.events.get(place) else {
            return false;
        };
        match self.rows.get(event.seq() as usize) {
            Some(row) => is_drawn_in(self.hart, symbol, row),
            None => false,
        }
    }
}

/// The first row of an instruction that is drawn, and in what a symbol names.
fn first_row(rows: &[Row], hart: Option<u8>, symbol: Symbol) -> Option<&Row>
    ensures { option_copied result ≡ find (is_drawn_in hart symbol) rows.now }
{
    rows.iter().find(|row| is_drawn_in(hart, symbol, row))
}

/// Whether the instruction of a row is drawn, and in what a symbol names.
fn is_drawn_in(hart: Option<u8>, symbol: Symbol, row: &Row) -> bool
    ensures { result ≡ is_drawn_in hart symbol row.now }
{
    draws(hart, row.hart) && covers(symbol, row.pc)
}

fn draws(hart: Option<u8>, other: u8) -> bool
    ensures { result ≡ draws_hart hart other }
{
    match hart {
        Some(one) => one == other,
        None => true,
    }
}

/// What a word stands for: all of it, as a name; or where that is none, what stands behind its last colon, of the
/// part of the program whose file stands before that.
fn meaning_of_word(names: &Symbols<'_>, word: &[u8]) -> Meaning
    ensures { IsMeaningOf (table_of names.now) word.now result }
{
    let whole = Name {
        file: None,
        name: word,
    };
    match (meaning_of(names, &whole), name_in_file(word)) {
        (Meaning::Nothing, Some(name)) => meaning_of(names, &name),
        (meaning, _) => meaning,
    }
}

/// The name behind the last colon of a word, with the file before that.
fn name_in_file(word: &[u8]) -> Option<Name<'_>>
    ensures some { IfSome result (λ name. IsInFile word.now name) }
    ensures none { IfNone result (Lacks 58 word.now) }
{
    for back in 0..word.len() {
        let place = word.len() - 1 - back;
        if word[place] == b':' {
            return Some(Name {
                file: Some(&word[..place]),
                name: &word[place + 1..],
            });
        }
    }
    None
}
