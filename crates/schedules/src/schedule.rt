//! The lines of a schedule, and how they are written.

ghost use Rattle.std.specs.Prelude.{◌≡◌, ◌+◌, ◌≤◌, ◌++◌, flat_map, OnOk};
ghost use Rattle.std.specs.Io.KnownBytes.{Appends};
ghost use Rattle.arrayvec.specs.ArrayVec.{array_vec_len};
ghost use Rattle.scripts.specs.Lines.{line_text};
ghost use Rattle.schedules.specs.Turns.{turn_words, turn_lines, unit_words, fetch_words, once};

use crate::units::Units;
use arrayvec::ArrayVec;
use scripts::{Action, ScriptWord, write_line};
use smt_model::Turn;
use std::io;
use std::io::Write;
use std::marker::Model;

/// The words of a turn: four that each has, a unit of each kind, and a fetch.
type TurnWords = ArrayVec<ScriptWord, 7>;

/// The script of an order of harts. A clause sees its text: a line with a fetch for each hart, and
/// a line for each turn.
#[derive(Drop)]
pub struct Schedule {
    pub(crate) harts: u8,
    pub(crate) units: Units,
    pub(crate) turns: Vec<Turn>,
}

impl Model for Schedule {
    ghost use Rattle.std.specs.Prelude.{ℕ, List};

    ghost Value = { List ℕ };

    ghost use Rattle.schedules.specs.Turns.{schedule_text};

    ghost view = { λ s. schedule_text s.harts s.units s.turns.items };
}

impl Schedule {
    /// Writes the script. Where it answers Ok, it has written exactly its text.
    pub fn write<W: Write>(&self, out: &mut W) -> io::Result<()>
        ensures { OnOk result (Appends (W.contents out.old) (W.contents out.new) self.now) }
    {
        let fetches = ScriptWord {
            action: Action::Fetch { actor: 0 },
            repeat: u32::from(self.harts),
        };
        write_line(&[fetches], out)?;
        write_turns(self.units, self.turns.as_slice(), out)
    }
}

/// Writes a line for each turn.
fn write_turns<W: Write>(units: Units, turns: &[Turn], out: &mut W) -> io::Result<()>
    ensures { OnOk result (Appends (W.contents out.old) (W.contents out.new)
        (flat_map line_text (turn_lines units turns.now))) }
{
    for turn in turns {
        write_turn(units, *turn, out)?;
    }
    Ok(())
}

fn write_turn<W: Write>(units: Units, turn: Turn, out: &mut W) -> io::Result<()>
    ensures { OnOk result (Appends (W.contents out.old) (W.contents out.new)
        (line_text (turn_words units turn))) }
{
    write_line(words_of(units, turn).as_slice(), out)
}

/// The words of a turn: an instruction of its hart is decoded, renamed, offered to a unit of each
/// kind, and retired; then one more is fetched, if the turn says so.
fn words_of(units: Units, turn: Turn) -> TurnWords
    ensures { result.items ≡ turn_words units turn }
{
    let hart = turn.hart;
    let mut words = TurnWords::new();
    words.push(once(Action::Decode { actor: 0, hart }));
    words.push(once(Action::Rename { actor: 0, hart }));
    push_unit(&mut words, units.alu);
    push_unit(&mut words, units.mul);
    push_unit(&mut words, units.mem);
    words.push(once(Action::Retire { actor: 0, hart }));
    push_fetch(&mut words, turn.fetches);
    words
}

/// A unit issues and completes, where there is one.
fn push_unit(words: &mut TurnWords, unit: Option<u8>)
    requires { array_vec_len words.old + 1 ≤ 7 }
    ensures items { words.new.items ≡ words.old.items ++ unit_words unit }
    ensures length { array_vec_len words.new ≤ array_vec_len words.old + 1 }
{
    if let Some(actor) = unit {
        words.push(once(Action::Unit { actor }));
    }
}

/// A fetch, where one is wanted.
fn push_fetch(words: &mut TurnWords, fetches: bool)
    requires { array_vec_len words.old + 1 ≤ 7 }
    ensures { words.new.items ≡ words.old.items ++ fetch_words fetches }
{
    if fetches {
        words.push(once(Action::Fetch { actor: 0 }));
    }
}

fn once(action: Action) -> ScriptWord
    ensures { result ≡ once action }
{
    ScriptWord { action, repeat: 1 }
}
