//! The lines of a history's script, and how they are written.

ghost use Rattle.std.specs.Prelude.{◌≡◌, OnOk};
ghost use Rattle.std.specs.Io.KnownBytes.{Appends};
ghost use Rattle.scripts.specs.Lines.{line_text};
ghost use Rattle.std.specs.Prelude.{flat_map, map, slice_index_or};
ghost use Rattle.history_scripts.specs.Lines.{word_for, line_for, action_for, text_for};

use events::{Event, Seq};
use scripts::{Action, ScriptWord, write_line};
use std::io;
use std::io::Write;
use std::marker::Model;

/// The script of a history. A clause sees its text: a line for each event, which asks for it.
#[derive(Drop)]
pub struct HistoryScript<'a> {
    pub(crate) events: &'a [Event],
    /// The hart of each instruction, by its number.
    pub(crate) harts: Vec<u8>,
}

impl<'a> Model for HistoryScript<'a> {
    ghost use Rattle.std.specs.Prelude.{ℕ, List};

    ghost Value = { List ℕ };

    ghost use Rattle.history_scripts.specs.Lines.{text_for};

    ghost view = { λ s. text_for s.harts.items s.events.now };
}

impl HistoryScript<'_> {
    /// Writes the script. Where it answers Ok, it has written exactly its text.
    pub fn write<W: Write>(&self, out: &mut W) -> io::Result<()>
        ensures { OnOk result (Appends (W.contents out.old) (W.contents out.new) self.now) }
    {
        write_lines(self.harts.as_slice(), self.events, out)
    }
}

/// Writes a line for each event.
fn write_lines<W: Write>(harts: &[u8], events: &[Event], out: &mut W) -> io::Result<()>
    ensures { OnOk result (Appends (W.contents out.old) (W.contents out.new)
        (text_for harts.now events.now)) }
{
    for event in events {
        write_event(harts, event, out)?;
    }
    Ok(())
}

/// Writes the line that asks for an event.
fn write_event<W: Write>(harts: &[u8], event: &Event, out: &mut W) -> io::Result<()>
    ensures { OnOk result (Appends (W.contents out.old) (W.contents out.new)
        (line_text (line_for harts.now event.now))) }
{
    write_line(&[word_for(harts, event)], out)
}

fn word_for(harts: &[u8], event: &Event) -> ScriptWord
    ensures { result ≡ word_for harts.now event.now }
{
    ScriptWord {
        action: action_for(harts, event),
        repeat: 1,
    }
}

/// What is asked for an event.
fn action_for(harts: &[u8], event: &Event) -> Action
    ensures { result ≡ action_for harts.now event.now }
{
    match *event {
        Event::Fetch { actor, .. } => Action::Fetch { actor },
        Event::Decode { actor, seq } => Action::Decode {
            actor,
            hart: hart_of(harts, seq),
        },
        Event::Rename { actor, seq, .. } => Action::Rename {
            actor,
            hart: hart_of(harts, seq),
        },
        Event::Issue { actor, .. } => Action::Issue { actor },
        Event::Complete { actor, .. } => Action::Complete { actor },
        Event::Drop { actor, .. } => Action::Complete { actor },
        Event::Retire { actor, seq, .. } => Action::Retire {
            actor,
            hart: hart_of(harts, seq),
        },
        Event::Refetch { actor, seq } => Action::Retire {
            actor,
            hart: hart_of(harts, seq),
        },
    }
}

/// The hart of an instruction, and 0 where there is none of this number.
fn hart_of(harts: &[u8], seq: Seq) -> u8
    ensures { result ≡ slice_index_or harts.now seq 0 }
{
    match harts.get(seq as usize) {
        Some(hart) => *hart,
        None => 0,
    }
}
