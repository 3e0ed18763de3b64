//! Which actors ask for what, and how often.

use crate::kind::{EVERY_KIND, KINDS, Kind};
use numbers::sizes::MOST_ACTORS;
use scripts::ScriptWord;
use smt_model::Role;
use std::io;
use std::io::Write;

/// How often each actor asks for each kind of action.
#[derive(Drop)]
pub(crate) struct Asked {
    words: u64,
    all: u64,
    by_actor: [[u64; KINDS]; MOST_ACTORS],
}

impl Asked {
    /// Nothing is asked for.
    pub(crate) fn new() -> Asked {
        Asked {
            words: 0,
            all: 0,
            by_actor: [[0; KINDS]; MOST_ACTORS],
        }
    }

    /// Counts a word, as often as it is made.
    pub(crate) fn count(&mut self, word: ScriptWord) {
        let times = u64::from(word.repeat);
        self.words = self.words.saturating_add(1);
        self.all = self.all.saturating_add(times);
        let (actor, kind) = Kind::of(word.action);
        if usize::from(actor) < MOST_ACTORS {
            let count = &mut self.by_actor[usize::from(actor)][kind as usize];
            *count = count.saturating_add(times);
        }
    }

    /// Writes how many words and asks there are, and how many of these have made a step; then a line for each actor of
    /// the core, and for each other one that asks for something.
    pub(crate) fn write<W: Write>(
        &self,
        steps: u64,
        roles: &[Role],
        out: &mut W,
    ) -> io::Result<()> {
        writeln!(
            out,
            "words {}\nasks {}\nsteps {steps}",
            self.words, self.all
        )?;
        for (actor, kinds) in self.by_actor.iter().enumerate() {
            match roles.get(actor) {
                Some(role) => write!(out, "actor {actor} {}:", role.name())?,
                None if kinds.iter().any(|count| *count > 0) => {
                    write!(out, "actor {actor} not there:")?;
                }
                None => continue,
            }
            write_kinds(kinds, out)?;
        }
        Ok(())
    }
}

/// Writes how often each kind is asked for, those that are, and the end of the line.
fn write_kinds<W: Write>(kinds: &[u64; KINDS], out: &mut W) -> io::Result<()> {
    let mut listed = false;
    for (kind, count) in EVERY_KIND.iter().zip(kinds.iter()) {
        if *count > 0 {
            if listed {
                out.write_all(b",")?;
            }
            out.write_all(&[b' ', kind.letter()])?;
            write!(out, " {count}")?;
            listed = true;
        }
    }
    if !listed {
        out.write_all(b" nothing")?;
    }
    out.write_all(b"\n")
}
