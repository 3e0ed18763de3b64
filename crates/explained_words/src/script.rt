//! What is said of a script.

ghost use Rattle.std.specs.Prelude.{◌≡◌, IfOk, codes};
ghost use Rattle.scripts.specs.Script.{IsScript, IsFirstMisspelled};
ghost use Rattle.explanations.specs.Explained.{Begins};
ghost use Rattle.explained_words.specs.Explained.{IsScriptExplained, refused_script};

use crate::asked::Asked;
use crate::listing::Listing;
use crate::misspelled::write_misspelled;
use crate::never::never_followed;
use crate::placed::Words;
use crate::trial::Trial;
use arrayvec::ArrayString;
use elf_image::Image;
use explanations::joined;
use scripts::{ScriptRefused, ScriptWord, read_script};
use smt_core::{Config, Core, Predict};
use std::alloc::{AllocError, Global};
use std::io;
use std::io::Write;
use text_fields::push_decimal;

/// What is said of a script.
#[derive(Drop)]
pub struct ScriptExplained {
    /// The first word, from 1, that says nothing; none where all say something.
    pub refused: Option<usize>,
    /// Lines for a person. The first says whether the script is accepted.
    pub text: Vec<u8>,
}

/// Says of a script's text which actors of a core of this image and configuration ask for what, which words no such
/// core follows, and which make no step where a core with room for `limit` events makes them in order; or which word
/// is refused, and what may stand there. Fails only for want of memory.
pub fn explain_script<P: Predict>(
    text: &[u8],
    image: &Image,
    config: &Config,
    limit: u32,
    predict: &mut P,
    alloc: Global,
) -> Result<ScriptExplained, AllocError>
    ensures { IfOk result (IsScriptExplained text.now) }
{
    match read_script(text, alloc) {
        Ok(words) => {
            let Ok(core) = Core::new(image, config.copied(), limit, alloc) else {
                return Err(AllocError);
            };
            let said = accepted_text(text, words.as_slice(), core, config, predict, alloc)?;
            Ok(ScriptExplained {
                refused: None,
                text: said,
            })
        }
        Err(ScriptRefused::Word(number)) => {
            let said = refused_text(text, number, config, alloc)?;
            Ok(ScriptExplained {
                refused: Some(number),
                text: said,
            })
        }
        Err(ScriptRefused::Memory) => Err(AllocError),
    }
}

/// What is said where it is accepted.
fn accepted_text<P: Predict>(
    text: &[u8],
    words: &[ScriptWord],
    core: Core,
    config: &Config,
    predict: &mut P,
    alloc: Global,
) -> Result<Vec<u8>, AllocError>
    ensures { IfOk result (λ said. Begins (codes "script accepted\n") said.items) }
{
    let mut rest = Vec::new(alloc);
    let trial = Trial::new(core);
    match write_words(text, words, trial, config, predict, &mut rest, alloc) {
        Ok(()) => joined(b"script accepted\n", &rest, alloc),
        Err(_) => Err(AllocError),
    }
}

/// Writes what the words ask for, and which of them come to nothing.
fn write_words<P: Predict, W: Write>(
    text: &[u8],
    words: &[ScriptWord],
    trial: Trial,
    config: &Config,
    predict: &mut P,
    out: &mut W,
    alloc: Global,
) -> io::Result<()> {
    let mut trial = trial;
    let mut placed = Words::of(text);
    let mut asked = Asked::new();
    let mut never = Listing::new(alloc);
    let mut idle = Listing::new(alloc);
    let mut steps = 0u64;
    for word in words {
        let place = placed.next_word();
        asked.count(*word);
        if let Some(reason) = never_followed(word.action, config) {
            never.add(&place, &reason)?;
            continue;
        }
        let made = trial.make(*word, predict);
        steps = steps.saturating_add(u64::from(made));
        if made == 0 {
            if let Some(reason) = trial.reason_of(word.action) {
                idle.add(&place, &reason)?;
            }
        }
    }
    asked.write(steps, config.roles.as_slice(), out)?;
    never.write("words that this core never follows", out)?;
    idle.write("words without a step", out)
}

/// What is said where this word, from 1, is refused.
fn refused_text(
    text: &[u8],
    number: usize,
    config: &Config,
    alloc: Global,
) -> Result<Vec<u8>, AllocError>
    ensures { IfOk result (λ said. Begins (refused_script number) said.items) }
{
    let mut rest = Vec::new(alloc);
    let placed = Words::of(text).nth_word(number.saturating_sub(1));
    match write_misspelled(&placed, config, &mut rest, alloc) {
        Ok(()) => joined(refused_line(number).as_bytes(), &rest, alloc),
        Err(_) => Err(AllocError),
    }
}

/// The first line where the word of this number is refused.
fn refused_line(number: usize) -> ArrayString<40>
    ensures { result.bytes ≡ refused_script number }
{
    let mut line = ArrayString::new();
    line.push_str("script refused ");
    push_decimal(&mut line, number);
    line.push_str("\n");
    line
}
