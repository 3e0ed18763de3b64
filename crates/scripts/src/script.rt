ghost use Rattle.std.specs.Prelude.{◌≡◌, All, IfOk, IfErr};
ghost use Rattle.scripts.specs.declared.script.ScriptRefused.TheVariants.{Memory};
ghost use Rattle.scripts.specs.Script.{IsInRange, IsScript, IsScriptRefusedFor};

use crate::actions::ScriptWord;
use crate::spelling::read_word;
use crate::splitting::first_piece;
use std::alloc::{AllocFailed, Global};
use thiserror::Error;

/// Why a script was refused.
#[derive(Clone, Copy, Debug, PartialEq, Eq, Drop, Error)]
pub enum ScriptRefused {
    /// This word, from 1, is the first that says nothing.
    #[error("script word {0} refused")]
    Word(usize),
    #[error("memory")]
    Memory,
}

impl From<AllocFailed<ScriptWord>> for ScriptRefused {
    ghost from_gives = { λ _ e. e ≡ Memory };

    fn from(_error: AllocFailed<ScriptWord>) -> Self {
        ScriptRefused::Memory
    }
}

/// Reads a script: words apart by spaces or newlines, each an action (`F0`, `D1.0`, `R1.0`, `T2.0`,
/// `I3`, `C3`, `U3`) and, behind an asterisk, how often it is made. An empty script has no words.
pub fn read_script(bytes: &[u8], alloc: Global) -> Result<Vec<ScriptWord>, ScriptRefused>
    ensures ok { IfOk result (λ words. IsScript bytes.now words.items) }
    ensures in_range { IfOk result (λ words. All (λ word. IsInRange word.action) words.items) }
    ensures misspelled { IfErr result (IsScriptRefusedFor bytes.now) }
{
    let mut words = Vec::new(alloc);
    let mut text = bytes;
    while let Some((piece, rest)) = first_piece(text) {
        let Some(word) = read_word(piece) else {
            return Err(ScriptRefused::Word(words.len() + 1));
        };
        words.push(word)?;
        text = rest;
    }
    Ok(words)
}
