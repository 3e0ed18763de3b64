ghost use Rattle.std.specs.Prelude.{◌≡◌, ◌⊎◌, IsTrue, Err, IfOk, IfErr, OnOk, map, string_bytes};
ghost use Rattle.std.specs.Vec.Iter.{into_iter_items};
ghost use Rattle.std.specs.Io.KnownBytes.{Appends};
ghost use Rattle.std.specs.IoError.{error_kind};
ghost use Rattle.sim_inputs.specs.declared.line.WordsRefused.TheVariants.{Memory};
ghost use Rattle.report_lines.specs.Statuses.{says_harts};
ghost use Rattle.program_io.specs.Words.{words_refused, HaveTold, IsWordsStatus};

use command_parts::{Refused, refuse};
use fault_hints::WordsFault;
use sim_inputs::WordsRefused;
use std::alloc::{AllocError, Global};
use std::env::Args;
use std::io;
use std::io::{ErrorKind, Write};

/// The words, where all are texts and there is memory to hold them.
pub fn take_words(words: io::Result<Args>, alloc: Global) -> Result<Vec<String>, WordsRefused>
    ensures unread { IfErr words (λ error. result ≡ Err (words_refused (error_kind error))) }
    ensures all { IfOk words (λ args. IfOk result (λ all. all.items ≡ into_iter_items args)) }
    ensures memory { IfOk words (λ args. IfErr result (λ refused. refused ≡ Memory)) }
{
    let words = match words {
        Ok(words) => words,
        Err(error) => return Err(unread_words(&error)),
    };
    match collect(words, alloc) {
        Ok(words) => Ok(words),
        Err(AllocError) => Err(WordsRefused::Memory),
    }
}

/// Why words that couldn't be read are refused: one that is no text is none of a command line.
fn unread_words(error: &io::Error) -> WordsRefused
    ensures { result ≡ words_refused (error_kind error.now) }
{
    match error.kind() {
        ErrorKind::OutOfMemory => WordsRefused::Memory,
        _ => WordsRefused::Refused,
    }
}

/// All words, in their order. Fails only where there is no memory to hold them.
fn collect(words: Args, alloc: Global) -> Result<Vec<String>, AllocError>
    ensures { IfOk result (λ all. all.items ≡ into_iter_items words) }
{
    let mut all = Vec::new(alloc);
    for word in words {
        all.push(word)?;
    }
    Ok(all)
}

/// The text of each word, in their order. Fails only where there is no memory to hold them.
pub fn texts<'a>(words: &'a [String], alloc: Global) -> Result<Vec<&'a str>, AllocError>
    ensures { IfOk result
        (λ texts. map (λ text. text.now) texts.items ≡ map string_bytes words.entry.now) }
{
    let mut texts = Vec::new(alloc);
    for word in words {
        texts.push(word.as_str())?;
    }
    Ok(texts)
}

/// What a hint is of where words are refused for this, which were read or not, and their help or version isn't printed.
pub(crate) fn fault_of(refused: &WordsRefused, are_read: bool) -> WordsFault {
    match refused {
        WordsRefused::Help(_) | WordsRefused::Version(_) => WordsFault::Output(None),
        WordsRefused::Refused if are_read => WordsFault::Refused,
        WordsRefused::Refused => WordsFault::Unread,
        WordsRefused::Memory => WordsFault::Memory,
    }
}

/// Prints the help or the version that was asked for, or says on one line why nothing is done. Answers the exit
/// status: 0 for these, 2 for words that ask for nothing, 5 for want of memory and where `out` fails.
pub fn refuse_words<W: Write, E: Write>(refused: WordsRefused, out: &mut W, err: &mut E) -> u8
    ensures known { IsTrue (says_harts result) ⊎ (result ≡ 2) ⊎ (result ≡ 4) ⊎ (result ≡ 5) }
    ensures status { IsWordsStatus refused result }
    ensures told { HaveTold refused (W.contents out.old) (W.contents out.new) result }
{
    match refused {
        WordsRefused::Help(text) | WordsRefused::Version(text) => match print(text.as_str(), out) {
            Ok(()) => 0,
            Err(_) => refuse(Refused::Output, err),
        },
        WordsRefused::Refused => {
            let _ = writeln!(err, "smtsim: {refused}");
            2
        }
        WordsRefused::Memory => refuse(Refused::Memory, err),
    }
}

fn print<W: Write>(text: &str, out: &mut W) -> io::Result<()>
    ensures { OnOk result (Appends (W.contents out.old) (W.contents out.new) text.now) }
{
    out.write_all(text.as_bytes())?;
    out.flush()
}
