//! What is asked of many runs and watched of them, and whether that is there.

ghost use Rattle.std.specs.Prelude.{ℕ, List, IfOk, IfErr, OnOk};
ghost use Rattle.symbols.specs.Tables.{table_of};
ghost use Rattle.outcomes.specs.Refusals.{AreWords};
ghost use Rattle.outcome_queries.specs.declared.term.Term.{Term as AnyTerm};
ghost use Rattle.plain_commands.specs.Outcomes.{IsListOf};
ghost use Rattle.core_commands.specs.Watching.{IsAskedOnce, IsAskedRefusal, IsAsking, IsListRefusal};
ghost use Rattle.core_commands.specs.Watching.{IsAllThere, IsAbsent};

use command_parts::Refused;
use elf_image::Image;
use outcome_queries::{Question, Terms, WatchList, read_watch_list, with_terms};
use plain_commands::{question_of, see_harts, terms_asked};
use shared_memory::{AccessKind, Memory};
use sim_inputs::RunCommand;
use std::alloc::{AllocError, Global};
use symbols::Symbols;
use watched_outcomes::Watch;

/// What is asked of many runs.
#[derive(Drop)]
pub(crate) struct Asking<'a> {
    /// The question, if there is one.
    pub(crate) question: Option<Question<'a>>,
    /// What is watched for it and for the list of the command, each once.
    pub(crate) all: WatchList<'a>,
}

/// What a command asks of its runs, of so many harts. Refused are, in this order, a condition and a list that are
/// misspelled or name what the program hasn't, more than can be watched, and a hart of the condition that isn't there.
#[inline(never)]
pub(crate) fn asking_of<'a>(
    command: &RunCommand<'a>,
    names: &Symbols<'_>,
    harts: u8,
    alloc: Global,
) -> Result<Asking<'a>, Refused>
    ensures asking { IfOk result (λ asking. IsAsking harts (table_of names.now) command.now asking.question
        asking.all.items) }
    ensures refused { IfErr result (IsAskedRefusal harts (table_of names.now) command.now) }
{
    // Handed on as it is: a `?` would leave the prover to find what the refusal becomes.
    let question = match question_of(command.question, names, alloc) {
        Ok(question) => question,
        Err(refused) => return Err(refused),
    };
    let terms = terms_asked(&question);
    let all = match asked_once(command.watch, names, &terms) {
        Ok(all) => all,
        Err(refused) => return Err(refused),
    };
    match see_harts(&terms, harts) {
        Ok(()) => Ok(Asking { question, all }),
        Err(refused) => Err(refused),
    }
}

/// What a list asks for, in its order, and behind it what terms ask for, each once. Refused are a list that is misspelled
/// or names what the program hasn't, and more than can be watched.
fn asked_once<'a>(
    text: Option<&'a str>,
    names: &Symbols<'_>,
    terms: &Terms<'a>,
) -> Result<WatchList<'a>, Refused>
    ensures asked { IfOk result (λ all. IsAskedOnce (table_of names.now) text.entry terms.now.items all.items) }
    ensures refused { IfErr result (IsListRefusal (table_of names.now) text.entry terms.now.items) }
{
    let list = match list_of(text, names) {
        Ok(list) => list,
        Err(refused) => return Err(refused),
    };
    match with_terms(list.as_slice(), terms.as_slice()) {
        Some(all) => Ok(all),
        None => Err(Refused::ManyWatched),
    }
}

/// What a list names; nothing where there is no list.
fn list_of<'a>(text: Option<&'a str>, names: &Symbols<'_>) -> Result<WatchList<'a>, Refused>
    ensures read { IfOk result (λ list. IsListOf (table_of names.now) text.entry list.items) }
    ensures refused { (terms : List AnyTerm) → IfErr result (IsListRefusal (table_of names.now) text.entry terms) }
{
    let Some(text) = text else {
        return Ok(WatchList::new());
    };
    match read_watch_list(text.as_bytes(), names) {
        Ok(list) => Ok(list),
        Err(why) => Err(Refused::Watch(why)),
    }
}

/// Refuses what isn't there: a register of a hart first, then a place in memory that no load takes.
pub(crate) fn see_watched(
    watch: &Watch,
    image: &Image,
    harts: u8,
    alloc: Global,
) -> Result<(), Refused>
    ensures there { OnOk result (IsAllThere image.now harts watch.now) }
    ensures refused { IfErr result (IsAbsent image.now harts watch.now) }
{
    if let Some(index) = watch.absent_register(harts) {
        return match watch.registers.as_slice().get(index) {
            Some(watched) => Err(Refused::NoHart(u32::from(watched.hart))),
            None => Err(Refused::Memory),
        };
    }
    see_words(watch, image, alloc)
}

fn see_words(watch: &Watch, image: &Image, alloc: Global) -> Result<(), Refused>
    ensures there { OnOk result (AreWords image.now watch.now) }
    ensures refused { (harts : ℕ) → IfErr result (IsAbsent image.now harts watch.now) }
{
    if watch.words.is_empty() {
        return Ok(());
    }
    // Only its start is asked, which knows where RAM ends.
    match Memory::new(image, alloc) {
        Ok(memory) => see_in(watch, &memory),
        Err(AllocError) => Err(Refused::Memory),
    }
}

fn see_in(watch: &Watch, memory: &Memory) -> Result<(), Refused>
    ensures there { OnOk result (AreWords memory.now.image watch.now) }
    ensures refused { (harts : ℕ) → IfErr result (IsAbsent memory.now.image harts watch.now) }
{
    for index in 0..watch.words.len() {
        let bytes = watch.words[index];
        let fault = memory.fault(bytes.address, bytes.width.bytes(), AccessKind::Load);
        if fault.is_some() {
            return Err(Refused::NoWord(bytes));
        }
    }
    Ok(())
}
