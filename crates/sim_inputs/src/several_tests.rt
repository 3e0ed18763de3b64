//! Litmus tests of which there are several: more names than one, a folder, or a list of names.

ghost use Rattle.std.specs.Prelude.{◌≡◌, IfOk, map};
ghost use Rattle.std.specs.List.{list_any};
ghost use Rattle.clap.specs.Words.{found_of, rows_of};
ghost use Rattle.sim_inputs.specs.SeveralTests.{are_several, is_made_alone, is_of_one, is_summed, is_told_alone};
ghost use Rattle.sim_inputs.specs.SeveralTests.{names_input, names_list, tests_in, tests_named};
ghost use Rattle.sim_inputs.specs.Files.{is_standard_input};

use crate::description::describe;
use crate::files::is_standard_input;
use crate::line::LitmusCommand;
use clap::ArgMatches;
use std::alloc::{AllocError, Global};

/// What a name begins with that is of a list.
const LIST_MARK: u8 = b'@';

/// The tests that words name which come to a line, in the order in which they are written. Fails only for want of
/// memory.
pub fn tests_asked<'a>(words: &'a [&'a str], alloc: Global) -> Result<Vec<&'a str>, AllocError>
    ensures { IfOk result (λ tests. map (λ test. test.now) tests.items
        ≡ tests_named (map (λ word. word.now) words.entry.now)) }
{
    let command = describe(alloc)?;
    let Ok(matches) = command.try_get_matches_from(words) else {
        return Err(AllocError);
    };
    match matches.subcommand() {
        Some((_, found)) => names_found(found, alloc),
        None => Ok(Vec::new(alloc)),
    }
}

/// The names that were found for TEST. Fails only for want of memory.
fn names_found<'a>(found: &ArgMatches<'a>, alloc: Global) -> Result<Vec<&'a str>, AllocError>
    ensures { IfOk result (λ tests. map (λ test. test.now) tests.items
        ≡ tests_in (rows_of (found_of found.now))) }
{
    match found.get_strs("TEST") {
        Some(names) => Vec::from_slice(alloc, names),
        None => Ok(Vec::new(alloc)),
    }
}

/// Whether there are more of them than one, or one is of a list.
pub(crate) fn are_several(found: &ArgMatches<'_>) -> bool
    ensures { result ≡ are_several (tests_in (rows_of (found_of found.now))) }
{
    match found.get_strs("TEST") {
        Some(names) => names.len() > 1 || any_list(names),
        None => false,
    }
}

fn any_list(names: &[&str]) -> bool
    ensures { result ≡ list_any (λ name. names_list name.now) names.now }
{
    for name in names {
        if names_list(name) {
            return true;
        }
    }
    false
}

/// Whether a name is of a list: `@FILE`.
pub fn names_list(name: &str) -> bool
    ensures { result ≡ names_list name.now }
{
    match name.as_bytes().first() {
        Some(byte) => *byte == LIST_MARK,
        None => false,
    }
}

/// Whether standard input is one of the tests.
pub(crate) fn names_input(found: &ArgMatches<'_>) -> bool
    ensures { result ≡ names_input (tests_in (rows_of (found_of found.now))) }
{
    match found.get_strs("TEST") {
        Some(names) => any_input(names),
        None => false,
    }
}

fn any_input(names: &[&str]) -> bool
    ensures { result ≡ list_any (λ name. is_standard_input name.now) names.now }
{
    for name in names {
        if is_standard_input(name) {
            return true;
        }
    }
    false
}

impl LitmusCommand<'_> {
    /// Whether something else is printed than the states of the tests.
    pub fn is_summed(&self) -> bool
        ensures { result ≡ is_summed self.now }
    {
        self.summary || self.expect.is_some()
    }
}

/// Whether a file that is written, the order of a state, or runs of the core are of one test alone, whose states are
/// printed.
pub(crate) fn is_made_alone(litmus: &LitmusCommand<'_>) -> bool
    ensures { result ≡ is_made_alone litmus.now }
{
    !is_of_one(litmus) || !(litmus.several || litmus.is_summed())
}

/// Whether something is made that is of one test.
fn is_of_one(litmus: &LitmusCommand<'_>) -> bool
    ensures { result ≡ is_of_one litmus.now }
{
    litmus.image.is_some()
        || litmus.svg.is_some()
        || litmus.outcome.is_some()
        || litmus.run.is_some()
}

/// Whether what stands in place of the states is one thing, without reasons behind it.
pub(crate) fn is_told_alone(litmus: &LitmusCommand<'_>) -> bool
    ensures { result ≡ is_told_alone litmus.now }
{
    !(litmus.summary && litmus.expect.is_some()) && !(litmus.why && litmus.is_summed())
}
