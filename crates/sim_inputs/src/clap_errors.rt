ghost use Rattle.clap.specs.Words.{kind_of};
ghost use Rattle.sim_inputs.specs.CommandLine.{IsRefusalOf};

use crate::limits::with_limits;
use crate::line::WordsRefused;
use clap::Error;
use clap::error::ErrorKind;
use std::alloc::{AllocError, Global};

/// What is made of an error of `clap`.
pub(crate) fn refusal(error: Error, alloc: Global) -> WordsRefused
    ensures { IsRefusalOf (kind_of error) result }
{
    match error.kind() {
        ErrorKind::OutOfMemory => WordsRefused::Memory,
        ErrorKind::DisplayVersion => match error.to_string(alloc) {
            Ok(text) => WordsRefused::Version(text),
            Err(_) => WordsRefused::Memory,
        },
        ErrorKind::DisplayHelp => match help_in(&error, alloc) {
            Ok(text) => WordsRefused::Help(text),
            Err(_) => WordsRefused::Memory,
        },
        _ => WordsRefused::Refused,
    }
}

/// The help that an error of `clap` has, with the limits.
fn help_in(error: &Error, alloc: Global) -> Result<String, AllocError> {
    let help = error.to_string(alloc)?;
    with_limits(help, alloc)
}
