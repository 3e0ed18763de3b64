//! The reductions that a search of outcomes leaves out, by the words of `--without`.

ghost use Rattle.std.specs.Prelude.{codes};
ghost use Rattle.clap.specs.Words.{first_of, found_of, rows_of};
ghost use Rattle.sim_inputs.specs.CommandLine.{Finds};
ghost use Rattle.sim_inputs.specs.LeftOut.{IsWithout};

use crate::found_values::value_of;
use clap::ArgMatches;
use reductions::{Without, read_list};

/// What the list leaves out that was found, or nothing where none was given; none where something else was found.
pub(crate) fn without_in(found: &ArgMatches<'_>) -> Option<Without>
    ensures { Finds (IsWithout (first_of (codes "without") (rows_of (found_of found.now)))) result }
{
    match value_of(found, "without") {
        Some(list) => read_list(list),
        None => Some(Without::none()),
    }
}
