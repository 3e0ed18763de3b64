//! What the files hold that a line names.

ghost use Rattle.std.specs.Prelude.{◌≡◌, ◌≤◌, ◌^◌, IfOk, vec_len};
ghost use Rattle.command_parts.specs.Inputs.{as_read};
ghost use Rattle.program_io.specs.Performed.{read_of, IsReadAs, uncommented_for};

use crate::files::{ReadRefused, read_file};
use command_parts::{Inputs, Unread};
use fault_hints::{FileFault, FileFaults};
use scripts::blank_comments;
use sim_inputs::{Command, Files as NamedFiles};
use std::alloc::Global;
use std::io::ErrorKind;
use std::rt::Files;

/// What the files hold that a line names, or why they couldn't be read.
#[derive(Drop)]
pub(crate) struct ReadInputs {
    config: Result<Vec<u8>, ReadRefused>,
    program: Result<Vec<u8>, ReadRefused>,
    second: Result<Vec<u8>, ReadRefused>,
    lines: Result<Vec<u8>, ReadRefused>,
}

impl ReadInputs {
    /// Reads the files, in their order.
    pub(crate) fn of<S: Files + Input>(
        system: &S,
        files: &NamedFiles<'_>,
        alloc: Global,
    ) -> ReadInputs
        ensures config { IsReadAs files.now.config (read_of result.config) }
        ensures program { IsReadAs files.now.program (read_of result.program) }
        ensures second { IsReadAs files.now.second (read_of result.second) }
        ensures lines { IsReadAs files.now.lines (read_of result.lines) }
    {
        ReadInputs {
            config: read_named(system, files.config, alloc),
            program: read_named(system, files.program, alloc),
            second: read_named(system, files.second, alloc),
            lines: read_named(system, files.lines, alloc),
        }
    }

    /// Blanks the comments of the second file, where it was read and has words.
    pub(crate) fn blank_comments(&mut self, command: &Command<'_>)
        ensures config { self.new.config ≡ self.old.config }
        ensures program { self.new.program ≡ self.old.program }
        ensures lines { self.new.lines ≡ self.old.lines }
        ensures second { read_of self.new.second ≡ uncommented_for command.now (read_of self.old.second) }
    {
        if !command.reads_words() {
            return;
        }
        if let Ok(bytes) = &mut self.second {
            blank_comments(bytes.as_mut_slice());
        }
    }

    /// Why files can't be read, and these that are written.
    pub(crate) fn faults_with(
        &self,
        written: Option<FileFault>,
        output: Option<ErrorKind>,
    ) -> FileFaults {
        FileFaults {
            config: fault_in(&self.config),
            program: fault_in(&self.program),
            second: fault_in(&self.second),
            lines: fault_in(&self.lines),
            written,
            is_beside: false,
            output: match output {
                Some(kind) => Some(FileFault::System(kind)),
                None => None,
            },
        }
    }

    /// The bytes that were read, lent.
    pub(crate) fn lent(&self) -> Inputs<'_>
        ensures config { as_read result.config ≡ read_of self.now.config }
        ensures program { as_read result.program ≡ read_of self.now.program }
        ensures second { as_read result.second ≡ read_of self.now.second }
        ensures lines { as_read result.lines ≡ read_of self.now.lines }
    {
        Inputs {
            config: lent(&self.config),
            program: lent(&self.program),
            second: lent(&self.second),
            lines: lent(&self.lines),
        }
    }
}

/// The bytes of a file that the line names; none where it names none.
fn read_named<S: Files + Input>(
    system: &S,
    name: Option<&str>,
    alloc: Global,
) -> Result<Vec<u8>, ReadRefused>
    ensures few { IfOk result (λ bytes. vec_len bytes ≤ 2 ^ 30) }
    ensures unnamed { IsReadAs name.entry (read_of result) }
{
    match name {
        Some(name) => read_file(system, name, alloc),
        None => Ok(Vec::new(alloc)),
    }
}

/// The bytes of a file, lent, or why there are none.
fn lent(file: &Result<Vec<u8>, ReadRefused>) -> Result<&[u8], Unread>
    ensures { as_read result ≡ read_of file.now }
{
    match file {
        Ok(bytes) => Ok(bytes.as_slice()),
        Err(why) => Err(why.unread()),
    }
}

/// Why a file can't be read, if it can't be, and not for want of memory.
fn fault_in(file: &Result<Vec<u8>, ReadRefused>) -> Option<FileFault> {
    match file {
        Ok(_) | Err(ReadRefused::Memory) => None,
        Err(ReadRefused::TooLong) => Some(FileFault::TooLong),
        Err(ReadRefused::Failed(kind)) => Some(FileFault::System(*kind)),
    }
}
