//! The files that a line reads, none of which is written over, however it is spelled.

ghost use Rattle.std.specs.Prelude.{◌≡◌, option_map, true};
ghost use Rattle.program_io.specs.ReadFiles.{is_named, IsReadAsNamed};

use sim_inputs::{Files as NamedFiles, is_standard_input};
use std::fs;
use std::os::unix::fs::MetadataExt;
use std::rt::Files;

/// What standard input is, as a file.
const STANDARD_INPUT: &str = "/dev/stdin";

/// The names of the files that a line reads.
#[derive(Clone, Copy, Drop)]
pub struct ReadFiles<'a> {
    config: Option<&'a str>,
    program: Option<&'a str>,
    second: Option<&'a str>,
    lines: Option<&'a str>,
}

impl<'a> ReadFiles<'a> {
    /// Those among the files that a line names.
    pub fn of(files: &NamedFiles<'a>) -> Self {
        ReadFiles {
            config: files.config,
            program: files.program,
            second: files.second,
            lines: files.lines,
        }
    }
}

/// Whether the file that would be written at this path is one that is read: by the same name, or as the
/// same regular file. Of a device there is nothing to be lost.
pub(crate) fn is_read<S: Files>(files: &S, read: &ReadFiles<'_>, path: &str) -> bool
    ensures { IsReadAsNamed read.now path.now → result ≡ true }
{
    if is_one(files, read.config, path) {
        return true;
    }
    if is_one(files, read.program, path) {
        return true;
    }
    if is_one(files, read.second, path) {
        return true;
    }
    is_one(files, read.lines, path)
}

/// Whether the file that would be written is this one, which is read; none is.
fn is_one<S: Files>(files: &S, read: Option<&str>, path: &str) -> bool
    ensures { is_named (option_map (λ name. name.now) read.entry) path.now ≡ true → result ≡ true }
{
    match read {
        Some(name) if name == path => true,
        Some(name) => is_same_file(files, name, path),
        None => false,
    }
}

/// Whether a file that is read, and one that is written, are one regular file. The system numbers its
/// files, so it is told under whatever names.
pub(crate) fn is_same_file<S: Files>(files: &S, read: &str, written: &str) -> bool {
    let read = if is_standard_input(read) {
        STANDARD_INPUT
    } else {
        read
    };
    let (Ok(one), Ok(other)) = (fs::metadata(files, read), fs::metadata(files, written)) else {
        return false;
    };
    one.is_file() && one.dev() == other.dev() && one.ino() == other.ino()
}
