//! Why a file can't be read or written, as the system says it or as the program does.

use hints::{Hint, Part};
use std::alloc::{AllocError, Global};
use std::io::ErrorKind;

/// Why a file can't be read or written.
#[derive(Clone, Copy, PartialEq, Eq, Drop)]
pub enum FileFault {
    /// The system refused it for this.
    System(ErrorKind),
    /// It has more than 1 GiB, or no end.
    TooLong,
    /// It would be written over, and the line reads it.
    IsRead,
    /// The line writes another file to its place.
    IsWritten,
    /// Its name is longer than any path of the system.
    LongName,
}

/// What is done with a file.
#[derive(Clone, Copy, PartialEq, Eq, Drop)]
pub(crate) enum Doing {
    Reading,
    /// Reading standard input.
    ReadingInput,
    Writing,
    /// Writing to standard output.
    Printing,
}

/// Adds why a file can't be read or written.
pub(crate) fn add_cause(
    fault: FileFault,
    doing: Doing,
    hint: &mut Hint,
    alloc: Global,
) -> Result<(), AllocError> {
    let known = match fault {
        FileFault::TooLong => Some("more than 1 GiB, or no end"),
        FileFault::IsRead => Some("the same line reads it"),
        FileFault::IsWritten => Some("the same line writes it twice"),
        FileFault::LongName => Some("a name that is too long"),
        FileFault::System(kind) => known_cause(kind, doing),
    };
    if let Some(cause) = known {
        return hint.add(Part::Cause, cause.as_bytes());
    }
    if let FileFault::System(kind) = fault {
        let cause = kind.to_string(alloc)?;
        return hint.add(Part::Cause, cause.as_bytes());
    }
    Ok(())
}

/// What is said of the failures that come of files; none of any other.
fn known_cause(kind: ErrorKind, doing: Doing) -> Option<&'static str> {
    let cause = match (kind, doing) {
        (ErrorKind::NotFound, Doing::Writing) => "its folder isn't there",
        (ErrorKind::NotFound, _) => "not there",
        (ErrorKind::PermissionDenied, Doing::Reading) => "may not be read",
        (ErrorKind::PermissionDenied, _) => "may not be written",
        // A folder stands in the place of a stream that is closed, and takes no bytes.
        (ErrorKind::IsADirectory, Doing::ReadingInput) => "closed, or a folder",
        (ErrorKind::Uncategorized, Doing::Printing) => "closed",
        (ErrorKind::IsADirectory, _) => "a folder",
        (ErrorKind::NotADirectory, _) => "what its path leads through is no folder",
        (ErrorKind::FilesystemLoop, _) => "symbolic links that lead in a circle",
        (ErrorKind::StorageFull, _) => "the device is full",
        (ErrorKind::QuotaExceeded, _) => "the quota is used up",
        (ErrorKind::FileTooLarge, _) => "longer than the system lets files be",
        (ErrorKind::ReadOnlyFilesystem, _) => "the file system may not be written",
        (ErrorKind::InvalidFilename, _) => "a name that is too long",
        (ErrorKind::BrokenPipe, _) => "nobody reads it any more",
        _ => return None,
    };
    Some(cause)
}
