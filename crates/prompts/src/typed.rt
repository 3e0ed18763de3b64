//! The lines that are typed, as they are read.

ghost use Rattle.prompts.specs.Typed.{IsNextLine};
ghost use Rattle.prompts.specs.Prompted.{IsUnread};
ghost use Rattle.std.specs.Prelude.{IfErr, IfOk, MatchOption};
ghost use Rattle.std.specs.Io.KnownBytes.{IsAtEnd};

use crate::session::Complaint;
use scripts::blank_comments;
use std::alloc::Global;
use std::io::{BufRead, Error, ErrorKind};

/// The next line of a reader, with its newline where it has one, and with spaces for its comments; none at the end of
/// the reader's bytes.
pub(crate) fn next_line<R: BufRead>(
    reader: &mut R,
    alloc: Global,
) -> Result<Option<Vec<u8>>, Complaint>
    ensures read { IfOk result (λ read. MatchOption read (IsAtEnd (R.remaining reader.old))
        (λ line. IsNextLine (R.remaining reader.old) line.items (R.remaining reader.new))) }
    ensures unread { IfErr result IsUnread }
{
    let mut line = Vec::new(alloc);
    match reader.read_until(b'\n', &mut line) {
        Ok(0) => Ok(None),
        Ok(_) => {
            blank_comments(line.as_mut_slice());
            Ok(Some(line))
        }
        Err(error) => Err(why_unread(&error)),
    }
}

/// Why a line couldn't be read.
fn why_unread(error: &Error) -> Complaint
    ensures { IsUnread result }
{
    match error.kind() {
        ErrorKind::OutOfMemory => Complaint::Memory,
        _ => Complaint::Unread,
    }
}
