ghost use Rattle.std.specs.Prelude.{◌≡◌, ◌≢◌, ◌≤◌, ◌<◌, ◌+◌, ◌^◌, ◌++◌, IfOk, OnOk, IfErr, IfSome};
ghost use Rattle.std.specs.Prelude.{vec_len};
ghost use Rattle.std.specs.IoError.{error_kind};
ghost use Rattle.std.specs.declared.io.ErrorKind.TheVariants.{Interrupted};
ghost use Rattle.program_io.specs.Files.{why_refused, unread_for, IsRefusedFor};

use command_parts::Unread;
use sim_inputs::is_standard_input;
use std::alloc::Global;
use std::fs;
use std::io::{Error, ErrorKind, Read};
use std::rt::Files;

/// The most bytes that a file may have: 1 GiB.
const MOST_BYTES: u64 = 0x4000_0000;

/// How many bytes are read at once.
const PIECE: usize = 2048;

/// Why there are no bytes of a reader.
#[derive(Clone, Copy, PartialEq, Eq, Drop)]
pub enum ReadRefused {
    /// It has more of them than it may.
    TooLong,
    /// It couldn't be opened, or a read failed, for a reason of this kind.
    Failed(ErrorKind),
    /// There isn't enough memory for them.
    Memory,
}

impl ReadRefused {
    /// What is said of the file that was read.
    pub(crate) fn unread(self) -> Unread
        ensures { result ≡ unread_for self }
    {
        match self {
            ReadRefused::TooLong | ReadRefused::Failed(_) => Unread::File,
            ReadRefused::Memory => Unread::Memory,
        }
    }
}

/// The bytes of a file, or those of standard input where its name is a dash. One that is longer than
/// 1 GiB, or has no end, isn't read to its end.
pub fn read_file<S: Files + Input>(
    system: &S,
    name: &str,
    alloc: Global,
) -> Result<Vec<u8>, ReadRefused>
    ensures { IfOk result (λ bytes. vec_len bytes ≤ 2 ^ 30) }
{
    if is_standard_input(name) {
        return read_to_end(system.reader(), MOST_BYTES, alloc);
    }
    match fs::open(system, name) {
        Ok(file) => read_to_end(file, MOST_BYTES, alloc),
        Err(error) => Err(unopened(&error)),
    }
}

/// All bytes of a reader that has no more than `most` of them. A read that was interrupted before it
/// read anything is made again.
///
/// They are read in pieces of a room that is used again: a vector that the reader itself fills would
/// have to be set to zero before.
pub fn read_to_end<R: Read + Drop>(
    reader: R,
    most: u64,
    alloc: Global,
) -> Result<Vec<u8>, ReadRefused>
    requires { most < 2 ^ 63 }
    ensures few { IfOk result (λ bytes. vec_len bytes ≤ most) }
    ensures all { IfOk result (λ bytes. IfSome (R.remaining reader) (λ all. bytes.items ≡ all)) }
    ensures refused { IfErr result (IsRefusedFor (R.remaining reader) most) }
{
    let mut reader = reader;
    let mut bytes = Vec::new(alloc);
    let mut piece = [0; PIECE];
    // Counted, so that it provably ends, whatever the reader does. A reader that gives 2^64 pieces
    // isn't met: so many reads would take centuries.
    for _turn in 0..u64::MAX {
        match reader.read(&mut piece) {
            Ok(0) => return Ok(bytes),
            Ok(count) => append_piece(&mut bytes, &piece[..count], most)?,
            Err(error) => retry(&error)?,
        }
    }
    Err(ReadRefused::Failed(ErrorKind::Other))
}

/// Appends what was read, where there are no more than `most` bytes then.
fn append_piece(bytes: &mut Vec<u8>, piece: &[u8], most: u64) -> Result<(), ReadRefused>
    requires { most < 2 ^ 63 }
    ensures few { OnOk result (vec_len bytes.new ≤ most) }
    ensures items { OnOk result (bytes.new.items ≡ bytes.old.items ++ piece.now) }
    ensures refused { IfErr result (IsRefusedFor (Some (bytes.old.items ++ piece.now)) most) }
{
    if bytes.len() as u64 > most || piece.len() as u64 > most - bytes.len() as u64 {
        return Err(ReadRefused::TooLong);
    }
    match bytes.extend_from_slice(piece) {
        Ok(()) => Ok(()),
        Err(_) => Err(ReadRefused::Memory),
    }
}

/// Goes on after a read that was interrupted before it read anything, and after no other.
fn retry(error: &Error) -> Result<(), ReadRefused>
    ensures goes_on { IfOk result (λ unit. error_kind error.now ≡ Interrupted) }
    ensures refused { IfErr result (λ refused. (error_kind error.now ≢ Interrupted)
        × (refused ≡ why_refused (error_kind error.now))) }
{
    match error.kind() {
        ErrorKind::Interrupted => Ok(()),
        ErrorKind::OutOfMemory => Err(ReadRefused::Memory),
        kind => Err(ReadRefused::Failed(kind)),
    }
}

/// Why there are no bytes of a file whose opening failed.
pub(crate) fn unopened(error: &Error) -> ReadRefused
    ensures { result ≡ why_refused (error_kind error.now) }
{
    match error.kind() {
        ErrorKind::OutOfMemory => ReadRefused::Memory,
        kind => ReadRefused::Failed(kind),
    }
}
