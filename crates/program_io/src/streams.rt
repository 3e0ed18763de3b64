//! The standard streams that are closed, held, so that no file that is opened takes the place of one.

use std::fs;
use std::os::fd::AsRawFd;
use std::rt::Files;

/// How many standard streams there are: input, output and error have the descriptors 0, 1 and 2.
const STREAMS: i32 = 3;

/// What stands in the places of closed standard streams, until it is dropped.
#[derive(Drop)]
pub struct HeldStreams<F> {
    first: Option<F>,
    second: Option<F>,
    third: Option<F>,
}

/// Holds each standard stream that is closed by a folder, opened for reading, which takes no bytes and gives
/// none. A stream that is closed is what a file would be opened as otherwise, and take what is printed.
///
/// Call it before anything else is opened. Where nothing can be opened, nothing can be written either.
pub fn hold_closed_streams<S: Files>(files: &S) -> HeldStreams<S::File>
where
    S::File: AsRawFd,
{
    HeldStreams {
        first: hold_one(files),
        second: hold_one(files),
        third: hold_one(files),
    }
}

/// Holds the first stream that is closed: the system opens a file as the first descriptor that is free.
fn hold_one<S: Files>(files: &S) -> Option<S::File>
where
    S::File: AsRawFd,
{
    let folder = match fs::open(files, "/") {
        Ok(folder) => folder,
        Err(_) => fs::open(files, ".").ok()?,
    };
    if folder.as_raw_fd() < STREAMS {
        return Some(folder);
    }
    None
}
