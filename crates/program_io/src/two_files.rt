//! Two files that are written at once: both are there before anything is put, and neither takes its name before all is.

use crate::output_file::OutputFile;
use crate::read_files::is_same_file;
use fault_hints::FileFault;
use std::fs;
use std::os::unix::fs::MetadataExt;
use std::path::Path;
use std::rt::Files;

/// Which of two files can't be written, and why.
#[derive(Clone, Copy, Drop)]
pub(crate) struct Unwritten {
    pub why: FileFault,
    /// Whether it is the second.
    pub is_beside: bool,
}

impl Unwritten {
    pub(crate) fn first(why: FileFault) -> Self {
        Unwritten {
            why,
            is_beside: false,
        }
    }

    pub(crate) fn beside(why: FileFault) -> Self {
        Unwritten {
            why,
            is_beside: true,
        }
    }
}

/// Two files that are being written. They are to be written whole.
#[derive(Drop)]
pub(crate) struct TwoFiles<'a, S: Files> {
    pub first: OutputFile<'a, S>,
    pub beside: OutputFile<'a, S>,
}

impl<'a, S: Files> TwoFiles<'a, S> {
    /// Puts all of both texts, and then gives each file its name; or gives up those that have none yet, and answers
    /// which of them can't be written, and why.
    pub(crate) fn write(self, text: &[u8], text_beside: &[u8]) -> Result<(), Unwritten> {
        let TwoFiles { first, beside } = self;
        let first = match first.put_all(text) {
            Ok(first) => first,
            Err(why) => {
                beside.discard();
                return Err(Unwritten::first(why));
            }
        };
        let beside = match beside.put_all(text_beside) {
            Ok(beside) => beside,
            Err(why) => {
                first.discard();
                return Err(Unwritten::beside(why));
            }
        };
        if let Err(why) = first.finish() {
            beside.discard();
            return Err(Unwritten::first(why));
        }
        match beside.finish() {
            Ok(()) => Ok(()),
            Err(why) => Err(Unwritten::beside(why)),
        }
    }
}

/// Whether two names are those of one file: of a regular one that is there, or of one that would be made in one folder
/// under one name.
pub(crate) fn are_one_place<S: Files>(files: &S, one: Option<&str>, other: Option<&str>) -> bool {
    let (Some(one), Some(other)) = (one, other) else {
        return false;
    };
    is_same_file(files, one, other) || would_be_one(files, one, other)
}

/// Whether both names end alike, and lead through the same folder.
fn would_be_one<S: Files>(files: &S, one: &str, other: &str) -> bool {
    let (one, other) = (Path::new(one), Path::new(other));
    match (one.file_name(), other.file_name()) {
        (Some(name), Some(same)) if name == same => {}
        _ => return false,
    }
    match (one.parent(), other.parent()) {
        (Some(folder), Some(same)) => is_one_folder(files, folder.as_str(), same.as_str()),
        _ => false,
    }
}

/// Whether two names of folders are those of one; no name is that of the one in which the program runs.
fn is_one_folder<S: Files>(files: &S, one: &str, other: &str) -> bool {
    let (one, other) = (named_folder(one), named_folder(other));
    let (Ok(one), Ok(other)) = (fs::metadata(files, one), fs::metadata(files, other)) else {
        return false;
    };
    one.dev() == other.dev() && one.ino() == other.ino()
}

fn named_folder(name: &str) -> &str {
    if name.is_empty() { "." } else { name }
}
