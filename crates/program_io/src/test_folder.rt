//! The tests of a folder, by the names of their files.

ghost use Rattle.std.specs.Prelude.{◌≡◌, IfOk, None, false, true};

use crate::files::{read_to_end, unopened};
use crate::test_names::{Absent, is_folder};
use litmus_suites::NoTest;
use std::alloc::{AllocError, Global};
use std::rt::Files;
use text_fields::split_field;

/// The most bytes that the names in a folder may have together: 1 GiB.
const MOST_BYTES: u64 = 0x4000_0000;

/// What the name of a test ends in, in a folder.
const ENDING: &[u8] = b".litmus";

/// A folder of which not all tests are taken.
#[derive(Drop)]
pub(crate) struct TestFolder {
    path: String,
    /// The names of its tests, in the order of their bytes.
    names: Vec<Vec<u8>>,
    /// How many of them are taken.
    taken: usize,
    /// Whether none so far is of a test, and that isn't told yet.
    is_empty: bool,
}

impl TestFolder {
    /// Reads the names in a folder.
    pub(crate) fn open<S: Files>(system: &S, path: &str, alloc: Global) -> Result<Self, Absent>
        ensures { IfOk result (λ folder. folder.is_empty ≡ true) }
    {
        let Ok(with_slash) = with_slash(path, alloc) else {
            return Err(Absent::for_memory(alloc));
        };
        let listing = match system.open_dir(with_slash.as_str()) {
            Ok(listing) => listing,
            Err(error) => return Err(Absent::unread(path, unopened(&error), alloc)),
        };
        let all = match read_to_end(listing, MOST_BYTES, alloc) {
            Ok(all) => all,
            Err(refused) => return Err(Absent::unread(path, refused, alloc)),
        };
        let Ok(names) = tests_among(all.as_slice(), alloc) else {
            return Err(Absent::for_memory(alloc));
        };
        match String::from_str(alloc, path) {
            Ok(path) => Ok(TestFolder {
                path,
                names,
                taken: 0,
                is_empty: true,
            }),
            Err(AllocError) => Err(Absent::for_memory(alloc)),
        }
    }

    /// The path of the next test; none behind the last. A folder with such a name is none. Where there is no test at all,
    /// that is refused.
    pub(crate) fn next_path<S: Files>(
        &mut self,
        system: &S,
        alloc: Global,
    ) -> Option<Result<String, Absent>>
        ensures { result ≡ None → self.old.is_empty ≡ false }
    {
        for _turn in 0..u64::MAX {
            let Some(name) = self.names.get(self.taken) else {
                break;
            };
            let next = self.path_of(name.as_slice(), alloc);
            self.taken = self.taken.saturating_add(1);
            if !leads_to_folder(system, &next) {
                self.is_empty = false;
                return Some(next);
            }
        }
        if !self.is_empty {
            return None;
        }
        self.is_empty = false;
        let path = self.path.as_bytes();
        Some(Err(Absent::at(path, NoTest::Empty, None, alloc)))
    }

    /// The path of the file with this name. One that is no text can't be read.
    fn path_of(&self, name: &[u8], alloc: Global) -> Result<String, Absent> {
        let Ok(path) = joined(self.path.as_str(), name, alloc) else {
            return Err(Absent::for_memory(alloc));
        };
        if str::from_utf8(name).is_err() {
            return Err(Absent {
                path,
                why: NoTest::File,
                cause: None,
            });
        }
        match String::from_utf8(path) {
            Ok(path) => Ok(path),
            Err(_) => Err(Absent::for_memory(alloc)),
        }
    }
}

/// Whether there is a folder at a path, if there is one.
fn leads_to_folder<S: Files>(system: &S, path: &Result<String, Absent>) -> bool {
    match path {
        Ok(path) => is_folder(system, path.as_str()),
        Err(_) => false,
    }
}

/// The path of what has this name in a folder.
fn joined(folder: &str, name: &[u8], alloc: Global) -> Result<Vec<u8>, AllocError> {
    let mut path = Vec::from_slice(alloc, folder.as_bytes())?;
    if !folder.ends_with('/') {
        path.push(b'/')?;
    }
    path.extend_from_slice(name)?;
    Ok(path)
}

/// The path of a folder, with a slash behind it.
fn with_slash(path: &str, alloc: Global) -> Result<String, AllocError> {
    let mut with_slash = String::from_str(alloc, path)?;
    if !path.ends_with('/') {
        with_slash.push_str("/")?;
    }
    Ok(with_slash)
}

/// Of names with a zero byte behind each those of tests, in their order.
fn tests_among(names: &[u8], alloc: Global) -> Result<Vec<Vec<u8>>, AllocError> {
    let mut tests = Vec::new(alloc);
    let mut left = names;
    // No name is empty.
    for _turn in 0..names.len() {
        if left.is_empty() {
            break;
        }
        let (name, behind) = split_field(left, 0);
        if is_of_test(name) {
            tests.push(Vec::from_slice(alloc, name)?)?;
        }
        left = behind;
    }
    tests.sort()?;
    Ok(tests)
}

/// Whether a name is one that a shell's `*.litmus` takes.
fn is_of_test(name: &[u8]) -> bool {
    name.ends_with(ENDING) && !name.starts_with(b".")
}
