//! One file while it is written. What is put goes into a file beside it, which takes its name once all is
//! put: whatever ends the program before, under the name is what was there, and no beginning of the new.
//!
//! A device, a pipe and a symbolic link are written themselves, and so is a file in a folder that takes no
//! other.

ghost use Rattle.std.specs.Prelude.{◌≢◌, ◌≤◌, [], length, IfOk};

use crate::noting::Noting;
use crate::output_name::{OutputName, path_beside};
use event_text::{Broken, Over, Sink};
use fault_hints::FileFault;
use std::fs;
use std::fs::{Metadata, OpenFile, OpenOptions};
use std::io::ErrorKind;
use std::os::unix::fs::{MetadataExt, OpenOptionsExt, chown};
use std::rt::Files;

/// Who may read and write a file beside another one until it has that one's permissions: its owner.
const OWNER_ALONE: u32 = 0o600;

/// A file that is being written. It is to be finished or discarded.
#[derive(Drop)]
pub(crate) struct OutputFile<'a, S: Files> {
    files: &'a S,
    name: OutputName<'a>,
    /// The number of the file beside it; none where it is written itself.
    beside: Option<u32>,
    /// Takes its bytes.
    sink: Over<Noting<S::File>>,
}

impl<'a, S: Files> OutputFile<'a, S> {
    /// Begins a file of this name, or answers why it can't be made, or may not be written.
    pub(crate) fn begin(files: &'a S, name: OutputName<'a>) -> Result<Self, FileFault> {
        let Some(path) = name.path() else {
            return Err(FileFault::LongName);
        };
        let path = path.as_str();
        let made = match what_is_there(files, path) {
            There::Nothing => make_beside(files, path, None),
            There::File(old) => {
                refuse_unwritable(files, path)?;
                make_beside(files, path, Some(&old))
            }
            There::Other => None,
        };
        let (beside, file) = match made {
            Some((number, file)) => (Some(number), file),
            None => (None, create(files, path)?),
        };
        let sink = Over::new(Noting::new(file));
        Ok(OutputFile {
            files,
            name,
            beside,
            sink,
        })
    }

    /// Puts a beginning of these bytes into the file, and answers how many; or gives it up, and answers why it takes
    /// none.
    pub(crate) fn put(mut self, bytes: &[u8]) -> Result<(usize, Self), FileFault>
        ensures { IfOk result (λ put. (put.0 ≤ length bytes.now) × (bytes.now ≢ [] → put.0 ≢ 0)) }
    {
        match self.sink.put(bytes) {
            Ok(count) => Ok((count, self)),
            Err(_) => Err(self.give_up()),
        }
    }

    /// Puts all of these bytes into the file; or gives it up, and answers why it takes no more.
    pub(crate) fn put_all(mut self, bytes: &[u8]) -> Result<Self, FileFault> {
        match self.take_all(bytes) {
            Ok(()) => Ok(self),
            Err(_) => Err(self.give_up()),
        }
    }

    fn take_all(&mut self, bytes: &[u8]) -> Result<(), Broken> {
        let mut rest = bytes;
        while !rest.is_empty() {
            let count = self.sink.put(rest)?;
            rest = &rest[count..];
        }
        Ok(())
    }

    /// Removes what was put, and answers why the file takes no more.
    fn give_up(self) -> FileFault {
        let OutputFile {
            files,
            name,
            beside,
            sink,
        } = self;
        if let Some(number) = beside {
            let _ = remove_beside(files, &name, number);
        }
        match sink.into_inner().failure() {
            Some(kind) => FileFault::System(kind),
            None => FileFault::System(ErrorKind::WriteZero),
        }
    }

    /// Gives the file its name, behind the last put, or answers why that can't be done; then what was there
    /// stays.
    pub(crate) fn finish(self) -> Result<(), FileFault> {
        let OutputFile {
            files,
            name,
            beside,
            sink: _,
        } = self;
        match beside {
            Some(number) => rename_beside(files, &name, number),
            None => Ok(()),
        }
    }

    /// Removes what was put beside the file, which stays as it was.
    pub(crate) fn discard(self) {
        let OutputFile {
            files,
            name,
            beside,
            sink: _,
        } = self;
        if let Some(number) = beside {
            let _ = remove_beside(files, &name, number);
        }
    }
}

/// Gives the file beside this one its name. Where that isn't done, the file beside is removed.
fn rename_beside<S: Files>(files: &S, name: &OutputName<'_>, number: u32) -> Result<(), FileFault> {
    let Some(path) = name.path() else {
        return Err(FileFault::LongName);
    };
    let Some(beside) = path_beside(path.as_str(), number) else {
        return Err(FileFault::LongName);
    };
    let (path, beside) = (path.as_str(), beside.as_str());
    let failed = match fs::rename(files, beside, path) {
        Ok(()) => return Ok(()),
        // Another file system is mounted on the file, as a container's may be: it can't be replaced.
        Err(error) if error.kind() == ErrorKind::ResourceBusy => copy_over(files, beside, path),
        Err(error) => Err(FileFault::System(error.kind())),
    };
    let _ = fs::remove_file(files, beside);
    failed
}

/// Copies the file beside over the one that can't be replaced.
fn copy_over<S: Files>(files: &S, beside: &str, path: &str) -> Result<(), FileFault> {
    match fs::copy(files, beside, path) {
        Ok(_) => Ok(()),
        Err(error) => Err(FileFault::System(error.kind())),
    }
}

fn remove_beside<S: Files>(files: &S, name: &OutputName<'_>, number: u32) -> Option<()> {
    let path = name.path()?;
    let beside = path_beside(path.as_str(), number)?;
    fs::remove_file(files, beside.as_str()).ok()
}

/// What a name stands for.
#[derive(Drop)]
enum There {
    Nothing,
    /// A regular file, and what the system tells of it.
    File(Metadata),
    /// Anything else, or what isn't told of.
    Other,
}

fn what_is_there<S: Files>(files: &S, path: &str) -> There {
    match fs::symlink_metadata(files, path) {
        Ok(told) if told.is_file() => There::File(told),
        Ok(_) => There::Other,
        Err(error) if error.kind() == ErrorKind::NotFound => There::Nothing,
        Err(_) => There::Other,
    }
}

/// Refuses a file that is there and may not be written. Nothing of it changes.
fn refuse_unwritable<S: Files>(files: &S, path: &str) -> Result<(), FileFault> {
    match OpenOptions::new().write(true).open(files, path) {
        Ok(_) => Ok(()),
        Err(error) => Err(FileFault::System(error.kind())),
    }
}

/// Makes the file at this path itself.
fn create<S: Files>(files: &S, path: &str) -> Result<S::File, FileFault> {
    match fs::create(files, path) {
        Ok(file) => Ok(file),
        Err(error) => Err(FileFault::System(error.kind())),
    }
}

/// Makes a file beside the one at this path, with the owner and the permissions of the old one, where there
/// is one. Answers its number. None where its folder takes none, or where it can't be like the old one.
fn make_beside<S: Files>(files: &S, path: &str, old: Option<&Metadata>) -> Option<(u32, S::File)> {
    let mut how = OpenOptions::new();
    how.write(true).create_new(true);
    if old.is_some() {
        how.mode(OWNER_ALONE);
    }
    for number in 1..u32::MAX {
        let beside = path_beside(path, number)?;
        match how.open(files, beside.as_str()) {
            Ok(file) => {
                if is_made_like(files, &file, beside.as_str(), old) {
                    return Some((number, file));
                }
                let _ = fs::remove_file(files, beside.as_str());
                return None;
            }
            // Another program has it now, or one that was killed has left it.
            Err(error) if error.kind() == ErrorKind::AlreadyExists => {}
            Err(_) => return None,
        }
    }
    None
}

/// Gives a new file the owner and the permissions of an old one, if there is one. Answers whether it has
/// them then.
fn is_made_like<S: Files>(files: &S, file: &S::File, path: &str, old: Option<&Metadata>) -> bool {
    let Some(old) = old else {
        return true;
    };
    let Ok(new) = file.metadata() else {
        return false;
    };
    let is_owned = new.uid() == old.uid() && new.gid() == old.gid();
    if !is_owned && chown(files, path, Some(old.uid()), Some(old.gid())).is_err() {
        return false;
    }
    file.set_permissions(old.permissions()).is_ok()
}
