//! The names of the tests of a line: as they are written, in folders, and in lists of names.

ghost use Rattle.std.specs.Prelude.{◌≡◌, ◌≤◌, ◌+◌, None, Ok, OnOk, length};
ghost use Rattle.program_io.specs.Names.{owed, owed_of_names};

use crate::files::{ReadRefused, read_file};
use crate::read_files::is_same_file;
use crate::test_folder::TestFolder;
use crate::test_list::TestList;
use fault_hints::FileFault;
use litmus_suites::{ListFault, NoTest};
use sim_inputs::is_standard_input;
use std::alloc::{AllocError, Global};
use std::fs;
use std::rt::Files;

/// How many lists may be open at a time, each named in the one before.
const MOST_LISTS: usize = 8;

/// What stands before the name of a list.
const LIST_MARK: char = '@';

/// A name that comes to no test.
#[derive(Drop)]
pub(crate) struct Absent {
    /// The path of what can't be read, or of the list that is refused; empty where there was no memory for it.
    pub(crate) path: Vec<u8>,
    pub(crate) why: NoTest,
    /// Why it can't be read, where that was tried.
    pub(crate) cause: Option<FileFault>,
}

impl Absent {
    /// What isn't there for want of memory.
    pub(crate) fn for_memory(alloc: Global) -> Self {
        Absent {
            path: Vec::new(alloc),
            why: NoTest::Memory,
            cause: None,
        }
    }

    /// What has this path, and is refused for this.
    pub(crate) fn at(path: &[u8], why: NoTest, cause: Option<FileFault>, alloc: Global) -> Self {
        match Vec::from_slice(alloc, path) {
            Ok(path) => Absent { path, why, cause },
            Err(AllocError) => Absent::for_memory(alloc),
        }
    }

    /// The file at this path, which can't be read for this.
    pub(crate) fn unread(path: &str, refused: ReadRefused, alloc: Global) -> Self {
        let (why, cause) = match refused {
            ReadRefused::TooLong => (NoTest::File, Some(FileFault::TooLong)),
            ReadRefused::Failed(kind) => (NoTest::File, Some(FileFault::System(kind))),
            ReadRefused::Memory => (NoTest::Memory, None),
        };
        Absent::at(path.as_bytes(), why, cause, alloc)
    }
}

/// A name: of a list, or of a file or a folder.
#[derive(Drop)]
pub(crate) struct TestName {
    pub(crate) is_list: bool,
    pub(crate) path: String,
}

impl TestName {
    /// The name that a word of the command line is. A dash behind the mark of a list is a file of that name.
    fn of_word(word: &str, alloc: Global) -> Result<Self, AllocError> {
        match word.strip_prefix(LIST_MARK) {
            Some(name) => TestName::joined(true, "", name, alloc),
            None => Ok(TestName {
                is_list: false,
                path: String::from_str(alloc, word)?,
            }),
        }
    }

    /// The name that a word of a list is, which lies in this folder: a path with a slash behind it, or nothing.
    pub(crate) fn in_list(word: &str, folder: &str, alloc: Global) -> Result<Self, AllocError> {
        match word.strip_prefix(LIST_MARK) {
            Some(name) => TestName::joined(true, folder, name, alloc),
            None => TestName::joined(false, folder, word, alloc),
        }
    }

    /// A name, with its folder before it where it is no whole path. A dash alone is a file of that name.
    fn joined(is_list: bool, folder: &str, name: &str, alloc: Global) -> Result<Self, AllocError> {
        let mut path = String::new(alloc);
        if is_standard_input(name) {
            path.push_str("./")?;
        }
        if !name.starts_with('/') {
            path.push_str(folder)?;
        }
        path.push_str(name)?;
        Ok(TestName { is_list, path })
    }
}

/// The names of the tests of a line, in their order.
#[derive(Drop)]
pub(crate) struct TestNames<'a, S> {
    system: &'a S,
    /// The names as they are written, and how many of them are taken.
    words: &'a [&'a str],
    taken: usize,
    /// The lists that are open, each named in the one before.
    lists: Vec<TestList>,
    /// The folder that is open.
    folder: Option<TestFolder>,
    alloc: Global,
}

impl<'a, S: Files + Input> TestNames<'a, S> {
    /// The names of these words.
    pub(crate) fn new(system: &'a S, words: &'a [&'a str], alloc: Global) -> Self
        ensures { owed result ≡ length words.now }
    {
        TestNames {
            system,
            words,
            taken: 0,
            lists: Vec::new(alloc),
            folder: None,
            alloc,
        }
    }

    /// The path of the next test, or why a name comes to none; none behind the last, when each name has come to
    /// something.
    pub(crate) fn next_path(&mut self) -> Option<Result<String, Absent>>
        ensures last { result ≡ None → owed self.old ≡ 0 }
        ensures next { owed self.old ≤ owed self.new + 1 }
    {
        for _turn in 0..u64::MAX {
            if let Some(next) = self.next_of_folder() {
                return Some(next);
            }
            let name = match self.next_name() {
                Ok(Some(name)) => name,
                Ok(None) => return None,
                Err(absent) => return Some(Err(absent)),
            };
            match self.opened(name) {
                Ok(None) => {}
                Ok(Some(path)) => return Some(Ok(path)),
                Err(absent) => return Some(Err(absent)),
            }
        }
        // There is no memory for so many.
        Some(Err(Absent::for_memory(self.alloc)))
    }

    /// The next test of the folder that is open; none behind its last.
    fn next_of_folder(&mut self) -> Option<Result<String, Absent>>
        ensures names { owed_of_names self.new ≡ owed_of_names self.old }
        ensures last { result ≡ None → self.new.folder ≡ None }
        ensures nothing { result ≡ None → owed self.old ≤ owed self.new }
    {
        let mut folder = self.folder.take()?;
        let next = folder.next_path(self.system, self.alloc)?;
        self.folder = Some(folder);
        Some(next)
    }

    /// The next name of the list that was opened last, or of the words; none behind the last of all.
    fn next_name(&mut self) -> Result<Option<TestName>, Absent>
        ensures folder { self.new.folder ≡ self.old.folder }
        ensures last { result ≡ Ok None → owed_of_names self.old ≡ 0 }
        ensures next { owed_of_names self.old ≤ owed_of_names self.new + 1 }
    {
        while let Some(mut list) = self.lists.pop() {
            let next = list.next_name(self.alloc);
            if let Ok(None) = next {
                continue;
            }
            return match self.lists.push(list) {
                Ok(()) => next,
                Err(_) => Err(Absent::for_memory(self.alloc)),
            };
        }
        let Some(word) = self.words.get(self.taken) else {
            return Ok(None);
        };
        self.taken = self.taken.saturating_add(1);
        match TestName::of_word(word, self.alloc) {
            Ok(name) => Ok(Some(name)),
            Err(AllocError) => Err(Absent::for_memory(self.alloc)),
        }
    }

    /// The path of a name, where it is a test; none where it is a list or a folder, which is open now.
    fn opened(&mut self, name: TestName) -> Result<Option<String>, Absent>
        requires { self.old.folder ≡ None }
        ensures open { result ≡ Ok None → owed self.old + 1 ≤ owed self.new }
        ensures stays { owed self.old ≤ owed self.new }
    {
        let TestName { is_list, path } = name;
        if is_list {
            self.open_list(path)?;
            return Ok(None);
        }
        if !is_folder(self.system, path.as_str()) {
            return Ok(Some(path));
        }
        self.folder = Some(TestFolder::open(self.system, path.as_str(), self.alloc)?);
        Ok(None)
    }

    /// Opens a list. Refused where it is open already, or too many are.
    fn open_list(&mut self, path: String) -> Result<(), Absent>
        ensures folder { self.new.folder ≡ self.old.folder }
        ensures open { OnOk result (owed_of_names self.old + 1 ≤ owed_of_names self.new) }
        ensures stays { owed_of_names self.old ≤ owed_of_names self.new }
    {
        if let Some(list) = self.lists.last() {
            if self.is_open(path.as_str()) {
                return Err(list.refused(ListFault::Itself, self.alloc));
            }
            if self.lists.len() >= MOST_LISTS {
                return Err(list.refused(ListFault::Deep, self.alloc));
            }
        }
        let text = match read_file(self.system, path.as_str(), self.alloc) {
            Ok(text) => text,
            Err(refused) => return Err(Absent::unread(path.as_str(), refused, self.alloc)),
        };
        match self.lists.push(TestList::new(path, text)) {
            Ok(()) => Ok(()),
            Err(_) => Err(Absent::for_memory(self.alloc)),
        }
    }

    /// Whether the list at this path is open, by whatever name.
    fn is_open(&self, path: &str) -> bool {
        for list in self.lists.iter() {
            if list.path() == path || is_same_file(self.system, list.path(), path) {
                return true;
            }
        }
        false
    }
}

/// Whether there is a folder at this path.
pub(crate) fn is_folder<S: Files>(system: &S, path: &str) -> bool {
    match fs::metadata(system, path) {
        Ok(told) => told.is_dir(),
        Err(_) => false,
    }
}
