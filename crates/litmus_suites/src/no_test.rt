//! Why a name comes to no test.

ghost use Rattle.std.specs.Prelude.{◌≡◌};
ghost use Rattle.litmus_suites.specs.Sources.{no_test_status};

use thiserror::Error;

/// Why a name comes to no test.
#[derive(Clone, Copy, Debug, PartialEq, Eq, Drop, Error)]
pub enum NoTest {
    /// The file, the folder or the list can't be read.
    #[error("file")]
    File,
    /// There isn't enough memory for it.
    #[error("memory")]
    Memory,
    /// The folder has no file `*.litmus`, or the list no name.
    #[error("no tests")]
    Empty,
    /// This line of the list, from 1, is no name of a test, and why it isn't.
    #[error("list refused {0}: {1}")]
    List(usize, ListFault),
}

/// Why a line of a list is no name of a test.
#[derive(Clone, Copy, Debug, PartialEq, Eq, Drop, Error)]
pub enum ListFault {
    /// It names a list that it stands in, itself or through others.
    #[error("a list in itself")]
    Itself,
    /// It names a list that lies deeper than lists may.
    #[error("more than 8 lists in one another")]
    Deep,
    /// It is no text.
    #[error("a name that isn't UTF-8")]
    NoText,
}

impl NoTest {
    /// The exit status: 2 for an input, 5 for memory and files.
    pub fn exit_status(self) -> u8
        ensures { result ≡ no_test_status self }
    {
        match self {
            NoTest::File | NoTest::Memory => 5,
            NoTest::Empty | NoTest::List(_, _) => 2,
        }
    }
}
