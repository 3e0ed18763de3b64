//! A writer that keeps the failure that it met.

ghost use Rattle.std.specs.Prelude.{◌≡◌, None};

use std::io;
use std::io::{ErrorKind, Write};

/// A writer over another one, which keeps why a write or a flush of that one failed last.
#[derive(Drop)]
pub(crate) struct Noting<W> {
    writer: W,
    failure: Option<ErrorKind>,
}

impl<W> Noting<W> {
    /// A writer over this one, which hasn't failed.
    pub(crate) fn new(writer: W) -> Self
        ensures { result ≡ record { writer = writer; failure = None } }
    {
        Noting {
            writer,
            failure: None,
        }
    }

    /// What it writes to.
    pub(crate) fn into_inner(self) -> W
        ensures { result ≡ self.writer }
    {
        self.writer
    }

    /// Why it failed last, if it did.
    pub(crate) fn failure(&self) -> Option<ErrorKind>
        ensures { result ≡ self.now.failure }
    {
        self.failure
    }
}

impl<W: Write> Write for Noting<W> {
    ghost contents = { λ noting. W.contents noting.writer };

    fn write(&mut self, bytes: &[u8]) -> io::Result<usize> {
        match self.writer.write(bytes) {
            Ok(count) => Ok(count),
            Err(error) => {
                self.failure = Some(error.kind());
                Err(error)
            }
        }
    }

    // The writer's own way, which may take all of them at once.
    fn write_all(&mut self, bytes: &[u8]) -> io::Result<()> {
        match self.writer.write_all(bytes) {
            Ok(()) => Ok(()),
            Err(error) => {
                self.failure = Some(error.kind());
                Err(error)
            }
        }
    }

    fn flush(&mut self) -> io::Result<()> {
        match self.writer.flush() {
            Ok(()) => Ok(()),
            Err(error) => {
                self.failure = Some(error.kind());
                Err(error)
            }
        }
    }
}
