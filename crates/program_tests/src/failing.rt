//! An output that fails.

use std::io;
use std::io::Write;

/// An output that takes so many bytes and then fails.
#[derive(Drop)]
pub struct Failing(pub usize);

impl Write for Failing {
    fn write(&mut self, bytes: &[u8]) -> io::Result<usize> {
        if self.0 < bytes.len() {
            return Err(io::ErrorKind::Other.into());
        }
        self.0 -= bytes.len();
        Ok(bytes.len())
    }

    fn flush(&mut self) -> io::Result<()> {
        Ok(())
    }
}
