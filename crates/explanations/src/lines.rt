//! Lines put together.

ghost use Rattle.std.specs.Prelude.{◌≡◌, ◌++◌, IfOk};
ghost use Rattle.explanations.specs.Explained.{Begins};

use std::alloc::{AllocError, Global};
use std::io;
use std::io::{ErrorKind, Write};

/// A head, and what comes behind it.
pub fn joined(head: &[u8], rest: &[u8], alloc: Global) -> Result<Vec<u8>, AllocError>
    ensures whole { IfOk result (λ text. text.items ≡ head.now ++ rest.now) }
    ensures begins { IfOk result (λ text. Begins head.now text.items) }
{
    let mut text = Vec::with_capacity(alloc, head.len().saturating_add(rest.len()))?;
    text.extend_from_slice(head)?;
    text.extend_from_slice(rest)?;
    Ok(text)
}

/// Want of memory, as writing answers it.
pub fn no_memory() -> io::Error {
    io::Error::from(ErrorKind::OutOfMemory)
}
