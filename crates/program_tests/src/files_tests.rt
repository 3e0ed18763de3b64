//! What is read of a reader that is interrupted, that gives little at once, and that fails.

ghost use Rattle.std.specs.Prelude.{◌<◌, ◌^◌};

use program_io::{ReadRefused, read_to_end};
use std::alloc::Global;
use std::io;
use std::io::{ErrorKind, Read};

/// A reader of these bytes. Each first of two reads is interrupted before it has read anything, and
/// each second gives three bytes at most. Behind the bytes it ends, or fails.
#[derive(Drop)]
struct Halting<'a> {
    rest: &'a [u8],
    reads: u32,
    fails: bool,
}

impl Read for Halting<'_> {
    fn read(&mut self, buf: &mut [u8]) -> io::Result<usize> {
        self.reads = self.reads.wrapping_add(1);
        if self.reads % 2 == 1 {
            return Err(ErrorKind::Interrupted.into());
        }
        if self.rest.is_empty() && self.fails {
            return Err(ErrorKind::Other.into());
        }
        let count = buf.len().min(self.rest.len()).min(3);
        buf[..count].copy_from_slice(&self.rest[..count]);
        self.rest = &self.rest[count..];
        Ok(count)
    }
}

const BYTES: &[u8] = b"the bytes of a file";

/// What is read of these bytes, of which there may be so many.
fn read(most: u64, fails: bool, alloc: Global) -> Result<Vec<u8>, ReadRefused>
    requires { most < 2 ^ 63 }
{
    let reader = Halting {
        rest: BYTES,
        reads: 0,
        fails,
    };
    read_to_end(reader, most, alloc)
}

/// Why they are not read, where they aren't.
fn refused(most: u64, fails: bool, alloc: Global) -> Option<ReadRefused>
    requires { most < 2 ^ 63 }
{
    read(most, fails, alloc).err()
}

#[test]
fn a_read_that_is_interrupted_is_made_again(rt: HostRuntime) {
    let bytes = read(19, false, rt.alloc()).ok().expect(&rt, "bytes");
    assert!(rt; bytes.as_slice() == BYTES);
}

#[test]
fn a_reader_is_refused_for_its_length_and_where_it_fails(rt: HostRuntime) {
    assert!(rt; refused(18, false, rt.alloc()) == Some(ReadRefused::TooLong));
    assert!(rt; refused(19, true, rt.alloc()) == Some(ReadRefused::Failed(ErrorKind::Other)));
}
