//! A sink of bytes, which may fail, and one over any writer.

ghost use Rattle.std.specs.Prelude.{◌≡◌, ◌≢◌, ◌≤◌, [], Bool, true, false, List, ℕ, Option, Result};
ghost use Rattle.std.specs.Prelude.{length, take, IfOk, OnOk, OnErr};
ghost use Rattle.std.specs.Io.KnownBytes.{Appends, Keeps};
ghost use Rattle.event_text.specs.declared.sink.Broken.{Broken as AnyBroken};
ghost use Rattle.event_text.specs.Sinking.{HasPut, HasBroken};

use std::io::{ErrorKind, Write};
use thiserror::Error;

/// A put failed.
#[derive(Clone, Copy, Debug, PartialEq, Eq, Drop, Error)]
#[error("the sink has failed")]
pub struct Broken;

/// What takes bytes, one piece after another.
pub trait Sink {
    // The bytes that were put, where they are known.
    ghost written: { Self → Option (List ℕ) };

    // A put has failed.
    ghost has_failed: { Self → Bool };

    // What a put of these bytes may answer, and what it may leave.
    ghost puts: { Self → List ℕ → Result ℕ AnyBroken → Self → Type 0 };

    /// Puts the first bytes of a piece and answers how many: at least one, where the piece has one.
    /// `Broken` puts none.
    fn put(&mut self, bytes: &[u8]) -> Result<usize, Broken>
        ensures put { IfOk result
            (λ count. Appends (written self.old) (written self.new) (take count bytes.now)) }
        ensures within { IfOk result (λ count. count ≤ length bytes.now) }
        ensures some { IfOk result (λ count. bytes.now ≢ [] → count ≢ 0) }
        ensures mark { OnOk result (has_failed self.new ≡ has_failed self.old) }
        ensures nothing { OnErr result (Keeps (written self.old) (written self.new)) }
        ensures failed { OnErr result (has_failed self.new ≡ true) }
        ensures told { puts self.old bytes.now result self.new };
}

/// A sink over a writer. It fails where the writer fails, and where the writer takes nothing of a
/// piece; an interrupted write is tried again.
#[derive(Drop)]
pub struct Over<W: Write> {
    writer: W,
    failed: bool,
}

impl<W: Write> Over<W> {
    /// A sink over this writer, which hasn't failed.
    pub fn new(writer: W) -> Self
        ensures { result ≡ record { writer = writer; failed = false } }
    {
        Over {
            writer,
            failed: false,
        }
    }

    /// The writer.
    pub fn into_inner(self) -> W
        ensures { result ≡ self.writer }
    {
        let Over { writer, failed: _ } = self;
        writer
    }
}

impl<W: Write> Sink for Over<W> {
    ghost written = { λ sink. W.contents sink.writer };

    ghost has_failed = { λ sink. sink.failed };

    ghost puts = { λ sink bytes answer left. Unit {0} };

    fn put(&mut self, bytes: &[u8]) -> Result<usize, Broken> {
        for _ in 0..u64::MAX {
            match self.writer.write(bytes) {
                Ok(count) if count > 0 || bytes.is_empty() => return Ok(count),
                Err(error) if error.kind() == ErrorKind::Interrupted => {}
                _ => break,
            }
        }
        self.failed = true;
        Err(Broken)
    }
}

/// Puts all these bytes into a sink that hasn't failed, in as many pieces as it takes. It ends at the first put
/// that fails.
pub fn put_all<S: Sink>(bytes: &[u8], sink: &mut S) -> Result<(), Broken>
    requires { S.has_failed sink.old ≡ false }
    ensures printed { OnOk result
        (HasPut S.written S.has_failed sink.old sink.new bytes.now) }
    ensures broken { OnErr result
        (HasBroken S.written S.has_failed S.puts sink.old sink.new bytes.now) }
{
    let mut rest = bytes;
    while !rest.is_empty() {
        let count = sink.put(rest)?;
        rest = &rest[count..];
    }
    Ok(())
}
