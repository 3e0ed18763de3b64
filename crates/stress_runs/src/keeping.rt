//! The files of a run that shows an end: its trace, the order in which its harts retired, and its story.

ghost use Rattle.std.specs.Prelude.{◌≡◌, ◌++◌, ℕ, Bool, true, false, OnOk, OnErr};
ghost use Rattle.std.specs.Io.KnownBytes.{Keeps};
ghost use Rattle.stress_runs.specs.declared.keeping.Part.{Part as AnyPart};
ghost use Rattle.event_text.specs.Sinking.{HasPut};
ghost use Rattle.stress_runs.specs.Kept.{IsKept, order_of, order_text};

use crate::finishing::{put_file, put_trace_file};
use crate::order::put_order;
use event_text::{Broken, Over, Sink, put_all};
use smt_core::Core;
use std::io::Write;

/// Which of the three files of an end.
#[derive(Clone, Copy, PartialEq, Eq, Drop)]
pub enum Part {
    Trace,
    Order,
    Story,
}

/// A sink whose bytes go into files. What is put goes into the file that was begun last, or into the one
/// that the sink has where none was; a file has its bytes under its name once it is finished.
pub trait EndFiles: Sink {
    // How the sink may stand once a file was begun.
    ghost begins: { Self → ℕ → AnyPart → Self → Type 0 };

    // Each file into which something was put has been finished.
    ghost is_finished: { Self → Bool };

    /// Begins a file of the end with this number, from 1. `Broken` where it can't be made.
    fn begin(&mut self, end: u64, part: Part) -> Result<(), Broken>
        requires finished { is_finished self.old ≡ true }
        ensures begun { OnOk result (begins self.old end part self.new) }
        ensures works { OnOk result (Self.has_failed self.new ≡ Self.has_failed self.old) }
        ensures failed { OnErr result (Self.has_failed self.new ≡ true) };

    /// Finishes the file into which all was put: from now on it has these bytes, and no others, under its
    /// name. A file into which nothing was put is made. `Broken` where that can't be done; then what was
    /// under its name stays.
    fn finish(&mut self) -> Result<(), Broken>
        ensures kept { OnOk result (Keeps (Self.written self.old) (Self.written self.new)) }
        ensures finished { OnOk result (is_finished self.new ≡ true) }
        ensures works { OnOk result (Self.has_failed self.new ≡ Self.has_failed self.old) }
        ensures failed { OnErr result (Self.has_failed self.new ≡ true) };

    /// Puts two texts into two files, each whole, and finishes both: the first into the one that the sink has
    /// where none was begun, the second into the one beside it. Both are opened before anything is put. `Broken`
    /// where one can't be made, or takes no more.
    fn put_two(&mut self, first: &[u8], second: &[u8]) -> Result<(), Broken>
        requires works { Self.has_failed self.old ≡ false }
        requires finished { is_finished self.old ≡ true }
        ensures put { OnOk result
            (HasPut Self.written Self.has_failed self.old self.new (first.now ++ second.now)) }
        ensures finished { OnOk result (is_finished self.new ≡ true) }
        ensures failed { OnErr result (Self.has_failed self.new ≡ true) };
}

/// A writer takes all files, one behind the other.
impl<W: Write> EndFiles for Over<W> {
    ghost begins = { λ sink end part after. after ≡ sink };

    ghost is_finished = { λ sink. true };

    fn begin(&mut self, _end: u64, _part: Part) -> Result<(), Broken> {
        Ok(())
    }

    fn finish(&mut self) -> Result<(), Broken> {
        Ok(())
    }

    fn put_two(&mut self, first: &[u8], second: &[u8]) -> Result<(), Broken> {
        put_all(first, self)?;
        put_all(second, self)
    }
}

/// Puts the trace of a core, its order of harts and its story, which is this text, into the files of the end with this
/// number, and finishes each.
pub fn keep_end<F: EndFiles>(
    core: &Core,
    end: u64,
    story: &[u8],
    files: &mut F,
) -> Result<(), Broken>
    requires works { F.has_failed files.old ≡ false }
    requires finished { F.is_finished files.old ≡ true }
    ensures kept { OnOk result
        (IsKept F.begins F.written F.has_failed files.old files.new end core.now story.now) }
    ensures works { OnOk result (F.has_failed files.new ≡ false) }
    ensures finished { OnOk result (F.is_finished files.new ≡ true) }
    ensures broken { OnErr result (F.has_failed files.new ≡ true) }
{
    files.begin(end, Part::Trace)?;
    put_trace_file(core, files)?;
    files.begin(end, Part::Order)?;
    put_order_file(core, files)?;
    files.begin(end, Part::Story)?;
    put_file(story, files)
}

/// Puts the order in which the harts of a core have retired into a file, and finishes it.
fn put_order_file<F: EndFiles>(core: &Core, files: &mut F) -> Result<(), Broken>
    requires { F.has_failed files.old ≡ false }
    ensures put { OnOk result (HasPut F.written F.has_failed files.old files.new
        (order_text (order_of core.now))) }
    ensures finished { OnOk result (F.is_finished files.new ≡ true) }
    ensures broken { OnErr result (F.has_failed files.new ≡ true) }
{
    put_order(core.account().records, files)?;
    files.finish()
}
