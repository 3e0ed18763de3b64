//! What goes into one file whole: it is put, and then the file is finished.

ghost use Rattle.std.specs.Prelude.{◌≡◌, true, false, OnOk, OnErr};
ghost use Rattle.event_text.specs.Sinking.{HasPut};
ghost use Rattle.reports.specs.Traces.{trace_of};

use crate::keeping::EndFiles;
use event_text::{Broken, put_all};
use reports::put_trace;
use smt_core::Core;

/// Puts all these bytes into a file, and finishes it.
pub fn put_file<F: EndFiles>(bytes: &[u8], files: &mut F) -> Result<(), Broken>
    requires { F.has_failed files.old ≡ false }
    ensures put { OnOk result (HasPut F.written F.has_failed files.old files.new bytes.now) }
    ensures finished { OnOk result (F.is_finished files.new ≡ true) }
    ensures broken { OnErr result (F.has_failed files.new ≡ true) }
{
    put_all(bytes, files)?;
    files.finish()
}

/// Puts the trace of a core into a file, and finishes it.
pub fn put_trace_file<F: EndFiles>(core: &Core, files: &mut F) -> Result<(), Broken>
    requires { F.has_failed files.old ≡ false }
    ensures put { OnOk result
        (HasPut F.written F.has_failed files.old files.new (trace_of core.now)) }
    ensures finished { OnOk result (F.is_finished files.new ≡ true) }
    ensures broken { OnErr result (F.has_failed files.new ≡ true) }
{
    put_trace(core, files)?;
    files.finish()
}
