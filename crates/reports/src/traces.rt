//! The trace of a core, which says of what core it is.

ghost use Rattle.std.specs.Prelude.{◌≡◌, false, OnOk, OnErr};
ghost use Rattle.event_text.specs.Sinking.{HasPut, HasBroken};
ghost use Rattle.reports.specs.Traces.{trace_of};

use event_text::{Broken, Sink, TraceHeader, print_trace};
use smt_core::Core;

/// Puts the trace of a core into a sink that hasn't failed, in pieces. It ends at the first put that
/// fails, and puts nothing after it. No memory is taken.
pub fn put_trace<S: Sink>(core: &Core, sink: &mut S) -> Result<(), Broken>
    requires { S.has_failed sink.old ≡ false }
    ensures put { OnOk result
        (HasPut S.written S.has_failed sink.old sink.new (trace_of core.now)) }
    ensures broken { OnErr result
        (HasBroken S.written S.has_failed S.puts sink.old sink.new (trace_of core.now)) }
{
    let config = core.config();
    let roles = config.roles.as_slice();
    match TraceHeader::new(config.harts, config.extra, config.queue, roles) {
        Some(header) => print_trace(&header, core.history(), sink),
        // Of each core that is made the sizes are those of one.
        None => unreachable!(),
    }
}
