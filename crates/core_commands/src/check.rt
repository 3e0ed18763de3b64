//! The command `check`: whether a trace is a history of the core.

ghost use Rattle.std.specs.Prelude.{◌≡◌, ◌≤◌, IfOk, IfErr, length, reverse};
ghost use Rattle.std.specs.Prelude.{is_some, true};
ghost use Rattle.elf_image.specs.Image.{ProgramImage};
ghost use Rattle.smt_core.specs.Shown.{Shown};
ghost use Rattle.smt_model.specs.Setup.{is_accepted};
ghost use Rattle.core_state.specs.Setup.{setup_of};
ghost use Rattle.command_parts.specs.declared.refused.Refused.TheVariants.{Output};
ghost use Rattle.core_commands.specs.Check.{IsCheckRefusal, CheckComesTo, IsTraceOf};
ghost use Rattle.core_commands.specs.Check.{IsTraceRefusal, IsHistoryRefusal, setup_by};
ghost use Rattle.address_labels.specs.Labels.{marks_of};
ghost use Rattle.core_commands.specs.Told.{IsCheckRefusalWith, IsJudged, IsToldOn};
ghost use Rattle.core_commands.specs.Wanted.{wants_of};

use crate::account::report_core;
use crate::wanted::Wanted;
use crate::why::refuse_trace;
use address_labels::Labels;
use command_parts::Refused;
use elf_image::Image;
use event_text::{Trace, TraceHead, TraceRefused, read_trace};
use events::copied_roles;
use history_check::{CheckRefused, Checked, check};
use sim_inputs::Settings;
use smt_model::Config;
use std::alloc::Global;
use std::io::Write;

/// Checks that the events of a trace are a history of the core of an image, and writes what the
/// history comes to: the report, and what else is wanted. Answers the exit status: how the harts
/// stand.
///
/// Refused are, in this order, the first line of the trace that breaks a rule, sizes of no core or
/// too many events, and the first event that isn't allowed; then nothing is printed but why the trace is
/// refused, where it is wanted why harts stand where they do. `Output` is answered where `out` failed.
#[inline(never)]
pub fn perform_check<W: Write>(
    image: &Image,
    settings: &Settings,
    trace: &[u8],
    wanted: Wanted<'_>,
    labels: &Labels<'_>,
    out: &mut W,
    alloc: Global,
) -> Result<u8, Refused>
    ensures refused { IfErr result
        (IsCheckRefusalWith (is_some wanted.entry.ends) settings.now image.now trace.now) }
    ensures told { IfErr result (IsToldOn (is_some wanted.entry.ends) settings.now image.now trace.now
        (W.contents out.old) (W.contents out.new)) }
    ensures ended { IfOk result (CheckComesTo settings.now image.now trace.now (wants_of wanted.entry)
        (marks_of labels.now)
        (W.contents out.old) (W.contents out.new)) }
{
    let checked = match judge(image, settings, trace, alloc) {
        Ok(checked) => checked,
        Err(refused) => {
            let why = wanted.ends.is_some();
            return Err(refuse_trace(image, settings, trace, refused, why, out, alloc));
        }
    };
    report_core(checked.core(), &[], wanted, labels, out, alloc)
}

/// The core that has followed the events of a trace's text.
pub(crate) fn judge(
    image: &Image,
    settings: &Settings,
    trace: &[u8],
    alloc: Global,
) -> Result<Checked, Refused>
    ensures refused { IfErr result (IsCheckRefusal settings.now image.now trace.now) }
    ensures accepted { IfOk result (IsJudged settings.now image.now trace.now) }
{
    let trace = read_events(trace, alloc)?;
    follow_all(image, settings, &trace, alloc)
}

/// The trace that a text is.
pub(crate) fn read_events(text: &[u8], alloc: Global) -> Result<Trace, Refused>
    ensures trace { IfOk result (IsTraceOf text.now) }
    ensures refused { IfErr result (IsTraceRefusal text.now) }
{
    match read_trace(text, alloc) {
        Ok(trace) => Ok(trace),
        Err(TraceRefused::Line { line, rule }) => Err(Refused::Trace { line, rule }),
        Err(TraceRefused::Memory) => Err(Refused::Memory),
    }
}

/// The sizes of the core that a trace is of: those that it says itself, or else those of the settings.
pub(crate) fn config_by(settings: &Settings, head: &TraceHead) -> Config
    ensures { (image : ProgramImage)
        → setup_of image result ≡ setup_by settings.now image head.now }
{
    match head {
        TraceHead::First => settings.config.copied(),
        TraceHead::Later(_, header) => Config {
            harts: header.harts(),
            extra: header.extra(),
            queue: header.queue(),
            roles: copied_roles(header.roles()),
        },
    }
}

/// The core that a trace is of, which has followed its events, with room for no more.
pub(crate) fn follow_all(
    image: &Image,
    settings: &Settings,
    trace: &Trace,
    alloc: Global,
) -> Result<Checked, Refused>
    ensures whole { IfOk result
        (λ checked. checked ≡ record {
          setup = setup_by settings.now image.now trace.now.head;
          limit = length trace.now.events;
          past = reverse trace.now.events;
        }) }
    ensures accepted { IfOk result (λ checked. is_accepted checked.setup checked.limit ≡ true) }
    ensures shown { IfOk result (λ checked. Shown checked) }
    ensures refused { IfErr result
        (IsHistoryRefusal (setup_by settings.now image.now trace.now.head) trace.now.events) }
{
    let config = config_by(settings, trace.head());
    match check(image, config, trace.events(), alloc) {
        Ok(checked) => Ok(checked),
        Err(CheckRefused::BadConfig) => Err(Refused::Config),
        Err(CheckRefused::Memory) => Err(Refused::Memory),
        Err(CheckRefused::Event { index, rule }) => Err(Refused::Event { index, rule }),
    }
}
