//! Why a trace is refused: the text that says so, beside the refusal.

ghost use Rattle.std.specs.Prelude.{◌≡◌, ◌⊎◌, OnOk, true};
ghost use Rattle.std.specs.Io.KnownBytes.{Appends};
ghost use Rattle.command_parts.specs.declared.refused.Refused.TheVariants.{Output};
ghost use Rattle.refused_traces.specs.Why.{IsLineWhy};
ghost use Rattle.history_check.specs.Checking.{IsStoppedAt};
ghost use Rattle.smt_model.specs.Setup.{Setup};
ghost use Rattle.core_commands.specs.Told.{IsEventTold, IsTold, IsToldOn, WhereTold};
ghost use Rattle.core_commands.specs.Told.{IsEventOfTextTold};

use crate::check::{config_by, read_events};
use command_parts::Refused;
use elf_image::Image;
use event_text::Trace;
use history_check::{Stopped, Unfollowed, follow_until};
use refused_traces::{Place, explain_event, explain_line};
use sim_inputs::Settings;
use std::alloc::Global;
use std::io;
use std::io::Write;

/// Writes why a trace's text is refused so, where that is wanted, and answers the refusal: this one, or that of `out`,
/// where it takes no more.
pub(crate) fn refuse_trace<W: Write>(
    image: &Image,
    settings: &Settings,
    trace: &[u8],
    refused: Refused,
    wanted: bool,
    out: &mut W,
    alloc: Global,
) -> Refused
    ensures same { (result ≡ refused) ⊎ ((wanted ≡ true) × (result ≡ Output)) }
    ensures told { IsToldOn wanted settings.now image.now trace.now (W.contents out.old)
        (W.contents out.new) result }
{
    if !wanted {
        return refused;
    }
    let why = why_refused(image, settings, trace, refused, alloc);
    match write_all(why.as_slice(), out) {
        Ok(()) => refused,
        Err(_) => Refused::Output,
    }
}

fn write_all<W: Write>(text: &[u8], out: &mut W) -> io::Result<()>
    ensures { OnOk result (Appends (W.contents out.old) (W.contents out.new) text.now) }
{
    out.write_all(text)?;
    out.flush()
}

/// The lines that say why a trace's text is refused so. There are none where nothing more is said of the refusal, or
/// there isn't memory for them.
pub(crate) fn why_refused(
    image: &Image,
    settings: &Settings,
    trace: &[u8],
    refused: Refused,
    alloc: Global,
) -> Vec<u8>
    ensures { IsTold settings.now image.now trace.now refused result.items }
{
    match refused {
        Refused::Trace { line, rule } => why_line(trace, line, rule, alloc),
        Refused::Event { index, rule } => why_event(image, settings, trace, index, rule, alloc),
        _ => Vec::new(alloc),
    }
}

fn why_line(trace: &[u8], line: usize, rule: u8, alloc: Global) -> Vec<u8>
    ensures { WhereTold (IsLineWhy line rule) result.items }
{
    match explain_line(trace, line, rule, alloc) {
        Ok(why) => why,
        Err(_) => Vec::new(alloc),
    }
}

/// Why the event at a place breaks a rule: the core is led to it once more.
fn why_event(
    image: &Image,
    settings: &Settings,
    trace: &[u8],
    index: u32,
    rule: u8,
    alloc: Global,
) -> Vec<u8>
    ensures { WhereTold (IsEventOfTextTold settings.now image.now trace.now index rule) result.items }
{
    let Ok(trace) = read_events(trace, alloc) else {
        return Vec::new(alloc);
    };
    let config = config_by(settings, trace.head());
    match follow_until(image, config, trace.events(), alloc) {
        Err(Unfollowed::Event(stopped)) => told_event(stopped, &trace, index, rule, alloc),
        _ => Vec::new(alloc),
    }
}

/// Why a core that has followed the events before the one at a place refuses that by this rule.
fn told_event(stopped: Stopped, trace: &Trace, index: u32, rule: u8, alloc: Global) -> Vec<u8>
    ensures { (setup : Setup) → IsStoppedAt setup trace.now.events stopped
        → WhereTold (IsEventTold setup trace.now index rule) result.items }
{
    let Stopped {
        core,
        index: place,
        rule: broken,
    } = stopped;
    if place != index || broken != rule {
        return Vec::new(alloc);
    }
    let Some(event) = trace.events().get(index as usize) else {
        return Vec::new(alloc);
    };
    let line = index as usize + trace.head().line_count() + 1;
    let place = Place { index, line, rule };
    match explain_event(core, event, place, alloc) {
        Ok(why) => why,
        Err(_) => Vec::new(alloc),
    }
}
