//! What `explain` says of a trace: that it is accepted, or why it is refused.

ghost use Rattle.std.specs.Prelude.{◌≡◌, ◌⊎◌, IfErr, IfOk, OnOk, codes};
ghost use Rattle.std.specs.Io.KnownBytes.{Appends};
ghost use Rattle.command_parts.specs.declared.refused.Refused.TheVariants.{Output};
ghost use Rattle.core_commands.specs.Judgement.{IsJudgementRefusal, JudgementComesTo};

use crate::check::judge;
use crate::why::refuse_trace;
use command_parts::Refused;
use elf_image::Image;
use sim_inputs::Settings;
use std::alloc::Global;
use std::io;
use std::io::Write;

/// Says of a trace that it is accepted, and answers the exit status, 0; or that it is refused, and why, and answers the
/// refusal, as `perform_check` has it. `Output` is answered where `out` failed.
pub fn perform_judgement<W: Write>(
    image: &Image,
    settings: &Settings,
    trace: &[u8],
    out: &mut W,
    alloc: Global,
) -> Result<u8, Refused>
    ensures refused { IfErr result (IsJudgementRefusal settings.now image.now trace.now) }
    ensures ended { IfOk result (JudgementComesTo settings.now image.now trace.now) }
    ensures printed { IfOk result (λ status. Appends (W.contents out.old) (W.contents out.new)
        (codes "trace accepted\n")) }
{
    match judge(image, settings, trace, alloc) {
        Ok(_) => tell_accepted(out),
        Err(refused) => Err(tell_refused(image, settings, trace, refused, out, alloc)),
    }
}

fn tell_accepted<W: Write>(out: &mut W) -> Result<u8, Refused>
    ensures refused { IfErr result (λ reason. reason ≡ Output) }
    ensures zero { IfOk result (λ status. status ≡ 0) }
    ensures printed { IfOk result (λ status. Appends (W.contents out.old) (W.contents out.new)
        (codes "trace accepted\n")) }
{
    match write_accepted(out) {
        Ok(()) => Ok(0),
        Err(_) => Err(Refused::Output),
    }
}

fn write_accepted<W: Write>(out: &mut W) -> io::Result<()>
    ensures { OnOk result (Appends (W.contents out.old) (W.contents out.new)
        (codes "trace accepted\n")) }
{
    out.write_all(b"trace accepted\n")?;
    out.flush()
}

/// Writes that a trace is refused, and why; nothing of what is no refusal of a trace.
fn tell_refused<W: Write>(
    image: &Image,
    settings: &Settings,
    trace: &[u8],
    refused: Refused,
    out: &mut W,
    alloc: Global,
) -> Refused
    ensures { (result ≡ refused) ⊎ (result ≡ Output) }
{
    if !is_of_trace(refused) {
        return refused;
    }
    match out.write_all(b"trace refused\n") {
        Ok(()) => refuse_trace(image, settings, trace, refused, true, out, alloc),
        Err(_) => Refused::Output,
    }
}

fn is_of_trace(refused: Refused) -> bool {
    matches!(refused, Refused::Trace { .. } | Refused::Event { .. })
}
