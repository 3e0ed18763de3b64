//! The command `step`: a script's asks, made of a core.

ghost use Rattle.std.specs.Prelude.{◌≡◌, [], All, IsTrue, IfOk, IfErr, OnOk, true, false};
ghost use Rattle.std.specs.Prelude.{ℕ, List, length, sum};
ghost use Rattle.elf_image.specs.Loaded.{IsImageOf};
ghost use Rattle.core_state.specs.Setup.{setup_of};
ghost use Rattle.core_state.specs.View.{CoreView};
ghost use Rattle.smt_core.specs.Shown.{Shown};
ghost use Rattle.smt_core.specs.Counts.{AreCounts};
ghost use Rattle.text_fields.specs.Printing.{Prints};
ghost use Rattle.scripts.specs.Script.{IsScript, IsInRange};
ghost use Rattle.scripts.specs.Session.{AreAskedWith, AreCounted};
ghost use Rattle.command_parts.specs.Refused.{PassesAll, AreAccepted, BehindImage, IsCoreRefusal};
ghost use Rattle.core_commands.specs.Step.{IsStepRefusal, StepComesTo, IsAsking, IsScriptRefusal};
ghost use Rattle.core_commands.specs.Step.{AreMarked, IsMarked};
ghost use Rattle.address_labels.specs.Labels.{marks_of};
ghost use Rattle.core_commands.specs.Account.{IsTraceWritten};
ghost use Rattle.core_commands.specs.Wanted.{wants_of};

use crate::account::{idle_of, write_account};
use crate::named_asks::write_named;
use crate::wanted::Wanted;
use address_labels::Labels;
use command_parts::{Context, Refused, image_of};
use elf_image::Image;
use explained_asks::explain;
use scripts::{ScriptRefused, ScriptWord, Unwritten, read_script, run_script};
use sim_inputs::Settings;
use smt_core::{Core, CoreRefused, Finished, Predict};
use std::alloc::{AllocError, Global};
use std::io;
use std::io::Write;
use stress_runs::EndFiles;

/// Makes the asks of a script in order, each of them of one core of an image's file, and prints a
/// line for each: what the core answers. The whole script is read before the first ask.
///
/// Refused are, in this order, the image, the configuration, and the first word of the script that
/// says nothing; then nothing is printed. `Output` is answered where `out` failed. What is finished
/// is the core of this image and these settings, its `counts` are those of its history, and its `idle`
/// those of the asks.
pub fn step_bytes<P: Predict, W: Write>(
    image: &[u8],
    settings: &Settings,
    script: &[u8],
    predict: &mut P,
    out: &mut W,
    alloc: Global,
) -> Result<Finished, Refused>
    ensures refused { IfErr result
        (BehindImage image.now settings.now.ram (IsStepRefusal settings.now script.now)) }
    ensures passed { OnOk result (PassesAll image.now settings.now.ram) }
    ensures accepted { OnOk result (AreAccepted settings.now) }
    ensures script { OnOk result (IsAsking script.now) }
    ensures image { IfOk result
        (λ finished. IsImageOf image.now settings.now.ram finished.core.setup.image) }
    ensures setup { IfOk result
        (λ finished. finished.core.setup ≡ setup_of finished.core.setup.image settings.now.config) }
    ensures limit { IfOk result (λ finished. finished.core.limit ≡ settings.now.limit) }
    ensures own { IfOk result (λ finished. IsTrue finished.own) }
    ensures told { IfOk result (λ finished. IsTrue finished.told) }
    ensures counts { IfOk result (λ finished. AreCounts finished.core.past finished.counts) }
    ensures counted { IfOk result (λ finished. sum finished.counts ≡ length finished.core.past) }
    ensures shown { IfOk result (λ finished. Shown finished.core) }
    ensures asked { IfOk result
        (λ finished. Prints (W.contents out.old) (W.contents out.new)
        (AreAskedWith P.predicts predict.old predict.new script.now finished.core)) }
    ensures idle { IfOk result (λ finished. Prints (W.contents out.old) (W.contents out.new)
        (AreCounted script.now finished.core finished.idle)) }
{
    let image = image_of(image, settings.ram, alloc)?;
    step_image(&image, settings, script, predict, out, alloc)
}

/// Makes the asks of a script in order, each of them of one core of an image.
fn step_image<P: Predict, W: Write>(
    image: &Image,
    settings: &Settings,
    script: &[u8],
    predict: &mut P,
    out: &mut W,
    alloc: Global,
) -> Result<Finished, Refused>
    ensures refused { IfErr result (IsStepRefusal settings.now script.now) }
    ensures accepted { OnOk result (AreAccepted settings.now) }
    ensures script { OnOk result (IsAsking script.now) }
    ensures setup { IfOk result
        (λ finished. finished.core.setup ≡ setup_of image.now settings.now.config) }
    ensures limit { IfOk result (λ finished. finished.core.limit ≡ settings.now.limit) }
    ensures own { IfOk result (λ finished. IsTrue finished.own) }
    ensures told { IfOk result (λ finished. IsTrue finished.told) }
    ensures counts { IfOk result (λ finished. AreCounts finished.core.past finished.counts) }
    ensures counted { IfOk result (λ finished. sum finished.counts ≡ length finished.core.past) }
    ensures shown { IfOk result (λ finished. Shown finished.core) }
    ensures asked { IfOk result
        (λ finished. Prints (W.contents out.old) (W.contents out.new)
        (AreAskedWith P.predicts predict.old predict.new script.now finished.core)) }
    ensures idle { IfOk result (λ finished. Prints (W.contents out.old) (W.contents out.new)
        (AreCounted script.now finished.core finished.idle)) }
{
    let core = new_core(image, settings, alloc)?;
    let words = words_of(script, alloc)?;
    match run_script(
        core,
        words.as_slice(),
        image,
        &settings.config,
        predict,
        out,
    ) {
        Ok(finished) => Ok(finished),
        Err(Unwritten) => Err(Refused::Output),
    }
}

/// A core of an image and some settings, before its first event.
fn new_core(image: &Image, settings: &Settings, alloc: Global) -> Result<Core, Refused>
    ensures accepted { OnOk result (AreAccepted settings.now) }
    ensures refused { IfErr result (IsCoreRefusal settings.now) }
    ensures setup { IfOk result (λ core. core.setup ≡ setup_of image.now settings.now.config) }
    ensures limit { IfOk result (λ core. core.limit ≡ settings.now.limit) }
    ensures unasked { IfOk result (λ core. core.past ≡ []) }
{
    match Core::new(image, settings.config.copied(), settings.limit, alloc) {
        Ok(core) => Ok(core),
        Err(CoreRefused::Config) => Err(Refused::Config),
        Err(CoreRefused::Memory) => Err(Refused::Memory),
    }
}

/// The words of a script's text.
fn words_of(script: &[u8], alloc: Global) -> Result<Vec<ScriptWord>, Refused>
    ensures script { IfOk result (λ words. IsScript script.now words.items) }
    ensures in_range { IfOk result (λ words. All (λ word. IsInRange word.action) words.items) }
    ensures refused { IfErr result (IsScriptRefusal script.now) }
{
    match read_script(script, alloc) {
        Ok(words) => Ok(words),
        Err(ScriptRefused::Word(number)) => Err(Refused::Script(number)),
        Err(ScriptRefused::Memory) => Err(Refused::Memory),
    }
}

/// Makes the asks of a script of one core of an image, and prints their lines, explained where that
/// is wanted, and with what is wanted beside the pcs of fetches.
fn print_asks<R, G, P: Predict, S, W: Write>(
    context: &mut Context<'_, R, G, P, S, W>,
    image: &Image,
    settings: &Settings,
    script: &[u8],
    why: bool,
    labels: &Labels<'_>,
) -> Result<Finished, Refused>
    ensures refused { IfErr result (IsStepRefusal settings.now script.now) }
    ensures accepted { OnOk result (AreAccepted settings.now) }
    ensures script { OnOk result (IsAsking script.now) }
    ensures setup { IfOk result
        (λ finished. finished.core.setup ≡ setup_of image.now settings.now.config) }
    ensures limit { IfOk result (λ finished. finished.core.limit ≡ settings.now.limit) }
    ensures shown { IfOk result (λ finished. Shown finished.core) }
    ensures printed { IfOk result
        (λ finished. Prints (W.contents context.old.out) (W.contents context.new.out)
        (AreMarked why (marks_of labels.now) script.now finished.core finished.idle)) }
    ensures unwritten { context.new.files ≡ context.old.files }
{
    let alloc = context.alloc;
    let (predict, out) = (&mut context.predict, &mut context.out);
    if !why && labels.are_none() {
        return step_image(image, settings, script, predict, out, alloc);
    }
    let mut lines = Vec::new(alloc);
    let finished = match step_image(image, settings, script, predict, &mut lines, alloc) {
        Ok(finished) => finished,
        // What holds the lines fails for want of memory alone.
        Err(Refused::Output) => return Err(Refused::Memory),
        Err(refused) => return Err(refused),
    };
    let text = told(why, image, settings, script, lines, &finished.core, alloc)?;
    match put_asks(text.as_slice(), labels, out) {
        Ok(()) => Ok(finished),
        Err(_) => Err(Refused::Output),
    }
}

/// The lines of a script's asks, which have left this core; or what explains them, where that is wanted.
fn told(
    why: bool,
    image: &Image,
    settings: &Settings,
    script: &[u8],
    lines: Vec<u8>,
    core: &Core,
    alloc: Global,
) -> Result<Vec<u8>, Refused>
    ensures refused { IfErr result (IsStepRefusal settings.now script.now) }
    ensures same { IfOk result (λ text. why ≡ false → text.items ≡ lines.items) }
{
    if !why {
        return Ok(lines);
    }
    explained(image, settings, script, lines.as_slice(), core, alloc)
}

/// Writes the lines of asks.
fn put_asks<W: Write>(lines: &[u8], labels: &Labels<'_>, out: &mut W) -> io::Result<()>
    ensures { OnOk result (Prints (W.contents out.old) (W.contents out.new)
        (IsMarked (marks_of labels.now) lines.now)) }
{
    if labels.are_none() {
        return out.write_all(lines);
    }
    write_named(lines, labels, out)
}

/// What explains the lines of a script's asks, which have left this core.
fn explained(
    image: &Image,
    settings: &Settings,
    script: &[u8],
    lines: &[u8],
    core: &Core,
    alloc: Global,
) -> Result<Vec<u8>, Refused>
    ensures refused { IfErr result (IsStepRefusal settings.now script.now) }
{
    let unasked = new_core(image, settings, alloc)?;
    let asked = words_of(script, alloc)?;
    match explain(asked.as_slice(), lines, core.history(), unasked, alloc) {
        Ok(text) => Ok(text),
        Err(AllocError) => Err(Refused::Memory),
    }
}

/// Makes the asks of a script, writes the core's trace where it is wanted, and then what else is
/// wanted of it and its report. Answers the exit status: how the harts stand.
#[inline(never)]
pub fn perform_step<R, G, P: Predict + Copy, S: EndFiles, W: Write>(
    context: &mut Context<'_, R, G, P, S, W>,
    image: &Image,
    settings: &Settings,
    script: &[u8],
    why: bool,
    wanted: Wanted<'_>,
    labels: &Labels<'_>,
) -> Result<u8, Refused>
    requires works { S.has_failed context.old.files ≡ false }
    requires finished { S.is_finished context.old.files ≡ true }
    ensures refused { IfErr result (IsStepRefusal settings.now script.now) }
    ensures ended { IfOk result (StepComesTo settings.now image.now script.now why (wants_of wanted.entry)
        (marks_of labels.now)
        (IsTraceWritten S.written S.has_failed context.old.files context.new.files wanted.entry.trace)
        (W.contents context.old.out) (W.contents context.new.out)) }
    ensures unwanted { wanted.entry.trace ≡ false → context.new.files ≡ context.old.files }
    ensures unbroken { OnOk result (S.has_failed context.new.files ≡ false) }
    ensures finished { OnOk result (S.is_finished context.new.files ≡ true) }
    ensures unreported { S.has_failed context.new.files ≡ true → (core : CoreView) × (idle : List ℕ)
        × Prints (W.contents context.old.out) (W.contents context.new.out) (AreMarked why
        (marks_of labels.now) script.now core idle) }
{
    let finished = print_asks(context, image, settings, script, why, labels)?;
    let idle = idle_of(&finished.core, &finished.idle);
    write_account(
        &finished.core,
        idle,
        wanted,
        labels,
        &mut context.files,
        &mut context.out,
        context.alloc,
    )
}
