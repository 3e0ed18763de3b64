//! The command `explain`: why a configuration or an image is refused, or what is in it.

ghost use Rattle.std.specs.Prelude.{◌≡◌, Ok, Err, IfOk, IfErr, OnOk, IfSome, IfNone};
ghost use Rattle.std.specs.Io.KnownBytes.{Appends};
ghost use Rattle.text_fields.specs.Printing.{Prints};
ghost use Rattle.sim_inputs.specs.Configuration.{IsConfiguration};
ghost use Rattle.explanations.specs.Explained.{IsConfigTold, IsImageTold, IsRefusedBy};
ghost use Rattle.command_parts.specs.declared.refused.Refused.TheVariants.{Output};
ghost use Rattle.command_parts.specs.Inputs.{as_read, IsNoConfiguration};
ghost use Rattle.commands.specs.Explain.{IsExplainRefusal, IsExplanationOf, ExplainComesTo};
ghost use Rattle.commands.specs.Explain.{IsWritingRefusal, IsBehindRefused, TellsWithout};

use command_parts::{Refused, Unread};
use elf_image::{LoadRefused, RamSize};
use explanations::{explain_config, explain_image};
use sim_inputs::{HartCount, Settings};
use std::alloc::Global;
use std::io;
use std::io::Write;

/// What is written before the image where the configuration, which is refused, sets no memory.
const WITHOUT_CONFIG: &[u8] = b"the image without a configuration:\n";

/// Says of a configuration's text, with so many harts in place of its own where that is given, and of an image's file
/// why each is refused, or what is in it, and answers the exit status, 0 where both are accepted; else the refusal of
/// the first that isn't, as
/// every other command has it. A file that couldn't be read is refused in its place. Where the
/// configuration is refused, the image is looked at with the memory that it has without one. All that
/// is printed is flushed. `Output` is answered where `out` failed.
#[inline(never)]
pub fn perform_explain<W: Write>(
    config: &[u8],
    harts: &Option<HartCount>,
    image: Result<&[u8], Unread>,
    out: &mut W,
    alloc: Global,
) -> Result<u8, Refused>
    ensures refused { IfErr result (IsExplainRefusal config.now (as_read image.entry)) }
    ensures explained { IfErr result
        (λ reason. IsExplanationOf harts.now config.now (as_read image.entry) reason (W.contents out.old)
        (W.contents out.new)) }
    ensures ended { IfOk result (ExplainComesTo harts.now (Ok config.now) (as_read image.entry)
        (W.contents out.old) (W.contents out.new)) }
{
    let Some(settings) = tell_config(config, harts, out, alloc)? else {
        tell_without_config(image, out, alloc)?;
        return Err(Refused::Config);
    };
    let file = image?;
    match tell_image(file, settings.ram, out, alloc)? {
        None => Ok(0),
        Some(check) => Err(Refused::Image(check.number())),
    }
}

/// Says what there is to say of a configuration, with so many harts where that is given, and answers the settings that
/// it makes itself, if any.
fn tell_config<W: Write>(
    config: &[u8],
    harts: &Option<HartCount>,
    out: &mut W,
    alloc: Global,
) -> Result<Option<Settings>, Refused>
    ensures refused { IfErr result IsWritingRefusal }
    ensures accepted { IfOk result (λ settings. IfSome settings (IsConfiguration config.now)) }
    ensures none { IfOk result (λ settings. IfNone settings (IsNoConfiguration config.now)) }
    ensures printed { IfOk result (λ settings.
        Prints (W.contents out.old) (W.contents out.new) (IsConfigTold harts.now config.now settings)) }
{
    match explain_config(config, *harts, alloc) {
        Ok(said) => {
            put(said.text.as_slice(), out)?;
            Ok(said.settings)
        }
        Err(_) => Err(Refused::Memory),
    }
}

/// Says what there is to say of an image, for a memory of this size, and answers the check that it
/// fails, if any.
fn tell_image<W: Write>(
    file: &[u8],
    ram: RamSize,
    out: &mut W,
    alloc: Global,
) -> Result<Option<LoadRefused>, Refused>
    ensures refused { IfErr result IsWritingRefusal }
    ensures fails { IfOk result (λ check. IfSome check (IsRefusedBy file.now ram)) }
    ensures printed { IfOk result (λ check.
        Prints (W.contents out.old) (W.contents out.new) (IsImageTold file.now ram check)) }
{
    match explain_image(file, ram, alloc) {
        Ok(said) => {
            put(said.text.as_slice(), out)?;
            Ok(said.refused)
        }
        Err(_) => Err(Refused::Memory),
    }
}

/// Says what there is to say of an image whose configuration is refused; nothing where its file can't be
/// read.
fn tell_without_config<W: Write>(
    image: Result<&[u8], Unread>,
    out: &mut W,
    alloc: Global,
) -> Result<(), Refused>
    ensures refused { IfErr result IsWritingRefusal }
    ensures printed { OnOk result
        (Prints (W.contents out.old) (W.contents out.new) (IsBehindRefused (as_read image.entry))) }
{
    match image {
        Ok(file) => tell_alone(file, out, alloc),
        Err(Unread::File) => Ok(()),
        Err(Unread::Memory) => Err(Refused::Memory),
    }
}

/// Says what there is to say of an image with the memory that it has without a configuration.
fn tell_alone<W: Write>(file: &[u8], out: &mut W, alloc: Global) -> Result<(), Refused>
    ensures refused { IfErr result IsWritingRefusal }
    ensures printed { OnOk result (Prints (W.contents out.old) (W.contents out.new) (TellsWithout file.now)) }
{
    put(WITHOUT_CONFIG, out)?;
    tell_image(file, Settings::default().ram, out, alloc)?;
    Ok(())
}

/// Writes a text, and flushes it.
pub(crate) fn put<W: Write>(text: &[u8], out: &mut W) -> Result<(), Refused>
    ensures refused { IfErr result (λ reason. reason ≡ Output) }
    ensures printed { OnOk result (Appends (W.contents out.old) (W.contents out.new) text.now) }
{
    match write_all(text, out) {
        Ok(()) => Ok(()),
        Err(_) => Err(Refused::Output),
    }
}

fn write_all<W: Write>(text: &[u8], out: &mut W) -> io::Result<()>
    ensures { OnOk result (Appends (W.contents out.old) (W.contents out.new) text.now) }
{
    out.write_all(text)?;
    out.flush()
}
