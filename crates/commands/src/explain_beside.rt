//! What the command `explain` says of a script, an order or a trace, beside an image and a configuration that are
//! accepted.

ghost use Rattle.std.specs.Prelude.{◌≡◌, IfErr, OnOk};
ghost use Rattle.sim_inputs.specs.declared.line.Beside.TheVariants as beside;
ghost use Rattle.commands.specs.Explain.{IsScriptFault, IsFaultOfOrder, IsBesideFault, TellsBeside};

use crate::explain::put;
use command_parts::Refused;
use core_commands::perform_judgement;
use elf_image::Image;
use explained_words::{OrderFault, explain_order, explain_script};
use sim_inputs::{Beside, Settings};
use smt_core::Predict;
use std::alloc::Global;
use std::io::Write;

/// Says of a script or an order what it asks for, and which of its words come to nothing; of a trace, that it is
/// accepted, or why it is refused. Refused are, behind what is said of it, the first word of a script that says
/// nothing, as by `step`, the first word of an order that the plain machine doesn't follow, as by `plain`, and a trace
/// as by `check`. All that is printed is flushed. `Output` is answered where `out` failed.
pub(crate) fn tell_beside<P: Predict, W: Write>(
    beside: Beside<'_>,
    text: &[u8],
    settings: &Settings,
    image: &Image,
    predict: &mut P,
    out: &mut W,
    alloc: Global,
) -> Result<(), Refused>
    ensures refused { IfErr result (IsBesideFault beside.entry settings.now image.now text.now) }
    ensures told { OnOk result (TellsBeside beside.entry settings.now image.now text.now
        (W.contents out.old) (W.contents out.new)) }
{
    match beside {
        Beside::Script(_) => tell_script(text, settings, image, predict, out, alloc),
        Beside::Order(_) => tell_order(text, settings, image, out, alloc),
        Beside::Trace(_) => match perform_judgement(image, settings, text, out, alloc) {
            Ok(_) => Ok(()),
            Err(refused) => Err(refused),
        },
    }
}

fn tell_script<P: Predict, W: Write>(
    text: &[u8],
    settings: &Settings,
    image: &Image,
    predict: &mut P,
    out: &mut W,
    alloc: Global,
) -> Result<(), Refused>
    ensures refused { IfErr result (IsScriptFault text.now) }
    ensures told { (name : _) → OnOk result (TellsBeside (beside.Script name) settings.now image.now text.now
        (W.contents out.old) (W.contents out.new)) }
{
    let (config, limit) = (&settings.config, settings.limit);
    let Ok(said) = explain_script(text, image, config, limit, predict, alloc) else {
        return Err(Refused::Memory);
    };
    put(said.text.as_slice(), out)?;
    match said.refused {
        Some(number) => Err(Refused::Script(number)),
        None => Ok(()),
    }
}

fn tell_order<W: Write>(
    text: &[u8],
    settings: &Settings,
    image: &Image,
    out: &mut W,
    alloc: Global,
) -> Result<(), Refused>
    ensures refused { IfErr result (IsFaultOfOrder settings.now image.now text.now) }
    ensures told { (name : _) → OnOk result (TellsBeside (beside.Order name) settings.now image.now text.now
        (W.contents out.old) (W.contents out.new)) }
{
    let Ok(said) = explain_order(text, image, settings.config.harts, alloc) else {
        return Err(Refused::Memory);
    };
    put(said.text.as_slice(), out)?;
    match said.refused {
        Some(OrderFault::Word(index)) => Err(Refused::Order(index)),
        Some(OrderFault::Step { index, why }) => Err(Refused::Step { index, why }),
        None => Ok(()),
    }
}
