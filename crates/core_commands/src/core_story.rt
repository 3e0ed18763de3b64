//! The story of a core: that of its retirements, one whole instruction at a time.

ghost use Rattle.std.specs.Prelude.{◌≡◌, ◌⊎◌, IfOk, OnOk, IfErr, option_map};
ghost use Rattle.std.specs.Io.KnownBytes.{Appends};
ghost use Rattle.address_labels.specs.Labels.{marks_of};
ghost use Rattle.command_parts.specs.declared.refused.Refused.TheVariants.{Memory, Output};
ghost use Rattle.symbols.specs.Tables.{table_of};
ghost use Rattle.core_commands.specs.Account.{kept_story, story_of};
ghost use Rattle.core_commands.specs.Wanted.{rows_of};

use crate::wanted::CoreStory;
use address_labels::Labels;
use command_parts::Refused;
use history_check::retirement_order;
use plain_commands::tell_image;
use smt_core::Core;
use std::alloc::{AllocError, Global};
use std::io::Write;
use story_text::StoryForm;
use symbols::Symbols;

/// Tells the story of what a core has retired, where it is wanted: the plain machine of its image and its harts makes
/// their steps again in the order of retirement, none of which it refuses. `labels` stand behind the rows.
///
/// `Memory` is answered where there is none for the order, a byte for each record, or for the machine; `Output` where
/// `out` failed.
pub(crate) fn tell_story<W: Write>(
    core: &Core,
    story: &Option<CoreStory<'_>>,
    labels: &Labels<'_>,
    out: &mut W,
    alloc: Global,
) -> Result<(), Refused>
    ensures told { OnOk result (Appends (W.contents out.old) (W.contents out.new)
        (story_of (option_map rows_of story.now) (marks_of labels.now) core.now)) }
    ensures refused { IfErr result (λ why. (why ≡ Memory) ⊎ (why ≡ Output)) }
{
    let Some(story) = story else {
        return Ok(());
    };
    let form = Some(StoryForm {
        harts: core.harts(),
        all: story.all,
        names: story.names,
        labels: *labels,
    });
    let order = match retirement_order(core, alloc) {
        Ok(order) => order,
        Err(AllocError) => return Err(Refused::Memory),
    };
    let image = core.memory().image();
    tell_image(image, core.harts(), order.as_slice(), &form, out, alloc)
}

/// The story of what a core has retired, as it is kept: a row for each retirement that other harts can see, with these
/// names of the program and nothing behind its rows.
#[inline(never)]
pub(crate) fn kept_story(
    core: &Core,
    names: &Symbols<'_>,
    alloc: Global,
) -> Result<Vec<u8>, Refused>
    ensures text { IfOk result (λ text. text.items ≡ kept_story (table_of names.now) core.now) }
    ensures refused { IfErr result (λ why. why ≡ Memory) }
{
    let mut text = Vec::new(alloc);
    let story = Some(CoreStory { all: false, names });
    match tell_story(core, &story, &Labels::none(), &mut text, alloc) {
        Ok(()) => Ok(text),
        // What holds the text fails for want of memory alone.
        Err(_) => Err(Refused::Memory),
    }
}
