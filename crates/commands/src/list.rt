//! The command `list`: the code of an image, a line for each word.

ghost use Rattle.std.specs.Prelude.{IfOk, IfErr};
ghost use Rattle.address_labels.specs.Labels.{marks_of};
ghost use Rattle.commands.specs.List.{IsListRefusal, ListComesTo};

use address_labels::Labels;
use command_parts::Refused;
use elf_image::Image;
use reports::list;
use std::io::Write;

/// Writes the listing of an image's code, with its labels. Answers the exit status, 0. `Output` is answered where
/// `out` failed.
pub fn perform_list<W: Write>(
    image: &Image,
    labels: &Labels<'_>,
    out: &mut W,
) -> Result<u8, Refused>
    ensures refused { IfErr result IsListRefusal }
    ensures ended { IfOk result
        (ListComesTo image.now (marks_of labels.now) (W.contents out.old) (W.contents out.new)) }
{
    match list(image, labels, out) {
        Ok(()) => Ok(0),
        Err(_) => Err(Refused::Output),
    }
}
