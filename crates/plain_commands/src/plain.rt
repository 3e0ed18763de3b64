//! The command `plain`: an order of harts, run on the plain machine.

ghost use Rattle.std.specs.Prelude.{◌≡◌, [], IfOk, IfErr, IfSome, OnOk, option_map, reverse, is_some, true, false};
ghost use Rattle.std.specs.Io.KnownBytes.{Appends};
ghost use Rattle.plain_run.specs.Orders.{HasLeft, OfEachSetup};
ghost use Rattle.address_labels.specs.Labels.{marks_of};
ghost use Rattle.scripts.specs.Order.{IsOrder};
ghost use Rattle.command_parts.specs.declared.refused.Refused.TheVariants.{Output};
ghost use Rattle.story_text.specs.Text.{plan_of};
ghost use Rattle.plain_commands.specs.Plain.{IsPlainRefusal, PlainComesTo, refused_for, told_text};
ghost use Rattle.plain_commands.specs.Plain.{HasReported, IsOrderRefusal, IsMachineRefusal, IsStoryRefusal};
ghost use Rattle.plain_commands.specs.Outcomes.{HasPutText};
ghost use Rattle.story_pictures.specs.Form.{plan_of as drawn_plan_of};

use crate::drawn_orders::put_picture;
use address_labels::Labels;
use command_parts::{Context, Refused};
use elf_image::Image;
use plain_run::{OrderStopped, PlainRun, run_order};
use report_lines::status_of;
use reports::report_plain;
use sc_machine::{Plain, PlainRefused};
use scripts::{OrderRefused, read_order};
use sim_inputs::Settings;
use std::alloc::Global;
use std::io::Write;
use story_pictures::PictureForm;
use story_text::{StoryForm, Untold, tell_order};
use stress_runs::EndFiles;

/// Runs the plain machine of an image in the order that a text says, and writes what it comes to: the story of the
/// order and the records, where they are wanted, and the report. A picture of the story that is wanted goes into the
/// context's files first. Answers the exit status: how the harts stand.
///
/// Refused are, in this order, the first word of the order that is no number, a number of harts that the machine
/// doesn't have, the first step that it doesn't make, and a picture of too many rows; then nothing is printed.
/// `Output` is answered where `out` or `files` failed.
#[inline(never)]
pub fn perform_plain<R, G, P, S: EndFiles, W: Write>(
    context: &mut Context<'_, R, G, P, S, W>,
    image: &Image,
    settings: &Settings,
    order: &[u8],
    story: &Option<StoryForm<'_>>,
    picture: &Option<PictureForm<'_, '_>>,
    records: bool,
    labels: &Labels<'_>,
) -> Result<u8, Refused>
    requires harts { IfSome story.now (λ form. form.harts ≡ settings.now.config.harts) }
    requires works { S.has_failed context.old.files ≡ false }
    requires finished { S.is_finished context.old.files ≡ true }
    ensures refused { IfErr result (IsPlainRefusal settings.now image.now order.now (is_some picture.now)) }
    ensures ended { IfOk result (PlainComesTo settings.now image.now order.now (option_map plan_of story.now)
        (option_map drawn_plan_of picture.now) records (marks_of labels.now)
        (HasPutText S.written S.has_failed context.old.files context.new.files)
        (W.contents context.old.out) (W.contents context.new.out)) }
    ensures unwanted { is_some picture.now ≡ false → context.new.files ≡ context.old.files }
    ensures unbroken { OnOk result (S.has_failed context.new.files ≡ false) }
    ensures finished { OnOk result (S.is_finished context.new.files ≡ true) }
    ensures unreported { S.has_failed context.new.files ≡ true
        → W.contents context.new.out ≡ W.contents context.old.out }
{
    let alloc = context.alloc;
    let harts = match harts_of(order, alloc) {
        Ok(harts) => harts,
        Err(refused) => return Err(refused),
    };
    let list = harts.as_slice();
    let count = settings.config.harts;
    let ran = match run_image(image, count, list, alloc) {
        Ok(ran) => ran,
        Err(refused) => return Err(refused),
    };
    match put_picture(image, count, list, picture, &mut context.files, alloc) {
        Ok(()) => {}
        Err(refused) => return Err(refused),
    }
    report_order(
        image,
        count,
        list,
        &ran,
        story,
        records,
        labels,
        &mut context.out,
        alloc,
    )
}

/// Writes the story of an order, where it is wanted, and the report of its run. Answers the exit status.
fn report_order<W: Write>(
    image: &Image,
    harts: u8,
    order: &[u8],
    ran: &PlainRun,
    story: &Option<StoryForm<'_>>,
    records: bool,
    labels: &Labels<'_>,
    out: &mut W,
    alloc: Global,
) -> Result<u8, Refused>
    requires harts { IfSome story.now (λ form. form.harts ≡ harts) }
    ensures reported { IfOk result (HasReported image.now harts order.now (option_map plan_of story.now) records
        (marks_of labels.now) ran.now (W.contents out.old) (W.contents out.new)) }
    ensures refused { IfErr result (IsStoryRefusal image.now harts order.now) }
{
    match tell_image(image, harts, order, story, out, alloc) {
        Ok(()) => {}
        Err(refused) => return Err(refused),
    }
    match report_plain(ran, records, labels, out) {
        Ok(()) => Ok(status_of(ran.statuses().as_slice())),
        Err(_) => Err(Refused::Output),
    }
}

/// The harts of an order's text.
pub(crate) fn harts_of(order: &[u8], alloc: Global) -> Result<Vec<u8>, Refused>
    ensures order { IfOk result (λ harts. IsOrder order.now harts.items) }
    ensures refused { IfErr result (IsOrderRefusal order.now) }
{
    match read_order(order, alloc) {
        Ok(harts) => Ok(harts),
        Err(OrderRefused::Word(index)) => Err(Refused::Order(index)),
        Err(OrderRefused::Memory) => Err(Refused::Memory),
    }
}

/// What the plain machine of an image comes to when it has run an order.
fn run_image(image: &Image, harts: u8, order: &[u8], alloc: Global) -> Result<PlainRun, Refused>
    ensures ran { IfOk result
        (λ ran. OfEachSetup image.now harts (λ setup. HasLeft setup order.now ran)) }
    ensures refused { IfErr result (IsMachineRefusal image.now harts order.now) }
{
    match run_order(image, harts, order, alloc) {
        Ok(ran) => Ok(ran),
        Err(OrderStopped::Harts) => Err(Refused::Config),
        Err(OrderStopped::Memory) => Err(Refused::Memory),
        Err(OrderStopped::Step { index, why }) => Err(Refused::Step { index, why }),
    }
}

/// Tells the story of an order that the plain machine of an image makes, where it is wanted: it is told as it goes.
///
/// Refused are, in this order, a number of harts that the machine doesn't have, and the first step that it doesn't
/// make, behind the story of those before it; `Memory` where there is none for the machine, and `Output` where `out`
/// failed.
pub fn tell_image<W: Write>(
    image: &Image,
    harts: u8,
    order: &[u8],
    story: &Option<StoryForm<'_>>,
    out: &mut W,
    alloc: Global,
) -> Result<(), Refused>
    requires { IfSome story.now (λ form. form.harts ≡ harts) }
    ensures told { OnOk result (OfEachSetup image.now harts (λ setup. Appends (W.contents out.old) (W.contents out.new)
        (told_text (option_map plan_of story.now) setup (reverse order.now)))) }
    ensures refused { IfErr result (IsStoryRefusal image.now harts order.now) }
{
    let Some(form) = story else {
        return write_nothing(out);
    };
    let mut machine = match Plain::new(image, harts, order.len(), alloc) {
        Ok(machine) => machine,
        Err(PlainRefused::Harts) => return Err(Refused::Config),
        Err(PlainRefused::Memory) => return Err(Refused::Memory),
    };
    let _harts = machine.harts();
    match tell_order(&mut machine, order, form, out) {
        Ok(()) => Ok(()),
        Err(why) => Err(refused_for(why)),
    }
}

/// The refusal where a story isn't told to its end.
fn refused_for(why: Untold) -> Refused
    ensures { result ≡ refused_for why }
{
    match why {
        Untold::Step(at) => Refused::Step {
            index: at.index,
            why: at.why,
        },
        Untold::Output => Refused::Output,
    }
}

/// Writes nothing, so that no more was written.
fn write_nothing<W: Write>(out: &mut W) -> Result<(), Refused>
    ensures nothing { OnOk result (Appends (W.contents out.old) (W.contents out.new) []) }
    ensures refused { IfErr result (λ why. why ≡ Output) }
{
    match out.write_all(b"") {
        Ok(()) => Ok(()),
        Err(_) => Err(Refused::Output),
    }
}
