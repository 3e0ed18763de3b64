//! The picture of the story of an order.

ghost use Rattle.std.specs.Prelude.{◌≡◌, ◌≤◌, IfOk, IfErr, OnOk, true, false, length, reverse, is_some, option_map};
ghost use Rattle.core_state.specs.Setup.{setup_of};
ghost use Rattle.plain_run.specs.Orders.{OfEachSetup};
ghost use Rattle.story_text.specs.Text.{plan_of};
ghost use Rattle.story_pictures.specs.Form.{most_rows, plan_of as drawn_plan_of, theme_or};
ghost use Rattle.story_pictures.specs.Order.{rows_told};
ghost use Rattle.plain_commands.specs.DrawnOrders.{HasPutPicture, IsDrawingRefusal, IsPictureOf, IsPuttingRefusal};
ghost use Rattle.plain_commands.specs.DrawnOrders.{picture_plan, undrawn_for};
ghost use Rattle.plain_commands.specs.WrittenOrders.{IsDrawnBy};

use crate::written_stories::closing_of;
use command_parts::{Refused, put_text};
use elf_image::Image;
use sc_machine::{Plain, PlainRefused};
use sim_inputs::Settings;
use std::alloc::Global;
use stories::Row;
use story_pictures::{PictureForm, Theme, Undrawn, rows_of_order, theme_or, write_story_picture};
use story_text::StoryForm;
use stress_runs::EndFiles;

/// The picture of the story of an order that was found, which leads to an end or to a stuck state, with what stands
/// behind the story at its foot: `line`, or what each hart waits for.
pub(crate) fn found_picture(
    image: &Image,
    settings: &Settings,
    order: &[u8],
    line: &Option<Vec<u8>>,
    form: &StoryForm<'_>,
    theme: Option<Theme>,
    alloc: Global,
) -> Result<Vec<u8>, Refused>
    ensures text { IfOk result (λ text. IsDrawnBy theme (setup_of image.now settings.now.config) (plan_of form.now)
        order.now (option_map (λ it. it.items) line.now) text.items) }
    ensures refused { IfErr result (IsDrawingRefusal image.now settings.now.config.harts order.now) }
{
    let harts = settings.config.harts;
    let foot = match closing_of(image, harts, order, line, form.names, alloc) {
        Ok(foot) => foot,
        Err(refused) => return Err(refused),
    };
    let drawn = picture_form(form, foot.as_slice(), theme);
    picture_of(image, harts, order, &drawn, alloc)
}

/// Puts the picture of an order's story into a file, where one is wanted.
pub(crate) fn put_picture<S: EndFiles>(
    image: &Image,
    harts: u8,
    order: &[u8],
    picture: &Option<PictureForm<'_, '_>>,
    file: &mut S,
    alloc: Global,
) -> Result<(), Refused>
    requires works { S.has_failed file.old ≡ false }
    requires finished { S.is_finished file.old ≡ true }
    ensures refused { IfErr result (IsPuttingRefusal image.now harts order.now (is_some picture.now)) }
    ensures put { OnOk result (HasPutPicture S.written S.has_failed file.old file.new image.now harts
        (option_map drawn_plan_of picture.now) order.now) }
    ensures unwanted { is_some picture.now ≡ false → file.new ≡ file.old }
    ensures unbroken { OnOk result (S.has_failed file.new ≡ false) }
    ensures finished { OnOk result (S.is_finished file.new ≡ true) }
{
    let Some(form) = picture else {
        return Ok(());
    };
    let text = match picture_of(image, harts, order, form, alloc) {
        Ok(text) => text,
        Err(refused) => return Err(refused),
    };
    match put_text(text.as_slice(), file) {
        Ok(_status) => Ok(()),
        Err(refused) => Err(refused),
    }
}

/// How the picture of a story is drawn that is told so, with this at its foot.
fn picture_form<'a, 'b>(
    form: &StoryForm<'a>,
    foot: &'b [u8],
    theme: Option<Theme>,
) -> PictureForm<'a, 'b>
    ensures { drawn_plan_of result ≡ picture_plan (plan_of form.now) foot.now (theme_or theme) }
{
    PictureForm {
        harts: form.harts,
        names: form.names,
        labels: form.labels,
        is_stuck: true,
        foot,
        theme: theme_or(theme),
    }
}

/// The picture of the story of an order that the plain machine of an image makes.
pub(crate) fn picture_of(
    image: &Image,
    harts: u8,
    order: &[u8],
    form: &PictureForm<'_, '_>,
    alloc: Global,
) -> Result<Vec<u8>, Refused>
    ensures drawn { IfOk result (λ text. OfEachSetup image.now harts
        (λ setup. IsPictureOf (drawn_plan_of form.now) setup order.now text.items)) }
    ensures refused { IfErr result (IsDrawingRefusal image.now harts order.now) }
{
    let rows = match rows_of(image, harts, order, alloc) {
        Ok(rows) => rows,
        Err(refused) => return Err(refused),
    };
    let mut text = Vec::new(alloc);
    match write_story_picture(rows.as_slice(), form, &mut text) {
        Ok(()) => Ok(text),
        // What holds the text fails for want of memory alone.
        Err(_) => Err(Refused::Memory),
    }
}

/// The rows of the story of an order that the plain machine of an image makes.
pub(crate) fn rows_of(
    image: &Image,
    harts: u8,
    order: &[u8],
    alloc: Global,
) -> Result<Vec<Row>, Refused>
    ensures rows { IfOk result (λ rows. OfEachSetup image.now harts
        (λ setup. rows.items ≡ rows_told setup (reverse order.now))) }
    ensures few { IfOk result (λ rows. length rows.items ≤ most_rows) }
    ensures refused { IfErr result (IsDrawingRefusal image.now harts order.now) }
{
    let mut machine = match Plain::new(image, harts, order.len(), alloc) {
        Ok(machine) => machine,
        Err(PlainRefused::Harts) => return Err(Refused::Config),
        Err(PlainRefused::Memory) => return Err(Refused::Memory),
    };
    match rows_of_order(&mut machine, order, alloc) {
        Ok(rows) => Ok(rows),
        Err(why) => Err(undrawn_for(why)),
    }
}

/// The refusal where there are no rows of an order.
fn undrawn_for(why: Undrawn) -> Refused
    ensures { result ≡ undrawn_for why }
{
    match why {
        Undrawn::Step(at) => Refused::Step {
            index: at.index,
            why: at.why,
        },
        Undrawn::Many => Refused::LongStory,
        Undrawn::Memory => Refused::Memory,
    }
}
