//! What stands beside the addresses that a command shows.

ghost use Rattle.std.specs.Prelude.{◌≡◌, IfSome, is_some, option_map};
ghost use Rattle.symbols.specs.Tables.{table_of};
ghost use Rattle.address_labels.specs.Labels.{marks_of, marks_where};
ghost use Rattle.commands.specs.Commands.{drawn_plan, origins_in, story_plan};
ghost use Rattle.story_text.specs.Text.{plan_of};
ghost use Rattle.story_pictures.specs.Form.{plan_of as drawn_plan_of};
ghost use Rattle.sim_inputs.specs.Files.{shows_names};

use address_labels::Labels;
use sim_inputs::{PlainCommand, ProgramCommand, Settings};
use source_lines::SourceLines;
use story_pictures::{PictureForm, theme_or};
use story_text::StoryForm;
use symbols::Symbols;

/// What stands beside addresses that a command shows.
pub(crate) fn labels_for<'a>(
    command: &ProgramCommand<'_>,
    names: &'a Symbols<'a>,
    lines: &'a Option<SourceLines<'a>>,
) -> Labels<'a>
    ensures { marks_of result ≡ marks_where (shows_names command.now) (table_of names.now) (origins_in lines.now) }
{
    labels_where(command.shows_names(), names, lines)
}

/// The names, where they are wanted, and the lines of the program's sources, where there are any.
#[tactic(auto, using(crate::proofs::OfLabels::lent_lines))]
pub(crate) fn labels_where<'a>(
    is_named: bool,
    names: &'a Symbols<'a>,
    lines: &'a Option<SourceLines<'a>>,
) -> Labels<'a>
    ensures { marks_of result ≡ marks_where is_named (table_of names.now) (origins_in lines.now) }
{
    let names = if is_named { Some(names) } else { None };
    let lines = lines.as_ref();
    Labels { names, lines }
}

/// How the story of an order is told, where it is wanted.
pub(crate) fn story_for<'a>(
    plain: &PlainCommand<'_>,
    settings: &Settings,
    names: &'a Symbols<'a>,
    labels: &'a Labels<'a>,
) -> Option<StoryForm<'a>>
    ensures plan { option_map plan_of result
        ≡ story_plan plain.now settings.now (table_of names.now) (marks_of labels.now) }
    ensures harts { IfSome result (λ form. form.harts ≡ settings.now.config.harts) }
{
    if !plain.story {
        return None;
    }
    Some(StoryForm {
        harts: settings.config.harts,
        all: plain.all,
        names,
        labels: *labels,
    })
}

/// How a picture of that story is drawn, where it is wanted. Whether its order ends in a stuck state isn't known.
pub(crate) fn picture_for<'a>(
    plain: &PlainCommand<'_>,
    settings: &Settings,
    names: &'a Symbols<'a>,
    labels: &'a Labels<'a>,
) -> Option<PictureForm<'a, 'a>>
    ensures plan { option_map drawn_plan_of result
        ≡ drawn_plan plain.now settings.now (table_of names.now) (marks_of labels.now) }
    ensures drawn { is_some result ≡ is_some plain.now.story_svg }
{
    if plain.story_svg.is_none() {
        return None;
    }
    Some(PictureForm {
        harts: settings.config.harts,
        names,
        labels: *labels,
        is_stuck: false,
        foot: b"",
        theme: theme_or(plain.theme),
    })
}
