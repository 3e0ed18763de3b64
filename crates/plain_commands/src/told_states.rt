//! How the condition of a litmus test comes to hold, or of a `forall` not to hold: the line of the state that shows
//! it, and the story of its order, which is that which `--story` writes of it; or the execution as a picture.

ghost use Rattle.std.specs.Prelude.{◌≡◌, ◌<◌, ◌≤◌, IfOk, IfErr, OnOk, Some, true, length, option_map, slice_get};
ghost use Rattle.std.specs.Io.KnownBytes.{Appends};
ghost use Rattle.core_state.specs.Setup.{setup_of};
ghost use Rattle.litmus_tests.specs.{WellFormed.IsWellFormed};
ghost use Rattle.litmus_text.specs.{States.passes, States.told_in};
ghost use Rattle.outcomes.specs.{Found.Told};
ghost use Rattle.command_parts.specs.declared.refused.Refused.TheVariants.{Memory};
ghost use Rattle.plain_commands.specs.Litmus.{IsPictureRefusal};
ghost use Rattle.plain_commands.specs.{StateOrders.state_plan, WrittenOrders.IsStoryOf};
ghost use Rattle.plain_commands.specs.ShownStates.{IsHowTold, IsSentenceOf, IsStateShown, IsStateStory};
ghost use Rattle.plain_commands.specs.ShownStates.{claim_of, each_sentence, part_of, shown_sentence};
ghost use Rattle.symbols.specs.Tables.{table_of};

use crate::drawn_orders::rows_of;
use crate::shown_states::shortest_shown;
use crate::state_orders::{form_of, is_state, line_at};
use crate::written_stories::story_text;
use command_parts::{Refused, names_in};
use elf_image::Image;
use explained_cycles::draw_execution;
use litmus_files::file_of;
use litmus_tests::{LitmusTest, Quantifier};
use litmus_text::verdict_of;
use outcomes::Outcomes;
use sim_inputs::{LitmusCommand, Settings};
use std::alloc::{AllocError, Global};
use std::io;
use std::io::Write;
use stories::Row;
use symbols::Symbols;

/// How the condition comes to hold of a state, or of a `forall` not to hold of one: the state's line, and the story of
/// its order. Where the condition of a `forall` holds of each state, that.
pub(crate) fn tell_shown(
    test: &LitmusTest,
    image: &Image,
    settings: &Settings,
    outcomes: &Outcomes,
    command: &LitmusCommand<'_>,
    alloc: Global,
) -> Result<Vec<u8>, Refused>
    requires { IsWellFormed test.now }
    ensures told { IfOk result (λ text. IsHowTold settings.now image.now test.now command.now outcomes.now.listed
        text.items) }
    ensures refused { IfErr result (λ why. why ≡ Memory) }
{
    let found = match shortest_shown(test, outcomes, alloc) {
        Ok(found) => found,
        Err(refused) => return Err(refused),
    };
    let Some(shortest) = found else {
        return each_text(alloc);
    };
    match state_text(
        test,
        image,
        settings,
        outcomes,
        shortest.index,
        command,
        alloc,
    ) {
        Ok(text) => Ok(text),
        Err(refused) => Err(refused),
    }
}

/// The execution by which the condition comes to hold of that state, or not to hold, as a picture.
pub(crate) fn draw_shown(
    test: &LitmusTest,
    image: &Image,
    settings: &Settings,
    outcomes: &Outcomes,
    alloc: Global,
) -> Result<Vec<u8>, Refused>
    requires { IsWellFormed test.now }
    ensures { IfErr result IsPictureRefusal }
{
    let found = match shortest_shown(test, outcomes, alloc) {
        Ok(found) => found,
        Err(refused) => return Err(refused),
    };
    let Some(shortest) = found else {
        return Err(Refused::NothingToDraw);
    };
    let rows = match rows_at(image, settings, outcomes, shortest.index, alloc) {
        Ok(rows) => rows,
        Err(refused) => return Err(refused),
    };
    picture_text(test, outcomes, shortest.index, rows.as_slice(), alloc)
}

/// The sentence that says which state it is, and behind it the story of its order.
fn state_text(
    test: &LitmusTest,
    image: &Image,
    settings: &Settings,
    outcomes: &Outcomes,
    index: usize,
    command: &LitmusCommand<'_>,
    alloc: Global,
) -> Result<Vec<u8>, Refused>
    requires sound { IsWellFormed test.now }
    requires within { index < length outcomes.now.listed }
    ensures shown { IfOk result (λ text. (told : Told) → slice_get outcomes.now.listed index ≡ Some told
        → passes test.now told ≡ true
        → IsStateShown settings.now image.now test.now command.now outcomes.now.listed told text.items) }
    ensures refused { IfErr result (λ why. why ≡ Memory) }
{
    let story = match state_story(test, image, settings, outcomes, index, command, alloc) {
        Ok(story) => story,
        Err(refused) => return Err(refused),
    };
    let mut text = match state_sentence(test, outcomes, index, alloc) {
        Ok(text) => text,
        Err(refused) => return Err(refused),
    };
    match text.extend_from_slice(story.as_slice()) {
        Ok(()) => Ok(text),
        Err(_) => Err(Refused::Memory),
    }
}

/// The story of the order of the outcome with this index, as it is written for its line.
fn state_story(
    test: &LitmusTest,
    image: &Image,
    settings: &Settings,
    outcomes: &Outcomes,
    index: usize,
    command: &LitmusCommand<'_>,
    alloc: Global,
) -> Result<Vec<u8>, Refused>
    requires sound { IsWellFormed test.now }
    requires within { index < length outcomes.now.listed }
    ensures story { IfOk result (λ story. (told : Told) → slice_get outcomes.now.listed index ≡ Some told
        → IsStateStory settings.now image.now test.now command.now told story.items) }
    ensures refused { IfErr result (λ why. why ≡ Memory) }
{
    let order = match outcomes.witness(index, alloc) {
        Ok(order) => order,
        Err(AllocError) => return Err(Refused::Memory),
    };
    let line = match line_at(test, outcomes, index, alloc) {
        Ok(line) => Some(line),
        Err(refused) => return Err(refused),
    };
    let Ok(named) = file_of(test, image, alloc) else {
        return Err(Refused::Memory);
    };
    let Ok(names) = names_in(named.as_slice(), alloc) else {
        return Err(Refused::Memory);
    };
    named_story(
        image,
        settings,
        command,
        order.as_slice(),
        &line,
        &names,
        alloc,
    )
}

/// The story of an order that was found, with these names; `line` stands behind it.
fn named_story(
    image: &Image,
    settings: &Settings,
    command: &LitmusCommand<'_>,
    order: &[u8],
    line: &Option<Vec<u8>>,
    names: &Symbols<'_>,
    alloc: Global,
) -> Result<Vec<u8>, Refused>
    ensures story { IfOk result (λ story. IsStoryOf (setup_of image.now settings.now.config)
        (state_plan settings.now command.now (table_of names.now)) order.now (option_map (λ it. it.items) line.now)
        story.items) }
    ensures refused { IfErr result (λ why. why ≡ Memory) }
{
    let form = form_of(settings, command, names);
    match story_text(image, settings, order, line, &form, alloc) {
        Ok(story) => Ok(story),
        // The machine makes an order that was found: only memory can be lacking.
        Err(_) => Err(Refused::Memory),
    }
}

/// Which state the outcome with this index is, and what it shows.
fn state_sentence(
    test: &LitmusTest,
    outcomes: &Outcomes,
    index: usize,
    alloc: Global,
) -> Result<Vec<u8>, Refused>
    requires sound { IsWellFormed test.now }
    requires within { index < length outcomes.now.listed }
    ensures sentence { IfOk result (λ text. (told : Told) → slice_get outcomes.now.listed index ≡ Some told
        → passes test.now told ≡ true → IsSentenceOf test.now outcomes.now.listed told text.items) }
    ensures refused { IfErr result (λ why. why ≡ Memory) }
{
    let all = verdict_of(test, outcomes);
    // So many outcomes take more memory than there is.
    let Some(number) = states_before(test, outcomes, index).checked_add(1) else {
        return Err(Refused::Memory);
    };
    let mut text = Vec::new(alloc);
    match write_sentence(test.quantifier, number, all.count, &mut text) {
        Ok(()) => Ok(text),
        Err(_) => Err(Refused::Memory),
    }
}

/// How many final states stand before the outcome with this index.
fn states_before(test: &LitmusTest, outcomes: &Outcomes, index: usize) -> usize
    requires sound { IsWellFormed test.now }
    requires within { index < length outcomes.now.listed }
    ensures line { (told : Told) → slice_get outcomes.now.listed index ≡ Some told → passes test.now told ≡ true
        → slice_get (told_in test.now outcomes.now.listed) result ≡ Some told }
    ensures few { result ≤ index }
{
    let mut before = 0;
    for place in 0..index {
        before += usize::from(is_state(test, outcomes, place));
    }
    before
}

/// Writes which of so many states it is, from 1, and what it shows.
#[tactic(auto, unfolding(crate::specs::ShownStates::shown_sentence))]
fn write_sentence<W: Write>(
    quantifier: Quantifier,
    number: usize,
    count: usize,
    out: &mut W,
) -> io::Result<()>
    ensures { OnOk result (Appends (W.contents out.old) (W.contents out.new)
        (shown_sentence quantifier number count)) }
{
    out.write_all(claim_of(quantifier).as_bytes())?;
    write!(out, "{number} of {count}")?;
    out.write_all(part_of(quantifier).as_bytes())
}

fn claim_of(quantifier: Quantifier) -> &'static str
    ensures { result.now ≡ claim_of quantifier }
{
    match quantifier {
        Quantifier::Exists => "why: the condition holds of state ",
        Quantifier::NotExists => "why: the condition holds of state ",
        Quantifier::ForAll => "why: the condition doesn't hold of state ",
    }
}

fn part_of(quantifier: Quantifier) -> &'static str
    ensures { result.now ≡ part_of quantifier }
{
    match quantifier {
        Quantifier::Exists => ", by this order:\n",
        Quantifier::NotExists => ", a counterexample, by this order:\n",
        Quantifier::ForAll => ", a counterexample, by this order:\n",
    }
}

/// The sentence of a `forall` whose condition holds of each state.
fn each_text(alloc: Global) -> Result<Vec<u8>, Refused>
    ensures text { IfOk result (λ text. text.items ≡ each_sentence) }
    ensures refused { IfErr result (λ why. why ≡ Memory) }
{
    let mut text = Vec::new(alloc);
    match text.write_all(b"why: the condition holds of each state\n") {
        Ok(()) => Ok(text),
        Err(_) => Err(Refused::Memory),
    }
}

/// The rows of the story of the order of the outcome with this index, as a picture has them.
fn rows_at(
    image: &Image,
    settings: &Settings,
    outcomes: &Outcomes,
    index: usize,
    alloc: Global,
) -> Result<Vec<Row>, Refused>
    requires { index < length outcomes.now.listed }
    ensures { IfErr result IsPictureRefusal }
{
    let order = match outcomes.witness(index, alloc) {
        Ok(order) => order,
        Err(AllocError) => return Err(Refused::Memory),
    };
    match rows_of(image, settings.config.harts, order.as_slice(), alloc) {
        Ok(rows) => Ok(rows),
        Err(Refused::LongStory) => Err(Refused::LongStory),
        // The machine makes an order that was found: else only memory can be lacking.
        Err(_) => Err(Refused::Memory),
    }
}

/// The picture of these rows, under the sentence and above the line of the state to which they lead.
fn picture_text(
    test: &LitmusTest,
    outcomes: &Outcomes,
    index: usize,
    rows: &[Row],
    alloc: Global,
) -> Result<Vec<u8>, Refused>
    requires sound { IsWellFormed test.now }
    requires within { index < length outcomes.now.listed }
    ensures { IfErr result (λ why. why ≡ Memory) }
{
    let sentence = match state_sentence(test, outcomes, index, alloc) {
        Ok(sentence) => sentence,
        Err(refused) => return Err(refused),
    };
    let line = match line_at(test, outcomes, index, alloc) {
        Ok(line) => line,
        Err(refused) => return Err(refused),
    };
    let mut picture = Vec::new(alloc);
    match draw_execution(
        test,
        rows,
        sentence.as_slice(),
        line.as_slice(),
        &mut picture,
        alloc,
    ) {
        Ok(()) => Ok(picture),
        Err(_) => Err(Refused::Memory),
    }
}
