//! The command `outcomes`: every end that a program has on the plain machine.

ghost use Rattle.std.specs.Prelude.{◌≡◌, ◌++◌, ℕ, List, IfOk, IfErr, OnOk, None, true, false, is_some, option_map};
ghost use Rattle.std.specs.Io.KnownBytes.{Appends};
ghost use Rattle.elf_image.specs.Image.{ProgramImage};
ghost use Rattle.address_labels.specs.Labels.{marks_of};
ghost use Rattle.symbols.specs.Tables.{table_of};
ghost use Rattle.story_text.specs.Text.{plan_of};
ghost use Rattle.outcomes.specs.Refusals.{IsRefusedFor};
ghost use Rattle.outcome_text.specs.Listing.{outcomes_text};
ghost use Rattle.outcome_queries.specs.Watches.{memory_asked, registers_asked};
ghost use Rattle.command_parts.specs.declared.refused.Refused.TheVariants.{Memory, NoAnswer};
ghost use Rattle.plain_commands.specs.Outcomes.{IsOutcomesRefusal, OutcomesComeTo, IsSearchRefusal, IsFoundRefusal};
ghost use Rattle.plain_commands.specs.Outcomes.{HasPutText, HasTold, HasToldFound, IsAnyRefusal, IsWant};
ghost use Rattle.plain_commands.specs.Outcomes.{found_text, plan_for, question_text, status_found};
ghost use Rattle.plain_commands.specs.Outcomes.{HasPutWanted, IsDrawnFor, IsWhyOf, IsWhyRefusal};
ghost use Rattle.plain_commands.specs.WrittenOrders.{IsTextRefusal, is_answer_wanted, order_wanted, stuck_told};
ghost use Rattle.sim_inputs.specs.Files.{written_of_outcomes};

use crate::asking::{question_of, see_harts, terms_asked, watched_for};
use crate::how::how_told;
use crate::outcome_why::{Told, outcome_why};
use crate::searching::find_shown;
use crate::settling::{FirstSettling, status_of_answer, status_of_extent};
use crate::written_orders::{is_answer_wanted, order_wanted, put_order, stuck_order};
use crate::written_stories::line_wanted;
use actors::Gate;
use address_labels::Labels;
use command_parts::{Context, Refused, put_text};
use elf_image::Image;
use outcome_queries::{Question, WatchList, columns_of, watch_of};
use outcome_text::{How, answer_of, write_answer, write_outcomes};
use outcomes::{Extent, Outcomes, OutcomesRefused};
use sim_inputs::{OutcomesCommand, Settings};
use std::alloc::Global;
use std::io::Write;
use story_text::StoryForm;
use stress_runs::EndFiles;
use symbols::Symbols;
use watched_outcomes::Watch;

/// Writes a line for each outcome of an image that is found, for as many harts as the settings say, how many there
/// are, how many states were found, and how many without each reduction, where that is asked, whether these are all,
/// whether each state can go on to an end, the answer to the command's question, and why its condition holds of none,
/// where that is asked. The picture of that goes into the context's files first, or an order that is wanted, as it is,
/// as its script, as its story or as a picture of that.
///
/// Answers the exit status: of a question 0 where it is so, 1 where it isn't, and 3 where what was found doesn't tell;
/// without a question 0 where these are all outcomes, else 3. Refused are, in this order, a condition or a list that is
/// misspelled, more than can be watched, a hart that isn't there (of the condition first), a word that isn't, an outcome
/// and a stuck state that aren't there, a picture of which there is nothing to draw, and what `perform_schedule`
/// refuses; then nothing is printed. `NoAnswer` is
/// answered where the order of what answers the question is wanted and nothing does; then all else is printed.
/// `Output` is answered where `out` or `files` failed. The gate is shown how far the search is.
#[inline(never)]
pub fn perform_outcomes<R, G: Gate, P, S: EndFiles, W: Write>(
    context: &mut Context<'_, R, G, P, S, W>,
    image: &Image,
    settings: &Settings,
    names: &Symbols<'_>,
    labels: &Labels<'_>,
    command: &OutcomesCommand<'_>,
) -> Result<u8, Refused>
    requires works { S.has_failed context.old.files ≡ false }
    requires finished { S.is_finished context.old.files ≡ true }
    ensures refused { IfErr result (IsOutcomesRefusal settings.now image.now (table_of names.now) command.now) }
    ensures ended { IfOk result (OutcomesComeTo settings.now image.now (table_of names.now) (marks_of labels.now)
        command.now (HasPutText S.written S.has_failed context.old.files context.new.files)
        (W.contents context.old.out) (W.contents context.new.out)) }
    ensures unwanted { is_some (written_of_outcomes command.now) ≡ false → context.new.files ≡ context.old.files }
    ensures unbroken { OnOk result (S.has_failed context.new.files ≡ false) }
    ensures finished { OnOk result (S.is_finished context.new.files ≡ true) }
    ensures unreported { S.has_failed context.new.files ≡ true
        → W.contents context.new.out ≡ W.contents context.old.out }
{
    let question = match question_of(command.question, names, context.alloc) {
        Ok(question) => question,
        Err(refused) => return Err(refused),
    };
    let terms = terms_asked(&question);
    let list = match watched_for(command, names, &terms) {
        Ok(list) => list,
        Err(refused) => return Err(refused),
    };
    match see_harts(&terms, settings.config.harts) {
        Ok(()) => {}
        Err(refused) => return Err(refused),
    }
    let watch = watch_of(list.as_slice());
    let form = form_of(settings, names, labels, command);
    search(
        context, image, settings, command, &form, &watch, &list, &question,
    )
}

/// How a story is told that a command writes.
fn form_of<'a>(
    settings: &Settings,
    names: &'a Symbols<'a>,
    labels: &'a Labels<'a>,
    command: &OutcomesCommand<'_>,
) -> StoryForm<'a>
    ensures plan { plan_of result ≡ plan_for settings.now (table_of names.now) (marks_of labels.now) command.now }
    ensures harts { result.harts ≡ settings.now.config.harts }
{
    StoryForm {
        harts: settings.config.harts,
        all: command.all,
        names,
        labels: *labels,
    }
}

/// Searches for the outcomes of which this is watched, writes the order that is wanted of them, and prints them.
fn search<R, G: Gate, P, S: EndFiles, W: Write>(
    context: &mut Context<'_, R, G, P, S, W>,
    image: &Image,
    settings: &Settings,
    command: &OutcomesCommand<'_>,
    form: &StoryForm<'_>,
    watch: &Watch,
    list: &WatchList<'_>,
    question: &Option<Question<'_>>,
) -> Result<u8, Refused>
    requires works { S.has_failed context.old.files ≡ false }
    requires finished { S.is_finished context.old.files ≡ true }
    requires harts { form.now.harts ≡ settings.now.config.harts }
    ensures refused { IfErr result
        (IsAnyRefusal settings.now image.now command.now watch.now question.now) }
    ensures told { IfOk result (HasToldFound settings.now image.now command.now (plan_of form.now) list.now.items
        watch.now question.now (HasPutText S.written S.has_failed context.old.files context.new.files)
        (W.contents context.old.out) (W.contents context.new.out)) }
    ensures unwanted { is_some (written_of_outcomes command.now) ≡ false → context.new.files ≡ context.old.files }
    ensures unbroken { OnOk result (S.has_failed context.new.files ≡ false) }
    ensures finished { OnOk result (S.is_finished context.new.files ≡ true) }
    ensures unreported { S.has_failed context.new.files ≡ true
        → W.contents context.new.out ≡ W.contents context.old.out }
{
    let harts = settings.config.harts;
    let until = FirstSettling {
        question,
        watch,
        first: command.first,
    };
    let (gate, alloc) = (context.gate, context.alloc);
    let (budget, without) = (command.states, command.without);
    match find_shown(image, harts, watch, budget, without, gate, &until, alloc) {
        Ok(outcomes) => tell(
            context, image, settings, command, form, &outcomes, watch, list, question,
        ),
        Err(why) => Err(search_refusal(why, watch)),
    }
}

/// Puts the order that is wanted into the file, and prints what was found.
fn tell<R, G: Gate, P, S: EndFiles, W: Write>(
    context: &mut Context<'_, R, G, P, S, W>,
    image: &Image,
    settings: &Settings,
    command: &OutcomesCommand<'_>,
    form: &StoryForm<'_>,
    outcomes: &Outcomes,
    watch: &Watch,
    list: &WatchList<'_>,
    question: &Option<Question<'_>>,
) -> Result<u8, Refused>
    requires works { S.has_failed context.old.files ≡ false }
    requires finished { S.is_finished context.old.files ≡ true }
    requires harts { form.now.harts ≡ settings.now.config.harts }
    ensures refused { IfErr result
        (IsFoundRefusal settings.now image.now command.now watch.now question.now outcomes.now) }
    ensures told { IfOk result (HasTold settings.now image.now command.now (plan_of form.now) list.now.items watch.now
        question.now outcomes.now (HasPutText S.written S.has_failed context.old.files context.new.files)
        (W.contents context.old.out) (W.contents context.new.out)) }
    ensures unwanted { is_some (written_of_outcomes command.now) ≡ false → context.new.files ≡ context.old.files }
    ensures unbroken { OnOk result (S.has_failed context.new.files ≡ false) }
    ensures finished { OnOk result (S.is_finished context.new.files ≡ true) }
    ensures unreported { S.has_failed context.new.files ≡ true
        → W.contents context.new.out ≡ W.contents context.old.out }
{
    let alloc = context.alloc;
    let order = match order_wanted(command, outcomes, watch, question, alloc) {
        Ok(order) => order,
        Err(refused) => return Err(refused),
    };
    let is_stuck = match stuck_order(outcomes, alloc) {
        Ok(order) => order.is_some(),
        Err(refused) => return Err(refused),
    };
    let harts = settings.config.harts;
    let how = match how_told(image, harts, watch, command, outcomes, context.gate, alloc) {
        Ok(how) => how,
        Err(refused) => return Err(refused),
    };
    let line = match line_wanted(command, outcomes, list, watch, question, alloc) {
        Ok(line) => line,
        Err(refused) => return Err(refused),
    };
    let why = match why_told(
        image,
        settings,
        question,
        outcomes,
        watch,
        command,
        form,
        context.gate,
        alloc,
    ) {
        Ok(why) => why,
        Err(refused) => return Err(refused),
    };
    match put_file(
        image,
        settings,
        command,
        &why.picture,
        &order,
        &line,
        form,
        &mut context.files,
        alloc,
    ) {
        Ok(()) => {}
        Err(refused) => return Err(refused),
    }
    let status = match print_found(
        outcomes,
        list,
        watch,
        is_stuck,
        command,
        &how,
        question,
        why.text.as_slice(),
        &mut context.out,
        alloc,
    ) {
        Ok(status) => status,
        Err(refused) => return Err(refused),
    };
    if is_answer_wanted(command) && order.is_none() {
        return Err(Refused::NoAnswer);
    }
    Ok(status)
}

/// What is said of why the condition holds of none of these outcomes, where that is asked.
fn why_told<G: Gate>(
    image: &Image,
    settings: &Settings,
    question: &Option<Question<'_>>,
    outcomes: &Outcomes,
    watch: &Watch,
    command: &OutcomesCommand<'_>,
    form: &StoryForm<'_>,
    gate: &G,
    alloc: Global,
) -> Result<Told, Refused>
    ensures why { IfOk result (λ told. IsWhyOf command.now told.text.items) }
    ensures picture { IfOk result (λ told. IsDrawnFor command.now (option_map (λ it. it.items) told.picture)) }
    ensures refused { IfErr result (IsWhyRefusal command.now) }
{
    let (names, labels) = (form.names, &form.labels);
    outcome_why(
        image, settings, names, labels, question, outcomes, watch, command, gate, alloc,
    )
}

/// Puts the picture of why into the file, where there is one, else the order that is wanted.
fn put_file<S: EndFiles>(
    image: &Image,
    settings: &Settings,
    command: &OutcomesCommand<'_>,
    picture: &Option<Vec<u8>>,
    order: &Option<Vec<u8>>,
    line: &Option<Vec<u8>>,
    form: &StoryForm<'_>,
    file: &mut S,
    alloc: Global,
) -> Result<(), Refused>
    requires works { S.has_failed file.old ≡ false }
    requires finished { S.is_finished file.old ≡ true }
    requires harts { form.now.harts ≡ settings.now.config.harts }
    ensures refused { IfErr result (IsTextRefusal settings.now image.now command.now) }
    ensures put { OnOk result (HasPutWanted S.written S.has_failed file.old file.new settings.now image.now
        command.now (plan_of form.now) (option_map (λ it. it.items) picture.now)
        (option_map (λ it. it.items) order.now) (option_map (λ it. it.items) line.now)) }
    ensures unwanted { option_map (λ it. it.items) picture.now ≡ None
        → option_map (λ it. it.items) order.now ≡ None → file.new ≡ file.old }
    ensures unbroken { OnOk result (S.has_failed file.new ≡ false) }
    ensures finished { OnOk result (S.is_finished file.new ≡ true) }
{
    match picture {
        Some(picture) => match put_text(picture.as_slice(), file) {
            Ok(_status) => Ok(()),
            Err(refused) => Err(refused),
        },
        None => put_order(image, settings, command, order, line, form, file, alloc),
    }
}

/// Prints what was found, with the answer, behind it why, and flushes it: a refusal may stand behind. Answers the exit
/// status.
fn print_found<W: Write>(
    outcomes: &Outcomes,
    list: &WatchList<'_>,
    watch: &Watch,
    is_stuck: bool,
    command: &OutcomesCommand<'_>,
    how: &Option<How>,
    question: &Option<Question<'_>>,
    why: &[u8],
    out: &mut W,
    alloc: Global,
) -> Result<u8, Refused>
    requires stuck { is_stuck ≡ is_some (stuck_told outcomes.now) }
    ensures printed { OnOk result (Appends (W.contents out.old) (W.contents out.new)
        (found_text command.now list.now.items watch.now question.now how.now outcomes.now ++ why.now)) }
    ensures status { IfOk result (λ status. status ≡ status_found watch.now question.now outcomes.now) }
    ensures refused { IfErr result IsWant }
{
    let mut text = Vec::new(alloc);
    let status = match write_question(outcomes, watch, is_stuck, question, &mut text) {
        Ok(status) => status,
        Err(refused) => return Err(refused),
    };
    let columns = columns_of(list.as_slice());
    match write_outcomes(
        outcomes,
        &columns,
        is_stuck,
        command.states,
        how,
        text.as_slice(),
        out,
    ) {
        Ok(()) => {}
        Err(_) => return Err(Refused::Output),
    }
    match out.write_all(why) {
        Ok(()) => {}
        Err(_) => return Err(Refused::Output),
    }
    match out.flush() {
        Ok(()) => Ok(status),
        Err(_) => Err(Refused::Output),
    }
}

/// Writes the line of the answer, where something is asked. Answers the exit status.
fn write_question(
    outcomes: &Outcomes,
    watch: &Watch,
    is_stuck: bool,
    question: &Option<Question<'_>>,
    text: &mut Vec<u8>,
) -> Result<u8, Refused>
    requires stuck { is_stuck ≡ is_some (stuck_told outcomes.now) }
    ensures written { OnOk result
        (text.new.items ≡ text.old.items ++ question_text watch.now question.now outcomes.now) }
    ensures status { IfOk result (λ status. status ≡ status_found watch.now question.now outcomes.now) }
    ensures refused { IfErr result (λ why. why ≡ Memory) }
{
    let Some(question) = question else {
        return Ok(status_of_extent(outcomes.extent()));
    };
    let is_whole = outcomes.extent() == Extent::Whole;
    let answer = answer_of(question, outcomes, watch, is_whole, is_stuck);
    match write_answer(question, answer, outcomes, watch, text) {
        Ok(()) => Ok(status_of_answer(answer)),
        Err(_) => Err(Refused::Memory),
    }
}

/// What is refused where the search found nothing.
fn search_refusal(why: OutcomesRefused, watch: &Watch) -> Refused
    ensures { (image : ProgramImage) (harts : ℕ) → IsRefusedFor image harts watch.now why
        → IsSearchRefusal image harts watch.now result }
{
    match why {
        OutcomesRefused::Harts => Refused::Config,
        OutcomesRefused::Register(index) => match watch.registers.as_slice().get(index) {
            Some(watched) => Refused::NoHart(u32::from(watched.hart)),
            None => Refused::Memory,
        },
        OutcomesRefused::Word(index) => match watch.words.as_slice().get(index) {
            Some(bytes) => Refused::NoWord(*bytes),
            None => Refused::Memory,
        },
        OutcomesRefused::Memory => Refused::Memory,
    }
}
