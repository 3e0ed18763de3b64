//! Why the condition of a litmus test holds of no state, or how it comes to hold of one, as the command `litmus` tells
//! and draws it.

ghost use Rattle.std.specs.Prelude.{◌≡◌, IfErr, IfOk, OnOk, is_some, true, false};
ghost use Rattle.litmus_tests.specs.WellFormed.{IsWellFormed};
ghost use Rattle.command_parts.specs.declared.refused.Refused.TheVariants.{Memory, Output};
ghost use Rattle.plain_commands.specs.Litmus.{IsPictureRefusal, IsStatesRefusal, IsWhy};

use crate::searching::Tried;
use crate::told_states::{draw_shown, tell_shown};
use actors::Gate;
use command_parts::{Refused, put_text};
use elf_image::Image;
use explained_cycles::{draw_explanation, write_explanation};
use litmus_cycles::{Explanation, Shown, explain_forbidden};
use litmus_tests::LitmusTest;
use outcomes::Outcomes;
use sim_inputs::{LitmusCommand, Settings};
use std::alloc::{AllocError, Global};
use stress_runs::EndFiles;

/// What is said of why the condition holds of no state, or how it comes to hold of one, where that is wanted; and
/// where a picture is, that drawn into the file. The gate is shown how many choices are tried.
pub(crate) fn told_why<G: Gate, S: EndFiles>(
    test: &LitmusTest,
    image: &Image,
    settings: &Settings,
    outcomes: &Outcomes,
    can_come: bool,
    command: &LitmusCommand<'_>,
    gate: &G,
    file: &mut S,
    alloc: Global,
) -> Result<Vec<u8>, Refused>
    requires sound { IsWellFormed test.now }
    requires works { S.has_failed file.old ≡ false }
    requires finished { S.is_finished file.old ≡ true }
    ensures why { IfOk result (λ why. IsWhy command.now.why can_come settings.now image.now test.now command.now
        outcomes.now.listed why.items) }
    ensures refused { IfErr result (IsStatesRefusal command.now) }
    ensures unwanted { is_some command.now.svg ≡ false → file.new ≡ file.old }
    ensures unbroken { OnOk result (S.has_failed file.new ≡ false) }
    ensures finished { OnOk result (S.is_finished file.new ≡ true) }
{
    let explanation = explanation_of(test, can_come, command, gate, alloc)?;
    let why = why_text(
        test,
        image,
        settings,
        outcomes,
        can_come,
        &explanation,
        command,
        alloc,
    )?;
    let picture = picture_of(
        test,
        image,
        settings,
        outcomes,
        can_come,
        &explanation,
        command,
        alloc,
    )?;
    put_picture(&picture, file)?;
    Ok(why)
}

/// The explanation, where one is wanted and the condition holds of no state.
fn explanation_of<G: Gate>(
    test: &LitmusTest,
    can_come: bool,
    command: &LitmusCommand<'_>,
    gate: &G,
    alloc: Global,
) -> Result<Option<Explanation>, Refused>
    requires { IsWellFormed test.now }
    ensures { IfErr result (λ reason. reason ≡ Memory) }
{
    if can_come || !(command.why || command.svg.is_some()) {
        return Ok(None);
    }
    gate.begin_search();
    let explained = explain_forbidden(test, &Tried { gate }, alloc);
    gate.end();
    match explained {
        Ok(explanation) => Ok(Some(explanation)),
        Err(AllocError) => Err(Refused::Memory),
    }
}

/// The lines of an explanation, or how the condition comes to hold of a state; nothing where neither is wanted.
fn why_text(
    test: &LitmusTest,
    image: &Image,
    settings: &Settings,
    outcomes: &Outcomes,
    can_come: bool,
    explanation: &Option<Explanation>,
    command: &LitmusCommand<'_>,
    alloc: Global,
) -> Result<Vec<u8>, Refused>
    requires { IsWellFormed test.now }
    ensures why { IfOk result (λ why. IsWhy command.now.why can_come settings.now image.now test.now command.now
        outcomes.now.listed why.items) }
    ensures refused { IfErr result (λ reason. reason ≡ Memory) }
{
    if !command.why {
        return Ok(Vec::new(alloc));
    }
    if can_come {
        return match tell_shown(test, image, settings, outcomes, command, alloc) {
            Ok(text) => Ok(text),
            Err(refused) => Err(refused),
        };
    }
    explanation_text(test, explanation, alloc)
}

/// The lines of an explanation.
fn explanation_text(
    test: &LitmusTest,
    explanation: &Option<Explanation>,
    alloc: Global,
) -> Result<Vec<u8>, Refused>
    ensures { IfErr result (λ reason. reason ≡ Memory) }
{
    let mut text = Vec::new(alloc);
    let Some(explanation) = explanation else {
        return Ok(text);
    };
    match write_explanation(test, explanation, &mut text) {
        Ok(()) => Ok(text),
        Err(_) => Err(Refused::Memory),
    }
}

/// The picture of an explanation, or of how the condition comes to hold of a state, where one is wanted; refused where
/// there is nothing to draw.
fn picture_of(
    test: &LitmusTest,
    image: &Image,
    settings: &Settings,
    outcomes: &Outcomes,
    can_come: bool,
    explanation: &Option<Explanation>,
    command: &LitmusCommand<'_>,
    alloc: Global,
) -> Result<Option<Vec<u8>>, Refused>
    requires { IsWellFormed test.now }
    ensures none { is_some command.now.svg ≡ false → IfOk result (λ picture. is_some picture ≡ false) }
    ensures refused { IfErr result (IsStatesRefusal command.now) }
{
    if command.svg.is_none() {
        return Ok(None);
    }
    let drawn = if can_come {
        draw_shown(test, image, settings, outcomes, alloc)
    } else {
        drawn(test, explanation, alloc)
    };
    match drawn {
        Ok(picture) => Ok(Some(picture)),
        Err(refused) => Err(refused),
    }
}

/// Puts a picture into the file, where there is one.
fn put_picture<S: EndFiles>(picture: &Option<Vec<u8>>, file: &mut S) -> Result<(), Refused>
    requires works { S.has_failed file.old ≡ false }
    requires finished { S.is_finished file.old ≡ true }
    ensures refused { IfErr result (λ reason. reason ≡ Output) }
    ensures unwanted { is_some picture.now ≡ false → file.new ≡ file.old }
    ensures unbroken { OnOk result (S.has_failed file.new ≡ false) }
    ensures finished { OnOk result (S.is_finished file.new ≡ true) }
{
    let Some(picture) = picture else {
        return Ok(());
    };
    put_text(picture.as_slice(), file)?;
    Ok(())
}

/// The picture of an explanation; refused where there is nothing to draw.
fn drawn(
    test: &LitmusTest,
    explanation: &Option<Explanation>,
    alloc: Global,
) -> Result<Vec<u8>, Refused>
    ensures { IfErr result IsPictureRefusal }
{
    let Some(explanation) = explanation else {
        return Err(Refused::NothingToDraw);
    };
    if matches!(explanation.shown, Shown::Nothing) {
        return Err(Refused::NothingToDraw);
    }
    let mut picture = Vec::new(alloc);
    match draw_explanation(test, test, explanation, &mut picture, alloc) {
        Ok(()) => Ok(picture),
        Err(_) => Err(Refused::Memory),
    }
}
