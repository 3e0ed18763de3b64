//! The history checked, and what the rules leave open in it.

ghost use Rattle.std.specs.Prelude.{◌≡◌, ◌≤◌, [], true, length, reverse, IfOk, IfErr, OnOk};
ghost use Rattle.std.specs.Prelude.{IfSome, IfNone};
ghost use Rattle.numbers.specs.Sizes.{most_events};
ghost use Rattle.smt_model.specs.{Rules.is_legal, Setup.is_accepted};
ghost use Rattle.core_state.specs.Setup.{setup_of};
ghost use Rattle.history_scripts.specs.Again.{IsScriptOf};
ghost use Rattle.history_scripts.specs.Deciding.{AreGuessedBy};
ghost use Rattle.history_scripts.specs.Refusals.{IsHistory, IsScriptRefusedFor, IsHistoryRefusal};
ghost use Rattle.history_scripts.specs.Refusals.{IsOther};

use crate::deciding::{Decided, judge};
use crate::harts::harts_in;
use crate::laws::scripts_make_again;
use crate::refused::ScriptRefused;
use crate::script::HistoryScript;
use elf_image::Image;
use events::Event;
use history_check::{CheckRefused, check};
use scripts::laws::lines_are_scripts;
use smt_core::{Config, Core, CoreRefused, Predict};
use std::alloc::Global;

/// The script of a list of events, the oldest first, for the core of an image and a configuration: a
/// line for each, which asks for it.
///
/// Refused are, in this order, sizes that aren't a core's and more events than a core may have, the
/// first event that isn't allowed, and the first that is decided otherwise than the predictor and the
/// core decide: a fetch that predicts something else, or a rename that doesn't take the least free
/// register.
pub fn make_script<'a, P: Predict>(
    image: &Image,
    config: &Config,
    events: &'a [Event],
    predict: &mut P,
    alloc: Global,
) -> Result<HistoryScript<'a>, ScriptRefused>
    ensures made { IfOk result
        (IsScriptOf P.predicts (setup_of image.now config.now) (reverse events.now)) }
    ensures refused { IfErr result
        (IsScriptRefusedFor P.predicts (setup_of image.now config.now) events.now) }
{
    if let Err(refused) = check_all(image, config, events, alloc) {
        return Err(refused);
    }
    if let Err(refused) = judge_all(image, config, events, predict, alloc) {
        return Err(refused);
    }
    let Ok(harts) = harts_in(events, alloc) else {
        return Err(ScriptRefused::Memory);
    };
    lines_are_scripts();
    scripts_make_again::<P>();
    Ok(HistoryScript { events, harts })
}

/// Whether the events are a history.
fn check_all(
    image: &Image,
    config: &Config,
    events: &[Event],
    alloc: Global,
) -> Result<(), ScriptRefused>
    ensures history { OnOk result (IsHistory (setup_of image.now config.now) events.now) }
    ensures refused { IfErr result
        (IsHistoryRefusal (setup_of image.now config.now) events.now) }
{
    match check(image, config.copied(), events, alloc) {
        Ok(_) => Ok(()),
        Err(CheckRefused::BadConfig) => Err(ScriptRefused::Config),
        Err(CheckRefused::Memory) => Err(ScriptRefused::Memory),
        Err(CheckRefused::Event { index, rule }) => Err(ScriptRefused::Event { index, rule }),
    }
}

/// Whether each event of a history is decided as the predictor and the core decide.
fn judge_all<P: Predict>(
    image: &Image,
    config: &Config,
    events: &[Event],
    predict: &mut P,
    alloc: Global,
) -> Result<(), ScriptRefused>
    requires history { IsHistory (setup_of image.now config.now) events.now }
    requires few { length events.now ≤ most_events }
    ensures guessed { OnOk result
        (AreGuessedBy P.predicts (setup_of image.now config.now) (reverse events.now)) }
    ensures refused { IfErr result
        (IsScriptRefusedFor P.predicts (setup_of image.now config.now) events.now) }
{
    let mut core = match Core::new(image, config.copied(), events.len() as u32, alloc) {
        Ok(core) => core,
        Err(CoreRefused::Config) => return Err(ScriptRefused::Config),
        Err(CoreRefused::Memory) => return Err(ScriptRefused::Memory),
    };
    match first_other(&mut core, events, predict) {
        Some(refused) => Err(refused),
        None => Ok(()),
    }
}

/// The first event of a history that is decided otherwise than the predictor and the core decide.
/// The core is at its beginning, and follows them up to there.
fn first_other<P: Predict>(
    core: &mut Core,
    events: &[Event],
    predict: &mut P,
) -> Option<ScriptRefused>
    requires new { core.old.past ≡ [] }
    requires room { length events.now ≤ core.old.limit }
    requires few { length events.now ≤ most_events }
    requires legal { is_legal core.old.setup (reverse events.now) }
    ensures other { IfSome result (IsOther P.predicts core.old.setup events.now) }
    ensures none { IfNone result
        (AreGuessedBy P.predicts core.old.setup (reverse events.now)) }
{
    for (index, event) in events.iter().enumerate() {
        match judge(core, event, predict) {
            Decided::Alike => {}
            Decided::Predicted => return Some(ScriptRefused::Prediction(index as u32)),
            Decided::Taken => return Some(ScriptRefused::Register(index as u32)),
        }
        let _followed = core.follow(event);
    }
    None
}
