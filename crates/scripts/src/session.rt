//! The asks of a script's words, one after another.

ghost use Rattle.std.specs.Prelude.{◌≡◌, ◌+◌, ◌≤◌, ◌<◌, Some, All, OnOk, IfOk};
ghost use Rattle.std.specs.Io.KnownBytes.{append_known};
ghost use Rattle.numbers.specs.Sizes.{most_actors};
ghost use Rattle.arrayvec.specs.ArrayString.{array_string_len};
ghost use Rattle.core_state.specs.Setup.{setup_of};
ghost use Rattle.scripts.specs.Script.{IsInRange};
ghost use Rattle.scripts.specs.Run.{HasRunScript};
ghost use Rattle.scripts.specs.Session.{PrintsGuessed, HasReplied};
ghost use Rattle.scripts.specs.Session.{IsUnit, Acts, AllAct, repeated, actions_of};

mod asked_core;
mod asks;
mod hands;
mod lines;
mod replies;

use crate::actions::{Action, ScriptWord};
use asked_core::AskedCore;
use asks::{decode, fetch, hand_back, issue, rename, retire};
use core_lock::Origin;
use elf_image::Image;
use hands::Hands;
pub use lines::Unwritten;
use lines::{Lines, make_room, write_lines};
use numbers::sizes::MOST_ACTORS;
use smt_core::{Config, Core, Finished, Predict};
use std::io::Write;
use std::marker::Brand;
use std::sync::ledger::Blank;

/// A core that a script asks, and what its actors hold.
struct Session<L: Origin> {
    core: AskedCore<L>,
    hands: Hands,
}

/// Makes the asks of a core whose actors hold nothing, one for each action of the words, in order,
/// and writes a line for each: what the core replies. At the end what actors hold is given up, and
/// the core is finished, whose `own` says whether it is of this image and this configuration.
/// Its `idle` says how many asks of each actor were answered idle. `Unwritten` is answered where `out`
/// failed; then the core is lost.
pub fn run_script<P: Predict, W: Write>(
    core: Core,
    words: &[ScriptWord],
    image: &Image,
    config: &Config,
    predict: &mut P,
    out: &mut W,
) -> Result<Finished, Unwritten>
    requires in_range { All (λ word. IsInRange word.action) words.now }
    ensures { IfOk result (HasRunScript P.predicts predict.old predict.new words.now
        (setup_of image.now config.now) core (W.contents out.old) (W.contents out.new)) }
{
    run_dealt::<Brand, P, W>(
        core,
        Blank::new(MOST_ACTORS as u64),
        words,
        image,
        config,
        predict,
        out,
    )
}

/// Makes the asks with the passes of this blank ledger.
fn run_dealt<L: Origin, P: Predict, W: Write>(
    core: Core,
    blank: Blank,
    words: &[ScriptWord],
    image: &Image,
    config: &Config,
    predict: &mut P,
    out: &mut W,
) -> Result<Finished, Unwritten>
    requires name { blank.name ≡ L.name }
    requires parts { (blank.parts ≡ L.parts) × (L.parts ≡ most_actors) }
    requires origin { (core.setup ≡ L.setup) × (core.limit ≡ L.limit) }
    requires in_range { All (λ word. IsInRange word.action) words.now }
    ensures { IfOk result (HasRunScript P.predicts predict.old predict.new words.now
        (setup_of image.now config.now) core (W.contents out.old) (W.contents out.new)) }
{
    let mut session = Session::<L> {
        core: AskedCore::new(core, blank),
        hands: Hands::empty(),
    };
    let written = make_asks(&mut session, words, predict, out);
    let Session { core, hands } = session;
    hands.abandon_all();
    written.and(Ok(core.finish(image, config)))
}

// Makes the asks of all words, in order, and writes a line for each.
fn make_asks<L: Origin, P: Predict, W: Write>(
    session: &mut Session<L>,
    words: &[ScriptWord],
    predict: &mut P,
    out: &mut W,
) -> Result<(), Unwritten>
    requires in_range { All (λ word. IsInRange word.action) words.now }
    ensures { OnOk result (PrintsGuessed P.predicts session.old.core.core session.new.core.core
        predict.old predict.new (W.contents out.old) (W.contents out.new)
        (AllAct HasReplied (actions_of words.now) session.old.hands.held session.new.hands.held
        session.old.core session.new.core)) }
{
    let mut lines = Lines::new();
    for word in words {
        repeat_action(session, *word, predict, &mut lines, out)?;
    }
    write_lines(&mut lines, out)
}

/// Makes the asks of one word as often as it says.
fn repeat_action<L: Origin, P: Predict, W: Write>(
    session: &mut Session<L>,
    word: ScriptWord,
    predict: &mut P,
    lines: &mut Lines,
    out: &mut W,
) -> Result<(), Unwritten>
    requires in_range { IsInRange word.action }
    ensures { OnOk result (PrintsGuessed P.predicts session.old.core.core session.new.core.core
        predict.old predict.new (append_known (W.contents out.old) lines.old.bytes)
        (append_known (W.contents out.new) lines.new.bytes)
        (AllAct HasReplied (repeated word) session.old.hands.held session.new.hands.held
        session.old.core session.new.core)) }
{
    for turn in 0..word.repeat {
        make_room(lines, out)?;
        act(session, word.action, predict, lines);
    }
    Ok(())
}

// Makes the asks of one action, and appends a line for each.
fn act<L: Origin, P: Predict>(
    session: &mut Session<L>,
    action: Action,
    predict: &mut P,
    lines: &mut Lines,
)
    requires in_range { IsInRange action }
    requires room { array_string_len lines.old + 140 ≤ 3072 }
    ensures { PrintsGuessed P.predicts session.old.core.core session.new.core.core predict.old predict.new
        (Some lines.old.bytes) (Some lines.new.bytes)
        (Acts HasReplied action session.old.hands.held session.new.hands.held
        session.old.core session.new.core) }
{
    let Session { core, hands } = session;
    match action {
        Action::Fetch { actor } => fetch(core, actor, predict, lines),
        Action::Decode { actor, hart } => decode(core, actor, hart, predict, lines),
        Action::Rename { actor, hart } => rename(core, actor, hart, predict, lines),
        Action::Retire { actor, hart } => retire(core, actor, hart, predict, lines),
        Action::Issue { actor } => {
            issue(core, hands, actor, predict, lines);
        }
        Action::Complete { actor } => hand_back(core, hands, actor, predict, lines),
        Action::Unit { actor } => issue_and_hand_back(core, hands, actor, predict, lines),
    }
}

/// Issues and, where a job came, hands it back.
fn issue_and_hand_back<L: Origin, P: Predict>(
    core: &mut AskedCore<L>,
    hands: &mut Hands,
    actor: u8,
    predict: &mut P,
    lines: &mut Lines,
)
    requires actor { actor < most_actors }
    requires room { array_string_len lines.old + 140 ≤ 3072 }
    ensures { PrintsGuessed P.predicts core.old.core core.new.core predict.old predict.new
        (Some lines.old.bytes) (Some lines.new.bytes)
        (IsUnit HasReplied actor hands.old.held hands.new.held core.old core.new) }
{
    if issue(core, hands, actor, predict, lines) {
        hand_back(core, hands, actor, predict, lines);
    }
}
