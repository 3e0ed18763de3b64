//! One ask each: what the core is asked, and the line of its reply.
//!
//! Each kind of ask has a function of its own that isn't put into its caller, so that none pays for
//! the locals of the others.

ghost use Rattle.std.specs.Prelude.{◌≡◌, ◌+◌, ◌≤◌, ◌<◌, Some, is_some};
ghost use Rattle.numbers.specs.Sizes.{most_actors};
ghost use Rattle.arrayvec.specs.ArrayString.{array_string_len};
ghost use Rattle.core_lock.specs.declared.ask.Ask.TheVariants as ask;
ghost use Rattle.core_lock.specs.declared.ask.Said.{Said};
ghost use Rattle.scripts.specs.Session.{PrintsGuessed, HasAsked, HasReplied, IsIssue, HandsBack, job_in};

use crate::session::asked_core::AskedCore;
use crate::session::hands::Hands;
use crate::session::lines::Lines;
use crate::session::replies::push_reply;
use core_lock::{Ask, Origin};
use smt_core::{Predict, work};

/// Fetches, and appends the line of the reply.
#[inline(never)]
pub fn fetch<L: Origin, P: Predict>(
    core: &mut AskedCore<L>,
    actor: u8,
    predict: &mut P,
    lines: &mut Lines,
)
    requires actor { actor < most_actors }
    requires room { array_string_len lines.old + 70 ≤ 3072 }
    ensures { PrintsGuessed P.predicts core.old.core core.new.core predict.old predict.new
        (Some lines.old.bytes) (Some lines.new.bytes)
        (HasAsked HasReplied actor ask.Fetch core.old core.new) }
{
    ask_plainly(core, actor, Ask::Fetch, predict, lines);
}

/// Decodes, and appends the line of the reply.
#[inline(never)]
pub fn decode<L: Origin, P: Predict>(
    core: &mut AskedCore<L>,
    actor: u8,
    hart: u8,
    predict: &mut P,
    lines: &mut Lines,
)
    requires actor { actor < most_actors }
    requires room { array_string_len lines.old + 70 ≤ 3072 }
    ensures { PrintsGuessed P.predicts core.old.core core.new.core predict.old predict.new
        (Some lines.old.bytes) (Some lines.new.bytes)
        (HasAsked HasReplied actor (ask.Decode hart) core.old core.new) }
{
    ask_plainly(core, actor, Ask::Decode(hart), predict, lines);
}

/// Renames, and appends the line of the reply.
#[inline(never)]
pub fn rename<L: Origin, P: Predict>(
    core: &mut AskedCore<L>,
    actor: u8,
    hart: u8,
    predict: &mut P,
    lines: &mut Lines,
)
    requires actor { actor < most_actors }
    requires room { array_string_len lines.old + 70 ≤ 3072 }
    ensures { PrintsGuessed P.predicts core.old.core core.new.core predict.old predict.new
        (Some lines.old.bytes) (Some lines.new.bytes)
        (HasAsked HasReplied actor (ask.Rename hart) core.old core.new) }
{
    ask_plainly(core, actor, Ask::Rename(hart), predict, lines);
}

/// Retires, and appends the line of the reply.
#[inline(never)]
pub fn retire<L: Origin, P: Predict>(
    core: &mut AskedCore<L>,
    actor: u8,
    hart: u8,
    predict: &mut P,
    lines: &mut Lines,
)
    requires actor { actor < most_actors }
    requires room { array_string_len lines.old + 70 ≤ 3072 }
    ensures { PrintsGuessed P.predicts core.old.core core.new.core predict.old predict.new
        (Some lines.old.bytes) (Some lines.new.bytes)
        (HasAsked HasReplied actor (ask.Retire hart) core.old core.new) }
{
    ask_plainly(core, actor, Ask::Retire(hart), predict, lines);
}

/// Issues. A job that comes is worked at once, and what was done is held. Tells whether one came.
#[inline(never)]
pub fn issue<L: Origin, P: Predict>(
    core: &mut AskedCore<L>,
    hands: &mut Hands,
    actor: u8,
    predict: &mut P,
    lines: &mut Lines,
) -> bool
    requires actor { actor < most_actors }
    requires room { array_string_len lines.old + 70 ≤ 3072 }
    ensures issued { PrintsGuessed P.predicts core.old.core core.new.core predict.old predict.new
        (Some lines.old.bytes) (Some lines.new.bytes)
        (λ text. (said : Said) × (result ≡ is_some (job_in said))
        × IsIssue HasReplied actor said hands.old.held hands.new.held core.old core.new text) }
    ensures length { array_string_len lines.new ≤ array_string_len lines.old + 70 }
{
    let said = core.ask(actor, Ask::Issue, predict);
    match push_reply(lines, said) {
        Some(job) => {
            hands.put(actor, work(job));
            true
        }
        None => false,
    }
}

/// Hands back what the actor holds; where it holds nothing, no ask is made.
#[inline(never)]
pub fn hand_back<L: Origin, P: Predict>(
    core: &mut AskedCore<L>,
    hands: &mut Hands,
    actor: u8,
    predict: &mut P,
    lines: &mut Lines,
)
    requires actor { actor < most_actors }
    requires room { array_string_len lines.old + 70 ≤ 3072 }
    ensures { PrintsGuessed P.predicts core.old.core core.new.core predict.old predict.new
        (Some lines.old.bytes) (Some lines.new.bytes)
        (HandsBack HasReplied actor hands.old.held hands.new.held core.old core.new) }
{
    let Some(done) = hands.take(actor) else {
        lines.push_str("none\n");
        return;
    };
    ask_plainly(core, actor, Ask::Complete(done), predict, lines);
}

/// Makes an ask, and appends the line of the reply. No job comes of the asks that are made here;
/// one that came would be given up.
#[inline(always)]
fn ask_plainly<L: Origin, P: Predict>(
    core: &mut AskedCore<L>,
    actor: u8,
    ask: Ask,
    predict: &mut P,
    lines: &mut Lines,
)
    requires actor { actor < most_actors }
    requires room { array_string_len lines.old + 70 ≤ 3072 }
    ensures { PrintsGuessed P.predicts core.old.core core.new.core predict.old predict.new
        (Some lines.old.bytes) (Some lines.new.bytes) (HasAsked HasReplied actor ask core.old core.new) }
{
    let said = core.ask(actor, ask, predict);
    if let Some(job) = push_reply(lines, said) {
        job.abandon();
    }
}
