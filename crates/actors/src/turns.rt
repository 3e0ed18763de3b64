ghost use Rattle.std.specs.Prelude.{◌≡◌, ◌≤◌, true, false};
ghost use Rattle.core_lock.specs.Asks.{asked_of, is_issue, is_reply};
ghost use Rattle.core_lock.specs.declared.ask.Ask.TheVariants as ask;
ghost use Rattle.actors.specs.Turns.{IsAnswered, Counts, Asks, AsksBoth, Issues, IsUnitTurn, job_in};

use crate::gate::{Gate, Point};
use crate::turn_outcome::TurnOutcome;
use core_lock::{Ask, BoardView, LockedCore, Origin, Pass, Reason, Said};
use smt_core::{Job, Predict, work};
use std::sync::Wait;

/// A front end's turn: a decode and a rename for one hart.
pub(crate) fn decode_and_rename<L: Origin, P: Predict, R: Wait>(
    rt: &R,
    core: &LockedCore<L>,
    pass: &mut Pass<L>,
    hart: u8,
    predict: &mut P,
) -> TurnOutcome
    ensures actor { pass.new.actor ≡ pass.old.actor }
    ensures rises { pass.old.count ≤ pass.new.count }
    ensures asked { AsksBoth L.setup L.limit pass.old.actor (ask.Decode hart) (ask.Rename hart)
        (record { count = pass.old.count; last = pass.old.last }) result
        (record { count = pass.new.count; last = pass.new.last }) }
{
    let decoded = make(rt, core, pass, Ask::Decode(hart), predict);
    let renamed = make(rt, core, pass, Ask::Rename(hart), predict);
    decoded.then(renamed)
}

/// A unit's turn: an issue and, where a job came, its work and its completion. The gate is asked
/// with the job in hand; a job is completed whatever it says.
pub(crate) fn execute<L: Origin, G: Gate, P: Predict, R: Wait>(
    rt: &R,
    core: &LockedCore<L>,
    pass: &mut Pass<L>,
    gate: &G,
    seen: &BoardView,
    predict: &mut P,
) -> TurnOutcome
    ensures actor { pass.new.actor ≡ pass.old.actor }
    ensures rises { pass.old.count ≤ pass.new.count }
    ensures asked { IsUnitTurn L.setup L.limit pass.old.actor
        (record { count = pass.old.count; last = pass.old.last }) result
        (record { count = pass.new.count; last = pass.new.last }) }
{
    let (job, issued) = issue(rt, core, pass, predict);
    let job = match job {
        Some(job) => job,
        None => return issued,
    };
    let goes_on = gate.at(pass.actor(), Point::Job, seen);
    let completed = make(rt, core, pass, Ask::Complete(work(job)), predict);
    if goes_on {
        issued.then(completed)
    } else {
        TurnOutcome::Over(Reason::Asked)
    }
}

/// Asks for a job: the one that came, if one did, and what the ask comes to.
fn issue<L: Origin, P: Predict, R: Wait>(
    rt: &R,
    core: &LockedCore<L>,
    pass: &mut Pass<L>,
    predict: &mut P,
) -> (Option<Job>, TurnOutcome)
    ensures actor { pass.new.actor ≡ pass.old.actor }
    ensures rises { pass.old.count ≤ pass.new.count }
    ensures asked { Issues L.setup L.limit pass.old.actor result.0
        (record { count = pass.old.count; last = pass.old.last }) result.1
        (record { count = pass.new.count; last = pass.new.last }) }
{
    let (said, going) = ask(rt, core, pass, Ask::Issue, predict);
    let outcome = TurnOutcome::of(&said, going);
    (job_of(said), outcome)
}

/// The job that came, if one did.
fn job_of(said: Said) -> Option<Job>
    ensures { result ≡ job_in said }
{
    match said {
        Said::Job(job, _) => Some(job),
        Said::Event(_) | Said::Idle | Said::Stranger | Said::Full => None,
    }
}

/// Makes an ask to which no job comes.
pub(crate) fn make<L: Origin, P: Predict, R: Wait>(
    rt: &R,
    core: &LockedCore<L>,
    pass: &mut Pass<L>,
    asked: Ask,
    predict: &mut P,
) -> TurnOutcome
    requires { is_issue (asked_of asked) ≡ false }
    ensures actor { pass.new.actor ≡ pass.old.actor }
    ensures rises { pass.old.count ≤ pass.new.count }
    ensures asked { Asks L.setup L.limit pass.old.actor asked
        (record { count = pass.old.count; last = pass.old.last }) result
        (record { count = pass.new.count; last = pass.new.last }) }
{
    let (said, going) = ask(rt, core, pass, asked, predict);
    let outcome = TurnOutcome::of(&said, going);
    match said {
        Said::Job(..) => unreachable!(),
        Said::Event(_) | Said::Idle | Said::Stranger | Said::Full => outcome,
    }
}

/// Makes an ask: what was said, and how many harts were going then.
fn ask<L: Origin, P: Predict, R: Wait>(
    rt: &R,
    core: &LockedCore<L>,
    pass: &mut Pass<L>,
    ask: Ask,
    predict: &mut P,
) -> (Said, u8)
    ensures actor { pass.new.actor ≡ pass.old.actor }
    ensures rises { pass.old.count ≤ pass.new.count }
    ensures answered { IsAnswered L.setup L.limit pass.old.actor ask result.0 result.1 }
    ensures counted { Counts result.0
        (record { count = pass.old.count; last = pass.old.last })
        (record { count = pass.new.count; last = pass.new.last }) }
    ensures suits { is_reply pass.old.actor (asked_of ask) result.0 ≡ true }
{
    let reply = core.step(rt, pass, ask, predict);
    let going = reply.going();
    (reply.said(), going)
}
