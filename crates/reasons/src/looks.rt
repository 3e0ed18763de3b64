//! What a core has of an actor and of a hart.

ghost use Rattle.std.specs.Prelude.{◌≡◌, ◌<◌, true};
ghost use Rattle.core_parts.specs.Agree.{HartAgrees, HasOpenJob};
ghost use Rattle.smt_model.specs.Basics.{below, how_many};
ghost use Rattle.smt_model.specs.Fetching.{may_fetch};
ghost use Rattle.smt_model.specs.Jobs.{is_actor, job, unit_of_actor};
ghost use Rattle.smt_model.specs.Picture.{picture};
ghost use Rattle.reasons.specs.Reasons.{no_actor, no_unit};

use crate::reason::Reason;
use core_parts::{HartState, OpenJob};
use numbers::Seq;
use rv_instr::UnitKind;
use smt_core::Core;
use smt_model::Status;

/// That there is no such actor, where there is none.
pub(crate) fn no_actor(core: &Core, actor: u8) -> Option<Reason>
    ensures { result ≡ no_actor core.now.setup actor }
{
    if has_actor(core, actor) {
        return None;
    }
    Some(Reason::NoActor { actor })
}

fn has_actor(core: &Core, actor: u8) -> bool
    ensures { result ≡ is_actor core.now.setup actor }
{
    usize::from(actor) < core.config().roles.len()
}

/// That the actor is no unit, where it is none.
pub(crate) fn no_unit(core: &Core, actor: u8) -> Option<Reason>
    ensures { result ≡ no_unit core.now.setup actor }
{
    match unit_of(core, actor) {
        Some(_) => None,
        None => Some(Reason::NoUnit { actor }),
    }
}

/// The kind of unit that an actor is, where it is one.
pub(crate) fn unit_of(core: &Core, actor: u8) -> Option<UnitKind>
    ensures { result ≡ unit_of_actor core.now.setup actor }
{
    core.config().roles.get(usize::from(actor))?.unit()
}

/// The instruction of the job that an actor has.
pub(crate) fn job_of(core: &Core, actor: u8) -> Option<Seq>
    requires { is_actor core.now.setup actor ≡ true }
    ensures { result ≡ job core.now.past actor }
{
    match open_job(core, actor) {
        Some(job) => Some(job.seq),
        None => None,
    }
}

fn open_job(core: &Core, actor: u8) -> Option<OpenJob>
    requires { is_actor core.now.setup actor ≡ true }
    ensures { HasOpenJob (picture core.now.setup core.now.past) actor result }
{
    // A core has no more than `MOST_ACTORS` actors: that is a clause of this call.
    let _events = core.history().len();
    core.parts().0.jobs[usize::from(actor)]
}

/// What hart `hart` has of its own.
pub(crate) fn hart_of(core: &Core, hart: u8) -> &HartState
    requires { hart < core.now.setup.harts }
    ensures { HartAgrees (picture core.now.setup core.now.past) hart result.now }
{
    &core.parts().0.harts[usize::from(hart)]
}

/// How many harts may be fetched: they are going, and have room in the decode latch.
pub(crate) fn fetchable(core: &Core) -> u8
    ensures { result ≡ how_many (may_fetch core.now.past) (below core.now.setup.harts) }
{
    let mut fetchable = 0;
    for hart in 0..core.harts() {
        if may_fetch(core, hart) {
            fetchable += 1;
        }
    }
    fetchable
}

fn may_fetch(core: &Core, hart: u8) -> bool
    requires { hart < core.now.setup.harts }
    ensures { result ≡ may_fetch core.now.past hart }
{
    let state = hart_of(core, hart);
    matches!(state.status, Status::Going) && !state.decode_latch.is_full()
}
