//! Why a step that is asked of a core can't be made, ask by ask.

ghost use Rattle.smt_model.specs.Asks.{AskFetch, AskDecode, AskRename, AskIssue, AskComplete};
ghost use Rattle.smt_model.specs.Asks.{AskRetire};
ghost use Rattle.reasons.specs.Exact.{IsReason};

use crate::fetching::no_fetch;
use crate::harts::{no_decode, no_rename, no_retirement};
use crate::reason::Reason;
use crate::units::{no_completion, no_issue};
use smt_core::Core;

/// Why actor `actor` can't fetch; none where it can.
pub fn fetch_reason(core: &Core, actor: u8) -> Option<Reason>
    ensures { IsReason core.now (AskFetch actor) result }
{
    let _history = core.history().len();
    if core.is_full() {
        return Some(Reason::Full);
    }
    no_fetch(core, actor)
}

/// Why actor `actor` can't decode hart `hart`'s oldest fetched instruction; none where it can.
pub fn decode_reason(core: &Core, actor: u8, hart: u8) -> Option<Reason>
    ensures { IsReason core.now (AskDecode actor hart) result }
{
    let _history = core.history().len();
    if core.is_full() {
        return Some(Reason::Full);
    }
    no_decode(core, actor, hart)
}

/// Why actor `actor` can't rename hart `hart`'s oldest decoded instruction; none where it can.
pub fn rename_reason(core: &Core, actor: u8, hart: u8) -> Option<Reason>
    ensures { IsReason core.now (AskRename actor hart) result }
{
    let _history = core.history().len();
    if core.is_full() {
        return Some(Reason::Full);
    }
    no_rename(core, actor, hart)
}

/// Why actor `actor` can't issue; none where it can.
pub fn issue_reason(core: &Core, actor: u8) -> Option<Reason>
    ensures { IsReason core.now (AskIssue actor) result }
{
    let _history = core.history().len();
    if core.is_full() {
        return Some(Reason::Full);
    }
    no_issue(core, actor)
}

/// Why actor `actor` can't hand back a job; none where it can hand back the one that it has.
pub fn complete_reason(core: &Core, actor: u8) -> Option<Reason>
    ensures { IsReason core.now (AskComplete actor) result }
{
    let _history = core.history().len();
    if core.is_full() {
        return Some(Reason::Full);
    }
    no_completion(core, actor)
}

/// Why actor `actor` can't retire hart `hart`'s oldest instruction in flight; none where it can.
pub fn retire_reason(core: &Core, actor: u8, hart: u8) -> Option<Reason>
    ensures { IsReason core.now (AskRetire actor hart) result }
{
    let _history = core.history().len();
    if core.is_full() {
        return Some(Reason::Full);
    }
    no_retirement(core, actor, hart)
}
