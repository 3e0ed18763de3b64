//! The outcomes of some states, each once.

ghost use Rattle.std.specs.Prelude.{◌≡◌, ◌≤◌, true, false, OnOk, length};
ghost use Rattle.outcomes.specs.Lists.{HasEnding, IsPut, AreOnce};

use crate::ordering::comes_before;
use std::alloc::AllocError;
use watched_outcomes::Outcome;

/// An outcome, and the place of the first state that was found to have it.
#[derive(Drop)]
pub(crate) struct Listed {
    pub(crate) outcome: Outcome,
    pub(crate) place: u32,
}

/// Puts the outcome of the state at a place where it belongs, unless it is listed. Errors: want of memory.
pub(crate) fn put(listed: &mut Vec<Listed>, outcome: Outcome, place: u32) -> Result<(), AllocError>
    ensures put { OnOk result (IsPut listed.old.items (record { outcome = outcome; place = place }) listed.new.items) }
    ensures once { OnOk result (AreOnce listed.old.items → AreOnce listed.new.items) }
{
    if !is_listed(listed.as_slice(), &outcome) {
        let index = index_for(listed.as_slice(), &outcome);
        listed.insert(index, Listed { outcome, place })?;
    }
    Ok(())
}

/// Whether a list has an outcome.
fn is_listed(listed: &[Listed], outcome: &Outcome) -> bool
    ensures there { result ≡ true → HasEnding listed.now outcome.now }
    ensures absent { result ≡ false → HasEnding listed.now outcome.now → ⊥ }
{
    for index in 0..listed.len() {
        if listed[index].outcome.is_same(outcome) {
            return true;
        }
    }
    false
}

/// Where an outcome belongs in a list that doesn't have it.
fn index_for(listed: &[Listed], outcome: &Outcome) -> usize
    ensures within { result ≤ length listed.now }
{
    for index in 0..listed.len() {
        if comes_before(outcome, &listed[index].outcome) {
            return index;
        }
    }
    listed.len()
}
