ghost use Rattle.std.specs.Prelude.{◌≡◌, ◌↔◌, ℕ, Some, IsTrue, slice_get};
ghost use Rattle.core_lock.specs.Passes.{IsTold};
ghost use Rattle.smt_core.specs.Shown.{Shown};

use crate::held::Pass;
use crate::tally::{Tally, made_in, tally_at, tally_of};
use numbers::sizes::MOST_ACTORS;
use smt_core::{Core, show};
use std::sync::ledger::Ledger;

/// Whether the history holds of the pass's actor just what the pass has counted.
pub(super) fn is_told<L: Ledger>(core: &Core, pass: &Pass<L>) -> bool
    ensures told { IsTrue result
        ↔ IsTold core.now.past pass.now.actor pass.now.count pass.now.last }
    ensures shown { Shown core.now }
{
    show(core);
    has_counted(pass, tally_of(core.history(), pass.actor))
}

/// Whether the pass has counted just this.
fn has_counted<L: Ledger>(pass: &Pass<L>, tally: Tally) -> bool
    ensures { IsTrue result ↔ (pass.now.count ≡ tally.count) × (pass.now.last ≡ tally.last) }
{
    pass.count == tally.count && pass.last == tally.last
}

/// Whether at each place lies the pass of its actor, and the history holds of that actor just what
/// the pass has counted. It reads the history once.
pub(super) fn are_told<L: Ledger>(core: &Core, passes: &[Pass<L>; MOST_ACTORS]) -> bool
    ensures { IsTrue result
        ↔ ((k : ℕ) (p : _) → slice_get passes.now k ≡ Some p
        → (p.actor ≡ k) × IsTold core.now.past p.actor p.count p.last) }
{
    show(core);
    let history = core.history();
    let made = made_in(history);
    for (place, pass) in passes.iter().enumerate() {
        let tally = tally_at(history, &made, place);
        if usize::from(pass.actor) != place || !has_counted(pass, tally) {
            return false;
        }
    }
    true
}
