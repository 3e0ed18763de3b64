ghost use Rattle.std.specs.Prelude.{◌≡◌, ◌<◌, ◌≤◌, ◌+◌, map, sum, reverse};
ghost use Rattle.numbers.specs.Sizes.{most_actors};
ghost use Rattle.core_lock.specs.Passes.{IsDealt};
ghost use Rattle.core_lock.specs.Tallies.{AreMade};
ghost use Rattle.smt_core.specs.Counts.{made_from};

use crate::held::Pass;
use crate::tally::{Made, Tally, made_in, tally_at};
use numbers::sizes::MOST_ACTORS;
use smt_core::Core;
use std::sync::ledger::{Ledger, Share};

/// What the history holds of each actor. It reads the history once.
pub(super) fn made_of(core: &Core) -> [Made; MOST_ACTORS]
    ensures { AreMade core.now.past (reverse core.now.past) result }
{
    made_in(core.history())
}

// `Held::new` writes out the passes of so many: they have no default, so no loop
// fills an array with them.
const _: () = prove!(MOST_ACTORS == 32);

/// The passes of four actors, from `first` on. Four by four, since the proof of a body grows with the
/// square of its calls.
pub(super) fn deal_four<L: Ledger>(
    core: &Core,
    made: &[Made; MOST_ACTORS],
    rest: &mut Share<L>,
    first: u8,
) -> (Pass<L>, Pass<L>, Pass<L>, Pass<L>)
    requires made { AreMade core.now.past (reverse core.now.past) made.now }
    requires parts { rest.old.parts + first ≡ most_actors }
    requires inside { first + 4 ≤ most_actors }
    requires amount { rest.old.amount ≡ made_from first core.now.past }
    ensures a { IsDealt core.now.past first result.0.actor result.0.count result.0.last }
    ensures b { IsDealt core.now.past (first + 1) result.1.actor result.1.count result.1.last }
    ensures c { IsDealt core.now.past (first + 2) result.2.actor result.2.count result.2.last }
    ensures d { IsDealt core.now.past (first + 3) result.3.actor result.3.count result.3.last }
    ensures parts { rest.new.parts + (first + 4) ≡ most_actors }
    ensures amount { rest.new.amount ≡ made_from (first + 4) core.now.past }
{
    let a = deal(core, made, rest, first);
    let b = deal(core, made, rest, first + 1);
    let c = deal(core, made, rest, first + 2);
    let d = deal(core, made, rest, first + 3);
    (a, b, c, d)
}

/// The pass of actor `actor`, taken from what is left for it and those of greater numbers.
fn deal<L: Ledger>(
    core: &Core,
    made: &[Made; MOST_ACTORS],
    rest: &mut Share<L>,
    actor: u8,
) -> Pass<L>
    requires made { AreMade core.now.past (reverse core.now.past) made.now }
    requires parts { rest.old.parts + actor ≡ most_actors }
    requires inside { actor < most_actors }
    requires amount { rest.old.amount ≡ made_from actor core.now.past }
    ensures dealt { IsDealt core.now.past actor result.actor result.count result.last }
    ensures parts { rest.new.parts + (actor + 1) ≡ most_actors }
    ensures amount { rest.new.amount ≡ made_from (actor + 1) core.now.past }
{
    // The history is legal and of no more actors than there may be: that is a clause of this call.
    let history = core.history();
    let Tally { count, last } = tally_at(history, made, usize::from(actor));
    let part = rest.split_off(1, count);
    Pass {
        actor,
        count,
        last,
        part,
    }
}

/// The counts of the passes, in their order.
pub(super) fn counts_of<L: Ledger>(passes: &[Pass<L>; MOST_ACTORS]) -> [u64; MOST_ACTORS]
    ensures { result ≡ map (λ p. p.count) passes.now }
{
    let mut counts = [0; MOST_ACTORS];
    for (place, pass) in passes.iter().enumerate() {
        counts[place] = pass.count;
    }
    counts
}

/// Takes the passes' shares of the book together.
pub(super) fn gather<L: Ledger>(rest: Share<L>, passes: [Pass<L>; MOST_ACTORS]) -> Share<L>
    requires no_parts { rest.parts ≡ 0 }
    requires no_rest { rest.amount ≡ 0 }
    ensures parts { result.parts ≡ most_actors }
    ensures amount { result.amount ≡ sum (map (λ p. p.count) passes) }
{
    let mut all = rest;
    for pass in passes {
        let Pass {
            actor: _,
            count: _,
            last: _,
            part,
        } = pass;
        all.merge(part);
    }
    all
}
