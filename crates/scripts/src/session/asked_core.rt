//! A core that one caller asks for all of its actors.

ghost use Rattle.std.specs.Prelude.{◌≡◌, ◌<◌, ◌↔◌, true, IsTrue, IfSome, length, sum};
ghost use Rattle.numbers.specs.Sizes.{most_actors};
ghost use Rattle.core_state.specs.Setup.{setup_of};
ghost use Rattle.smt_core.specs.Counts.{AreCounts};
ghost use Rattle.smt_core.specs.Shown.{Shown};
ghost use Rattle.scripts.specs.Session.{HasGuessed, HasReplied, uncounted};

use core_lock::{Ask, Held, Origin, Pass, Said, Unlocked};
use elf_image::Image;
use numbers::sizes::MOST_ACTORS;
use smt_core::{Config, Core, Finished, Predict};
use std::marker::Model;
use std::sync::ledger::Blank;

/// A core with the passes of all its actors: who has it asks for each actor through the actor's own
/// pass, and waits for nobody. A clause sees the core, and how many asks of each actor were answered
/// idle.
#[derive(Drop)]
pub struct AskedCore<L: Origin> {
    held: Held<L>,
    passes: [Pass<L>; MOST_ACTORS],
}

impl<L: Origin> Model for AskedCore<L> {
    ghost use Rattle.std.specs.Prelude.{◌≡◌, ℕ, Some, slice_get};
    ghost use Rattle.core_lock.specs.Passes.{IsTold};
    ghost use Rattle.scripts.specs.Session.{Counted};

    ghost Value = { Counted };

    ghost view = { λ a. record { core = a.held.core; idle = a.held.idle.each } };

    ghost invariant = { λ a. (k : ℕ) (p : _) → slice_get a.passes k ≡ Some p
        → (p.actor ≡ k) × IsTold a.held.core.past p.actor p.count p.last };
}

impl<L: Origin> AskedCore<L> {
    /// Deals the passes of a core.
    pub fn new(core: Core, blank: Blank) -> AskedCore<L>
        requires name { blank.name ≡ L.name }
        requires parts { (blank.parts ≡ L.parts) × (L.parts ≡ most_actors) }
        requires origin { (core.setup ≡ L.setup) × (core.limit ≡ L.limit) }
        ensures { result ≡ uncounted core }
    {
        let (held, passes) = Held::new(core, blank);
        AskedCore { held, passes }
    }

    /// Makes an ask for an actor.
    #[inline(always)]
    pub fn ask<P: Predict>(&mut self, actor: u8, ask: Ask, predict: &mut P) -> Said
        requires { actor < most_actors }
        ensures replied { HasReplied actor ask self.old result self.new }
        ensures guessed { HasGuessed P.predicts self.old.core.past self.new.core.past
            predict.old predict.new }
    {
        let pass = &mut self.passes[usize::from(actor)];
        self.held.step(pass, ask, predict).said()
    }

    /// What is left when all was asked. No pass has missed an event.
    pub fn finish(self, image: &Image, config: &Config) -> Finished
        requires { L.parts ≡ most_actors }
        ensures core { result.core ≡ self.core }
        ensures idle { result.idle ≡ self.idle }
        ensures counts { AreCounts result.core.past result.counts }
        ensures counted { sum result.counts ≡ length result.core.past }
        ensures told { IsTrue result.told }
        ensures own { IsTrue result.own ↔ (result.core.setup ≡ setup_of image.now config.now) }
        ensures origin { (result.core.setup ≡ L.setup) × (result.core.limit ≡ L.limit) }
        ensures shown { Shown result.core }
    {
        let AskedCore { held, passes } = self;
        let Unlocked { finished, asks: _ } = held.finish(passes, image, config);
        finished
    }
}
