ghost use Rattle.std.specs.Prelude.{◌≡◌, ◌↔◌, ℕ, Bool, true, Some, IsTrue, IfSome, length, map};
ghost use Rattle.std.specs.Prelude.{sum, slice_get};
ghost use Rattle.numbers.specs.Sizes.{most_actors};
ghost use Rattle.core_state.specs.Setup.{setup_of};
ghost use Rattle.core_state.specs.View.{CoreView};
ghost use Rattle.smt_model.specs.Account.{event_count, last_event_of};
ghost use Rattle.core_lock.specs.Asks.{Replied, IsPredictedBy, asked_of, event_in, is_reply};
ghost use Rattle.core_lock.specs.Passes.{IsTold, more, later, going_in, places};
ghost use Rattle.smt_core.specs.Shown.{Shown};

use crate::ask::Ask;
use crate::held::{Held, Pass, Reply};
use crate::origin::Origin;
use crate::reader::CoreReader;
use crate::unlocked::Unlocked;
use elf_image::Image;
use numbers::sizes::MOST_ACTORS;
use smt_core::{Config, Core, Finished, Predict};
use std::hint::spin_loop;
use std::sync::ledger::Blank;
use std::sync::{Mutex, MutexGuard, Wait};
use std::thread::yield_now;

/// How often a thread tries the lock before it waits for it. A step takes a tenth of what it takes to
/// put a thread to sleep and to wake it.
const TRIES: u32 = 20;

/// After so many tries it also gives its processor away between two of them.
const PATIENT_TRIES: u32 = 4;

/// For so many turns of a loop it stays away from the lock between two tries, so that whoever has it
/// makes several steps in a row.
const SPINS: u32 = 100;

/// A core that many threads may ask, one at a time.
#[derive(Drop)]
pub struct LockedCore<L: Origin> {
    lock: Mutex<Held<L>>,
}

impl<L: Origin> LockedCore<L> {
    /// Puts a core behind a lock, and deals a pass to each actor that there may be: pass k has the
    /// number of actor k's events in the history so far, and the last of them.
    pub fn new(core: Core, blank: Blank) -> (LockedCore<L>, [Pass<L>; MOST_ACTORS])
        requires name { blank.name ≡ L.name }
        requires parts { (blank.parts ≡ L.parts) × (L.parts ≡ most_actors) }
        requires origin { (core.setup ≡ L.setup) × (core.limit ≡ L.limit) }
        ensures actors { map (λ p. p.actor) result.1 ≡ places }
        ensures counts { map (λ p. p.count) result.1 ≡ map (λ k. event_count k core.past) places }
        ensures lasts { map (λ p. p.last) result.1 ≡ map (λ k. last_event_of k core.past) places }
    {
        let (held, passes) = Held::new(core, blank);
        let lock = Mutex::new(held);
        (LockedCore { lock }, passes)
    }

    /// Waits for the lock, and makes one step of the core for the pass's actor.
    pub fn step<P: Predict, R: Wait>(
        &self,
        rt: &R,
        pass: &mut Pass<L>,
        ask: Ask,
        predict: &mut P,
    ) -> Reply<L>
        ensures maker { result.actor ≡ pass.old.actor }
        ensures asked { result.asked ≡ asked_of ask }
        ensures actor { pass.new.actor ≡ pass.old.actor }
        ensures count { pass.new.count ≡ more pass.old.count (event_in result.said) }
        ensures last { pass.new.last ≡ later pass.old.last (event_in result.said) }
        ensures own { is_reply pass.old.actor (asked_of ask) result.said ≡ true }
        ensures predicted { IsPredictedBy P.predicts predict.old
            (asked_of ask) result.said predict.new }
        ensures step { (old : CoreView) × (new : CoreView) × Shown old × Shown new
            × (old.setup ≡ L.setup) × (old.limit ≡ L.limit)
            × Replied pass.old.actor ask old result.said new × (result.going ≡ going_in new) }
    {
        self.take(rt).step(pass, ask, predict)
    }

    /// Waits for the lock, and shows the core to a reader, once, with whether the history holds of
    /// the pass's actor just what the pass has counted.
    pub fn look<C: CoreReader, R: Wait>(&self, rt: &R, pass: &Pass<L>, reader: &mut C)
        ensures { (core : CoreView) × (told : Bool) × Shown core × (core.setup ≡ L.setup)
            × (core.limit ≡ L.limit)
            × (IsTrue told ↔ IsTold core.past pass.now.actor pass.now.count pass.now.last)
            × C.reads reader.old core told reader.new }
    {
        self.lock.lock(rt).look(pass, reader);
    }

    /// Takes the lock: tries it for a while, and then waits for it.
    fn take<R: Wait>(&self, rt: &R) -> MutexGuard<'_, Held<L>> {
        for tried in 0..TRIES {
            if let Some(guard) = self.lock.try_lock() {
                return guard;
            }
            stay_away();
            if tried >= PATIENT_TRIES {
                yield_now();
            }
        }
        self.lock.lock(rt)
    }

    /// Gives up the lock, with all passes. `counts` are the passes' own and add up to the
    /// events of the history; `told` says that at each place k lies actor k's pass with that
    /// actor's count and last event; `own` says that the core is of this image and this
    /// configuration. `idle` are the numbers that the lock has counted.
    pub fn finish(self, passes: [Pass<L>; MOST_ACTORS], image: &Image, config: &Config) -> Finished
        requires { L.parts ≡ most_actors }
        ensures counts { result.counts ≡ map (λ p. p.count) passes }
        ensures sum { sum result.counts ≡ length result.core.past }
        ensures told { IsTrue result.told
            ↔ ((k : ℕ) (p : _) → slice_get passes k ≡ Some p
            → (p.actor ≡ k) × IsTold result.core.past p.actor p.count p.last) }
        ensures own { IsTrue result.own ↔ (result.core.setup ≡ setup_of image.now config.now) }
        ensures origin { (result.core.setup ≡ L.setup) × (result.core.limit ≡ L.limit) }
        ensures shown { Shown result.core }
    {
        self.unlock(passes, image, config).finished
    }

    /// The same, with the lock's own counts of idle asks beside it.
    pub fn unlock(self, passes: [Pass<L>; MOST_ACTORS], image: &Image, config: &Config) -> Unlocked
        requires { L.parts ≡ most_actors }
        ensures counts { result.finished.counts ≡ map (λ p. p.count) passes }
        ensures idle { result.finished.idle ≡ result.asks.each }
        ensures sum { sum result.finished.counts ≡ length result.finished.core.past }
        ensures told { IsTrue result.finished.told
            ↔ ((k : ℕ) (p : _) → slice_get passes k ≡ Some p
            → (p.actor ≡ k) × IsTold result.finished.core.past p.actor p.count p.last) }
        ensures own { IsTrue result.finished.own
            ↔ (result.finished.core.setup ≡ setup_of image.now config.now) }
        ensures origin { (result.finished.core.setup ≡ L.setup)
            × (result.finished.core.limit ≡ L.limit) }
        ensures shown { Shown result.finished.core }
    {
        let LockedCore { lock } = self;
        lock.into_inner().finish(passes, image, config)
    }
}

/// Lets a moment pass.
fn stay_away() {
    for _turn in 0..SPINS {
        spin_loop();
    }
}
