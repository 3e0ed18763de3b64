ghost use Rattle.std.specs.Prelude.{◌≡◌, ◌≤◌, ◌↔◌, ℕ, Bool, true, Some, IsTrue, IfSome};
ghost use Rattle.std.specs.Prelude.{◌<◌, length, map, sum, slice_get, replicate};
ghost use Rattle.numbers.specs.Sizes.{most_actors, most_events};
ghost use Rattle.core_state.specs.Setup.{setup_of};
ghost use Rattle.smt_model.specs.Account.{event_count, last_event_of};
ghost use Rattle.core_lock.specs.Asks.{Replied, IsPredictedBy, asked_of, event_in, grown_by};
ghost use Rattle.core_lock.specs.Asks.{is_reply};
ghost use Rattle.core_lock.specs.Passes.{IsTold, more, later, going_in, places};
ghost use Rattle.core_lock.specs.Steps.{HasStepped};
ghost use Rattle.smt_core.specs.Shown.{Shown};

mod agreement;
mod asking;
mod dealing;
mod passes;
mod replies;

use crate::ask::{Ask, Asked, Said};
use crate::idle::IdleAsks;
use crate::origin::Origin;
use crate::reader::CoreReader;
use crate::unlocked::Unlocked;
use agreement::{are_told, is_told};
use asking::ask_core;
use dealing::{counts_of, deal_four, gather, made_of};
use elf_image::Image;
use events::Event;
use numbers::sizes::MOST_ACTORS;
use smt_core::{Config, Core, Finished, Predict, show};
use std::marker::PhantomData;
use std::sync::ledger::{Blank, Book, Ledger, Share};

/// What stands behind the lock: the core, the book in which the passes' counts add up to its events,
/// and how many asks of each actor were answered `Said::Idle`.
#[derive(Drop)]
pub struct Held<L: Origin> {
    core: Core,
    book: Book<L>,
    /// What the dealing of the passes has left: nothing. At the end all passes go back into it.
    rest: Share<L>,
    idle: IdleAsks,
    ghost counted: { length core.past ≡ book.total },
    ghost no_parts: { rest.parts ≡ 0 },
    ghost no_rest: { rest.amount ≡ 0 },
    ghost setup: { core.setup ≡ L.setup },
    ghost limit: { core.limit ≡ L.limit },
}

/// One actor's right to ask, with the number of events that it has made, and the last of them.
#[derive(Drop)]
pub struct Pass<L: Ledger> {
    actor: u8,
    count: u64,
    last: Option<Event>,
    part: Share<L>,
    ghost known: { actor < most_actors },
    ghost one_part: { part.parts ≡ 1 },
    ghost counted: { part.amount ≡ count },
}

/// The answer to one ask. It can't be let go, only spent for what was said.
pub struct Reply<L: Ledger> {
    actor: u8,
    asked: Asked,
    going: u8,
    said: Said,
    of: PhantomData<L>,
    ghost own: { is_reply actor asked said ≡ true },
}

impl<L: Origin> Held<L> {
    /// Puts a core behind the lock, and deals a pass to each actor that there may be: pass k has
    /// the number of actor k's events in the history so far, and the last of them. No ask was idle.
    pub fn new(core: Core, blank: Blank) -> (Held<L>, [Pass<L>; MOST_ACTORS])
        requires name { blank.name ≡ L.name }
        requires parts { (blank.parts ≡ L.parts) × (L.parts ≡ most_actors) }
        requires origin { (core.setup ≡ L.setup) × (core.limit ≡ L.limit) }
        ensures core { result.0.core ≡ core }
        ensures actors { map (λ p. p.actor) result.1 ≡ places }
        ensures counts { map (λ p. p.count) result.1 ≡ map (λ k. event_count k core.past) places }
        ensures lasts { map (λ p. p.last) result.1 ≡ map (λ k. last_event_of k core.past) places }
        ensures idle { result.0.idle.each ≡ replicate most_actors 0 }
    {
        let (mut book, mut rest) = blank.open::<L>();
        book.add(&mut rest, core.history().len() as u64);
        let made = made_of(&core);
        let (p0, p1, p2, p3) = deal_four(&core, &made, &mut rest, 0);
        let (p4, p5, p6, p7) = deal_four(&core, &made, &mut rest, 4);
        let (p8, p9, p10, p11) = deal_four(&core, &made, &mut rest, 8);
        let (p12, p13, p14, p15) = deal_four(&core, &made, &mut rest, 12);
        let (p16, p17, p18, p19) = deal_four(&core, &made, &mut rest, 16);
        let (p20, p21, p22, p23) = deal_four(&core, &made, &mut rest, 20);
        let (p24, p25, p26, p27) = deal_four(&core, &made, &mut rest, 24);
        let (p28, p29, p30, p31) = deal_four(&core, &made, &mut rest, 28);
        let passes = [
            p0, p1, p2, p3, p4, p5, p6, p7, p8, p9, p10, p11, p12, p13, p14, p15, p16, p17, p18,
            p19, p20, p21, p22, p23, p24, p25, p26, p27, p28, p29, p30, p31,
        ];
        book.audit(&mut rest);
        let idle = IdleAsks::none();
        let held = Held {
            core,
            book,
            rest,
            idle,
        };
        (held, passes)
    }

    /// Makes one step of the core for the pass's actor, and waits for nobody.
    ///
    /// It stands in its caller, as the ask of the core does: who asks for one kind of step then has
    /// the code of that step alone, and what of the reply isn't read isn't made.
    #[inline(always)]
    pub fn step<P: Predict>(&mut self, pass: &mut Pass<L>, ask: Ask, predict: &mut P) -> Reply<L>
        ensures stepped { HasStepped P.predicts ask self.old.core self.new.core predict.old predict.new
            self.old.idle.each self.new.idle.each
            (record {
              actor = pass.old.actor;
              count = pass.old.count;
              last = pass.old.last;
            })
            (record {
              actor = pass.new.actor;
              count = pass.new.count;
              last = pass.new.last;
            })
            (record {
              actor = result.actor;
              asked = result.asked;
              going = result.going;
              said = result.said;
            }) }
        ensures origin { (self.old.core.setup ≡ L.setup) × (self.old.core.limit ≡ L.limit) }
    {
        let actor = pass.actor;
        let asked = ask.asked();
        let Held {
            core,
            book,
            rest: _,
            idle,
        } = self;
        show(core);
        let said = ask_core(core, actor, ask, predict);
        show(core);
        note(book, pass, said.event());
        idle.count(actor, &said);
        Reply {
            actor,
            asked,
            going: core.going(),
            said,
            of: PhantomData,
        }
    }

    /// Shows the core to a reader, once, and tells it whether the history holds of the pass's actor
    /// just what the pass has counted.
    pub fn look<C: CoreReader>(&self, pass: &Pass<L>, reader: &mut C)
        ensures shown { Shown self.now.core }
        ensures origin { (self.now.core.setup ≡ L.setup) × (self.now.core.limit ≡ L.limit) }
        ensures read { (told : Bool)
            × (IsTrue told ↔ IsTold self.now.core.past pass.now.actor pass.now.count pass.now.last)
            × C.reads reader.old self.now.core told reader.new }
    {
        let told = is_told(&self.core, pass);
        reader.read(&self.core, told);
    }

    /// Gives up the book, with all passes. `counts` are the passes' own and add up to the
    /// events of the history; `told` says that at each place k lies actor k's pass with that
    /// actor's count and last event; `own` says that the core is of this image and this
    /// configuration. `idle` are the numbers that stood beside the core.
    pub fn finish(self, passes: [Pass<L>; MOST_ACTORS], image: &Image, config: &Config) -> Unlocked
        requires { L.parts ≡ most_actors }
        ensures core { result.finished.core ≡ self.core }
        ensures counts { result.finished.counts ≡ map (λ p. p.count) passes }
        ensures idle { result.asks.each ≡ self.idle.each }
        ensures sum { sum result.finished.counts ≡ length result.finished.core.past }
        ensures told { IsTrue result.finished.told
            ↔ ((k : ℕ) (p : _) → slice_get passes k ≡ Some p
            → (p.actor ≡ k) × IsTold result.finished.core.past p.actor p.count p.last) }
        ensures own { IsTrue result.finished.own
            ↔ (result.finished.core.setup ≡ setup_of image.now config.now) }
        ensures origin { (result.finished.core.setup ≡ L.setup)
            × (result.finished.core.limit ≡ L.limit) }
        ensures shown { Shown result.finished.core }
    {
        let Held {
            core,
            mut book,
            rest,
            idle,
        } = self;
        let counts = counts_of(&passes);
        let told = are_told(&core, &passes);
        let mut all = gather(rest, passes);
        book.audit(&mut all);
        let own = core.is_of(image, config);
        show(&core);
        let finished = Finished {
            core,
            counts,
            idle: idle.each(),
            told,
            own,
        };
        Unlocked {
            finished,
            asks: idle,
        }
    }
}

/// Enters a step into the book and the pass, where one was made.
fn note<L: Ledger>(book: &mut Book<L>, pass: &mut Pass<L>, event: Option<Event>)
    requires { book.old.total ≤ most_events }
    ensures total { book.new.total ≡ more book.old.total event }
    ensures actor { pass.new.actor ≡ pass.old.actor }
    ensures count { pass.new.count ≡ more pass.old.count event }
    ensures last { pass.new.last ≡ later pass.old.last event }
{
    if event.is_none() {
        return;
    }
    let Pass {
        actor: _,
        count,
        last,
        part,
    } = pass;
    book.audit(part);
    book.add(part, 1);
    *count += 1;
    *last = event;
}
