ghost use Rattle.std.specs.Prelude.{◌≡◌, ◌∷◌, ◌++◌, [], ℕ, ◌<◌, ◌≤◌, ◌+◌, ◌↔◌, ◌==◌, ◌&&◌, length};
ghost use Rattle.std.specs.Prelude.{IsTrue, IfSome, IfNone, IfOk, None, Some, false, true};
ghost use Rattle.std.specs.Prelude.{Err, if◌then◌else◌};
ghost use Rattle.numbers.specs.Sizes.{most_harts, most_extra, most_queued};
ghost use Rattle.numbers.specs.Sizes.{most_events};
ghost use Rattle.events.specs.declared.event.Event.TheVariants.{Issue};
ghost use Rattle.core_parts.specs.Agree.{IsActive, IsEntry};
ghost use Rattle.core_state.specs.View.{CoreView, grown};
ghost use Rattle.core_state.specs.Answers.{AllowsNone, CanFetch, fetched_at, TakesLeast, IsJobOf};
ghost use Rattle.core_state.specs.Answers.{IsStrange};
ghost use Rattle.elf_image.specs.Image.{word_now};
ghost use Rattle.smt_model.specs.Account.{records};
ghost use Rattle.smt_model.specs.Asks.{answers, AskFetch, AskDecode, AskRename, AskIssue};
ghost use Rattle.smt_model.specs.Asks.{AskComplete, AskRetire};
ghost use Rattle.smt_model.specs.Basics.{same_number};
ghost use Rattle.smt_model.specs.Memory.{byte_at, output};
ghost use Rattle.smt_model.specs.Picture.{picture};
ghost use Rattle.smt_model.specs.Rules.{refused};
ghost use Rattle.smt_model.specs.Jobs.{is_actor};
ghost use Rattle.smt_model.specs.Setup.{is_accepted};
ghost use Rattle.core_state.specs.Setup.{setup_of, accepts};

mod follow;
mod readers;
mod refusal;
mod write;

use crate::log::append;
use crate::refused::CoreRefused;
use crate::sizes::is_core;
use core_parts::Parts;
use core_steps::{
    FetchPoint, choose, completion_of, fetch_slot, handed_back, in_flight, next_to_decode,
    next_to_issue, next_to_rename, next_to_retire,
};
use decoded_code::Code;
use elf_image::Image;
use events::{Effect, Event, History, Outcome, Record};
use exec_units::{Done, Job};
use issue_queue::Entry;
use load_store::effect;
use numbers::Seq;
use retire_squash::Active;
use smt_model::Config;
use std::alloc::{AllocError, Global};
use std::marker::Model;

/// The state of a core, and the history of its events.
pub struct State {
    image: Image,
    /// The code, decoded: what memory has there now.
    code: Code,
    config: Config,
    parts: Parts,
    /// The hart that was fetched last.
    last: Option<u8>,
    /// How many instructions were fetched.
    fetched: Seq,
    /// How many loads looked again as they retired, since a write had touched them.
    looks: u32,
    records: Vec<Record>,
    output: Vec<u8>,
    history: History,
}

impl Model for State {
    ghost use Rattle.core_state.specs.View.{CoreView};

    ghost Value = { CoreView };

    ghost use Rattle.core_state.specs.State.{view_of, IsCore};

    ghost view = { view_of };

    ghost invariant = { IsCore };
}

// By hand, so that whoever owns a core proves one call where it ends, and not the end of each part.
// In its caller, since a call takes a copy of the state, some 3 KiB of the stack.
impl Drop for State {
    #[inline(always)]
    fn drop(self) {
        let State {
            image: _,
            code: _,
            config: _,
            parts: _,
            last: _,
            fetched: _,
            looks: _,
            records: _,
            output: _,
            history: _,
        } = self;
    }
}

impl State {
    /// The core of an image and a configuration before its first event, on the heap: whoever hands it
    /// on then hands on a pointer. All room for `limit` events is made here.
    ///
    /// Refused are sizes that aren't a core's and a limit above `MOST_EVENTS`, before any memory is
    /// taken.
    pub fn new(
        image: &Image,
        config: Config,
        limit: u32,
        alloc: Global,
    ) -> Result<Box<State>, CoreRefused>
        ensures made { IfOk result
            (λ core. core.value
            ≡ record { setup = setup_of image.now config; limit = limit; past = [] }) }
        ensures accepted { IfOk result (λ core. is_accepted core.value.setup limit ≡ true) }
        ensures refused { (result ≡ Err CoreRefused.Config)
            ↔ (is_accepted (setup_of image.now config) limit ≡ false) }
    {
        if !is_core(&config, limit) {
            return Err(CoreRefused::Config);
        }
        match State::make(image, config, limit, alloc) {
            Ok(core) => Ok(core),
            Err(_) => Err(CoreRefused::Memory),
        }
    }

    fn make(
        image: &Image,
        config: Config,
        limit: u32,
        alloc: Global,
    ) -> Result<Box<State>, AllocError>
        requires accepted { accepts config limit ≡ true }
        requires harts { config.harts ≤ most_harts }
        requires extra { config.extra ≤ most_extra }
        requires queue { config.queue ≤ most_queued }
        requires limit { limit ≤ most_events }
        ensures { IfOk result
            (λ core. core.value
            ≡ record { setup = setup_of image.now config; limit = limit; past = [] }) }
    {
        let image = image.try_clone()?;
        let code = Code::new(&image, alloc)?;
        let history = History::with_limit(limit, alloc)?;
        let records = Vec::with_capacity(alloc, limit as usize)?;
        let output = Vec::with_capacity(alloc, limit as usize)?;
        let parts = Parts::new(config.harts, config.extra, config.queue, &image, alloc)?;
        let state = State {
            image,
            code,
            config,
            parts,
            last: None,
            fetched: 0,
            looks: 0,
            records,
            output,
            history,
        };
        Ok(Box::new(alloc, state)?)
    }

    /// Whether the history has as many events as it may have.
    pub fn is_full(&self) -> bool
        ensures full { IsTrue result → length self.now.past ≡ self.now.limit }
        ensures room { result ≡ false → length self.now.past < self.now.limit }
    {
        self.history.is_full()
    }

    /// Where actor `actor` fetches next: the hart to choose, at its fetch pc. None where no hart
    /// qualifies or there is no such actor.
    #[inline(always)]
    pub fn next_to_fetch(&self, actor: u8) -> Option<FetchPoint>
        ensures allowed { IfSome result (CanFetch self.now.setup self.now.past actor) }
        ensures idle { IfNone result (AllowsNone self.now.setup (AskFetch actor) self.now.past) }
    {
        if !self.has_actor(actor) {
            return None;
        }
        let hart = choose(&self.parts.harts, self.last)?;
        let pc = self.parts.harts[hart].fetch_pc;
        Some(FetchPoint {
            hart: hart as u8,
            pc,
            word: self.code.word_at(pc),
        })
    }

    /// Fetches at `point` for actor `actor`, where it fetches next, and goes on at `predicted`.
    #[inline(always)]
    pub fn fetch(&mut self, actor: u8, point: FetchPoint, predicted: u32) -> Event
        requires room { length self.old.past < self.old.limit }
        requires allowed { refused self.old.setup self.old.past
            (fetched_at actor point predicted self.old.past) ≡ None }
        ensures event { result ≡ fetched_at actor point predicted self.old.past }
        ensures made { self.new ≡ grown result self.old }
    {
        let op = self.code.op_at(point.pc);
        let slot = point.slot(self.fetched, op, predicted);
        let event = point.event(actor, slot.seq, predicted);
        fetch_slot(&mut self.parts, usize::from(point.hart), slot);
        self.last = Some(point.hart);
        self.fetched += 1;
        append(&mut self.history, &event);
        event
    }

    /// Decodes hart `hart`'s oldest fetched instruction. None where there is none, the rename latch
    /// is full, or there is no such actor or hart, and then nothing changes.
    #[inline(always)]
    pub fn decode(&mut self, actor: u8, hart: u8) -> Option<Event>
        requires { length self.old.past < self.old.limit }
        ensures made { IfSome result (λ e. self.new ≡ grown e self.old) }
        ensures allowed { IfSome result (λ e. refused self.old.setup self.old.past e ≡ None) }
        ensures answer { IfSome result
            (λ e. answers (AskDecode actor hart) self.old.past e ≡ true) }
        ensures idle { IfNone result
            (AllowsNone self.old.setup (AskDecode actor hart) self.old.past) }
        ensures none { IfNone result (self.new ≡ self.old) }
    {
        if !self.has_actor(actor) {
            return None;
        }
        let seq = next_to_decode(&self.parts, hart)?;
        Some(self.write_decode(actor, hart, seq))
    }

    /// Renames hart `hart`'s oldest decoded instruction, with the least free register where it
    /// writes one. None where there is no such instruction, room, register, actor or hart, and then
    /// nothing changes.
    #[inline(always)]
    pub fn rename(&mut self, actor: u8, hart: u8) -> Option<Event>
        requires { length self.old.past < self.old.limit }
        ensures made { IfSome result (λ e. self.new ≡ grown e self.old) }
        ensures allowed { IfSome result (λ e. refused self.old.setup self.old.past e ≡ None) }
        ensures answer { IfSome result
            (λ e. answers (AskRename actor hart) self.old.past e ≡ true) }
        ensures least { IfSome result (TakesLeast self.old.setup self.old.past) }
        ensures idle { IfNone result
            (AllowsNone self.old.setup (AskRename actor hart) self.old.past) }
        ensures none { IfNone result (self.new ≡ self.old) }
    {
        if !self.has_actor(actor) {
            return None;
        }
        let (seq, phys) = next_to_rename(&self.parts, hart)?;
        Some(self.write_rename(actor, hart, seq, phys))
    }

    /// Issues the oldest ready instruction of the actor's kind of unit. None where there is none,
    /// or the actor is no unit or has a job, and then nothing changes.
    #[inline(always)]
    pub fn issue(&mut self, actor: u8) -> Option<(Job, Event)>
        requires { length self.old.past < self.old.limit }
        ensures made { IfSome result (λ r. self.new ≡ grown r.1 self.old) }
        ensures allowed { IfSome result (λ r. refused self.old.setup self.old.past r.1 ≡ None) }
        ensures answer { IfSome result (λ r. answers (AskIssue actor) self.old.past r.1 ≡ true) }
        ensures job { IfSome result (λ r. IsJobOf self.new.setup self.new.past actor r.0) }
        ensures idle { IfNone result (AllowsNone self.old.setup (AskIssue actor) self.old.past) }
        ensures none { IfNone result (self.new ≡ self.old) }
    {
        let entry = self.next_to_issue(actor)?;
        Some(self.write_issue(actor, entry))
    }

    /// The entry of the instruction that actor `actor` issues next: the oldest ready one of its kind
    /// of unit. It may issue no other. None where there is none, or the actor is no unit or has a job.
    #[inline(always)]
    fn next_to_issue(&self, actor: u8) -> Option<Entry>
        ensures allowed { IfSome result
            (λ e. refused self.now.setup self.now.past (Issue actor e.seq) ≡ None) }
        ensures alone { IfSome result (λ e. (seq : ℕ)
            → refused self.now.setup self.now.past (Issue actor seq) ≡ None → seq ≡ e.seq) }
        ensures entry { IfSome result (IsEntry (picture self.now.setup self.now.past)) }
        ensures idle { IfNone result (AllowsNone self.now.setup (AskIssue actor) self.now.past) }
    {
        let kind = self.config.roles.get(usize::from(actor))?.unit()?;
        next_to_issue(&self.parts, actor, kind)
    }

    /// Takes back the job of actor `actor`, worked: a completion, or a drop where the instruction
    /// was squashed meanwhile. None where the actor has no such job, and then nothing changes.
    #[inline(always)]
    pub fn complete(&mut self, actor: u8, done: &Done) -> Option<Event>
        requires { length self.old.past < self.old.limit }
        ensures made { IfSome result (λ e. self.new ≡ grown e self.old) }
        ensures allowed { IfSome result (λ e. refused self.old.setup self.old.past e ≡ None) }
        ensures answer { IfSome result (λ e. answers (AskComplete actor) self.old.past e ≡ true) }
        ensures job { IfSome result (λ e. IsJobOf self.old.setup self.old.past actor done.now.job) }
        ensures stranger { IfNone result
            (IsStrange self.old.setup self.old.past actor done.now.job) }
        ensures none { IfNone result (self.new ≡ self.old) }
    {
        let job = handed_back(&self.parts, actor, done)?;
        let Some(active) = in_flight(&self.parts, &job) else {
            return Some(self.drop_job(actor, job.seq));
        };
        let outcome = completion_of(&self.parts, &job, done.outcome());
        Some(self.finish(actor, &job, &active, outcome))
    }

    /// Retires hart `hart`'s oldest instruction in flight, or fetches it again, where memory has
    /// another word there now. None where there is none, it isn't completed, or there is no such actor
    /// or hart, and then nothing changes.
    #[inline(always)]
    pub fn retire(&mut self, actor: u8, hart: u8) -> Option<Event>
        requires { length self.old.past < self.old.limit }
        ensures made { IfSome result (λ e. self.new ≡ grown e self.old) }
        ensures allowed { IfSome result (λ e. refused self.old.setup self.old.past e ≡ None) }
        ensures answer { IfSome result
            (λ e. answers (AskRetire actor hart) self.old.past e ≡ true) }
        ensures idle { IfNone result
            (AllowsNone self.old.setup (AskRetire actor hart) self.old.past) }
        ensures none { IfNone result (self.new ≡ self.old) }
    {
        if !self.has_actor(actor) {
            return None;
        }
        let (active, outcome) = next_to_retire(&self.parts, hart)?;
        if !self.is_fresh(&active) {
            return Some(self.write_refetch(actor, hart, &active));
        }
        let effect = effect(
            &self.parts.memory,
            &self.parts.accesses,
            hart,
            active.seq,
            active.op,
            outcome,
        );
        Some(self.write_retire(actor, hart, &active, effect))
    }

    /// Whether the word of an instruction is the one that memory has at its pc now.
    #[inline(always)]
    fn is_fresh(&self, active: &Active) -> bool
        ensures { result ≡ same_number active.now.word
            (word_now self.now.setup.image (byte_at self.now.setup self.now.past) active.now.pc) }
    {
        active.word == self.code.word_at(active.pc)
    }

    /// Whether the core has this actor.
    fn has_actor(&self, actor: u8) -> bool
        ensures { result ≡ is_actor self.now.setup actor }
    {
        usize::from(actor) < self.config.roles.len()
    }
}
