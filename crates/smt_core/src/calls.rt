ghost use Rattle.std.specs.Prelude.{◌≡◌, ◌∷◌, [], ◌<◌, ◌≤◌, ◌↔◌, ◌⊎◌, length, reverse, map, IsTrue};
ghost use Rattle.std.specs.Prelude.{IfSome, IfOk, Err, None, Some, true, false, ℕ, ◌+◌, ◌==◌, ◌&&◌};
ghost use Rattle.std.specs.Prelude.{nat_lt, if◌then◌else◌};
ghost use Rattle.numbers.specs.Sizes.{are_core_sizes, most_actors, most_events, most_harts};
ghost use Rattle.core_parts.specs.Agree.{PartsAgree};
ghost use Rattle.core_state.specs.Setup.{setup_of};
ghost use Rattle.core_state.specs.View.{CoreView};
ghost use Rattle.smt_model.specs.Asks.{AskFetch, AskDecode, AskRename, AskIssue, AskComplete};
ghost use Rattle.smt_model.specs.Asks.{AskRetire};
ghost use Rattle.smt_model.specs.Account.{records, open_job_count, committed_value};
ghost use Rattle.core_state.specs.Listed.{listed};
ghost use Rattle.smt_model.specs.Basics.{below, how_many};
ghost use Rattle.smt_model.specs.Flights.{icount};
ghost use Rattle.smt_model.specs.Picture.{is_free, picture};
ghost use Rattle.smt_model.specs.Registers.{claims};
ghost use Rattle.smt_model.specs.Memory.{byte_at, reserved, status, output, is_going};
ghost use Rattle.shared_memory.specs.Contents.{byte_of, reserved_of};
ghost use Rattle.smt_model.specs.Rules.{is_legal};
ghost use Rattle.smt_core.specs.Headline.{IsPlainRun, IsPlainRegister, IsPlainMemory};
ghost use Rattle.smt_core.specs.Answers.{Answered, IssueAnswered, CompleteAnswered, IsPredicted};
ghost use Rattle.smt_model.specs.Setup.{is_accepted, registers_of};
ghost use Rattle.smt_model.specs.Touched.{looks};

use crate::answer::{Answer, CompleteAnswer, IssueAnswer};
use crate::predict::Predict;
use arrayvec::ArrayVec;
use core_parts::Parts;
use core_state::{CoreRefused, State};
use elf_image::Image;
use events::History;
use exec_units::Done;
use numbers::Phys;
use numbers::sizes::{HART_ROOM, MOST_REGISTERS};
use shared_memory::Memory;
use smt_laws::laws::refines_the_plain_machine;
use smt_model::{Account, Config, Status};
use std::alloc::Global;
use std::marker::Model;

/// A core: each of its calls makes one step of its pipeline, writes the step's event into its
/// history, and answers it.
#[derive(Drop)]
pub struct Core {
    /// On the heap, so that a core that is handed on is one pointer.
    pub(crate) state: Box<State>,
}

impl Model for Core {
    ghost use Rattle.core_state.specs.View.{CoreView};

    ghost Value = { CoreView };

    ghost view = { λ a. a.state.value };
}

impl Core {
    /// The core of an image and a configuration, with room for `limit` events. No later call takes
    /// memory.
    ///
    /// Refused are a configuration or limit that isn't a core's, before any memory is taken.
    pub fn new(
        image: &Image,
        config: Config,
        limit: u32,
        alloc: Global,
    ) -> Result<Core, CoreRefused>
        ensures made { IfOk result
            (λ core. core
            ≡ record { setup = setup_of image.now config; limit = limit; past = [] }) }
        ensures accepted { IfOk result (λ core. is_accepted core.setup limit ≡ true) }
        ensures refused { (result ≡ Err CoreRefused.Config)
            ↔ (is_accepted (setup_of image.now config) limit ≡ false) }
    {
        match State::new(image, config, limit, alloc) {
            Ok(state) => Ok(Core { state }),
            Err(CoreRefused::Config) => Err(CoreRefused::Config),
            Err(CoreRefused::Memory) => Err(CoreRefused::Memory),
        }
    }

    /// Fetches the next word of the hart to choose, and goes on where the predictor guesses. Where
    /// the code has no word there, the predictor isn't asked, and the pc behind is predicted.
    #[inline(always)]
    pub fn fetch<P: Predict>(&mut self, actor: u8, predict: &mut P) -> Answer
        ensures answered { Answered (AskFetch actor) self.old result self.new }
        ensures predicted { IsPredicted P.predicts predict.old result predict.new }
    {
        if self.state.is_full() {
            return Answer::Full;
        }
        let Some(point) = self.state.next_to_fetch(actor) else {
            return Answer::Idle;
        };
        let predicted = match point.word {
            Some(word) => predict.predict(point.hart, point.pc, word),
            None => point.pc.wrapping_add(4),
        };
        Answer::Done(self.state.fetch(actor, point, predicted))
    }

    /// Decodes hart `hart`'s oldest fetched instruction.
    #[inline(always)]
    pub fn decode(&mut self, actor: u8, hart: u8) -> Answer
        ensures { Answered (AskDecode actor hart) self.old result self.new }
    {
        if self.state.is_full() {
            return Answer::Full;
        }
        match self.state.decode(actor, hart) {
            Some(event) => Answer::Done(event),
            None => Answer::Idle,
        }
    }

    /// Renames hart `hart`'s oldest decoded instruction.
    #[inline(always)]
    pub fn rename(&mut self, actor: u8, hart: u8) -> Answer
        ensures { Answered (AskRename actor hart) self.old result self.new }
    {
        if self.state.is_full() {
            return Answer::Full;
        }
        match self.state.rename(actor, hart) {
            Some(event) => Answer::Done(event),
            None => Answer::Idle,
        }
    }

    /// Issues the oldest ready instruction of the actor's kind of unit, as a job to work.
    #[inline(always)]
    pub fn issue(&mut self, actor: u8) -> IssueAnswer
        ensures { IssueAnswered actor self.old result self.new }
    {
        if self.state.is_full() {
            return IssueAnswer::Full;
        }
        match self.state.issue(actor) {
            Some((job, event)) => IssueAnswer::Job(job, event),
            None => IssueAnswer::Idle,
        }
    }

    /// Takes back a job that was worked. It is spent in each case.
    pub fn complete(&mut self, actor: u8, done: Done) -> CompleteAnswer
        ensures { CompleteAnswered actor done.job self.old result self.new }
    {
        let answered = self.complete_by(actor, &done);
        done.abandon();
        answered
    }

    #[inline(always)]
    fn complete_by(&mut self, actor: u8, done: &Done) -> CompleteAnswer
        ensures { CompleteAnswered actor done.now.job self.old result self.new }
    {
        if self.state.is_full() {
            return CompleteAnswer::Full;
        }
        match self.state.complete(actor, done) {
            Some(event) => CompleteAnswer::Done(event),
            None => CompleteAnswer::Stranger,
        }
    }

    /// Retires hart `hart`'s oldest instruction in flight, or fetches it again, where memory has another
    /// word there now.
    #[inline(always)]
    pub fn retire(&mut self, actor: u8, hart: u8) -> Answer
        ensures { Answered (AskRetire actor hart) self.old result self.new }
    {
        if self.state.is_full() {
            return Answer::Full;
        }
        match self.state.retire(actor, hart) {
            Some(event) => Answer::Done(event),
            None => Answer::Idle,
        }
    }

    /// What the history comes to.
    pub fn account(&self) -> Account<'_>
        ensures records { result.records.now ≡ reverse (records self.now.past) }
        ensures output { result.output.now ≡ output self.now.past }
        ensures statuses { result.statuses.items ≡ map (status self.now.past)
            (below self.now.setup.harts) }
        ensures lent { result.lent ≡ open_job_count self.now.setup self.now.past }
        ensures events { result.events ≡ length self.now.past }
        ensures sequential { IsPlainRun self.now.setup result.records.now result.output.now
            result.statuses.items }
    {
        // Its contract, the headline, speaks of every legal history, so of this one.
        refines_the_plain_machine();
        Account {
            records: self.state.records(),
            output: self.state.output(),
            statuses: self.statuses(),
            lent: self.state.lent(),
            events: self.history().len() as u32,
        }
    }

    /// How many loads with an rd other than x0 have retired without stopping and looked again, since
    /// some write touched their bytes between their completion and their retirement.
    pub fn looks(&self) -> u32
        ensures { result ≡ looks self.now.past }
    {
        self.state.looks()
    }

    /// What hart `hart`'s register `register` holds as its retired instructions leave it; none
    /// where there is no such hart or register.
    pub fn register(&self, hart: u8, register: u8) -> Option<u32>
        ensures value { result
            ≡ (if nat_lt hart self.now.setup.harts && nat_lt register 32
            then committed_value self.now.setup self.now.past hart register else None) }
        ensures sequential { IfSome result (IsPlainRegister self.now hart register) }
    {
        refines_the_plain_machine();
        // The history is legal: that is a clause of this call.
        let _events = self.history();
        self.state.register(hart, register)
    }

    /// The memory as the retired instructions leave it: its bytes, and the word that each hart has
    /// reserved.
    pub fn memory(&self) -> &Memory
        ensures image { result.now.image ≡ self.now.setup.image }
        ensures bytes { (addr : ℕ)
            → byte_of result.now addr ≡ byte_at self.now.setup self.now.past addr }
        ensures reserved { (h : ℕ) → reserved_of result.now h ≡ reserved self.now.past h }
        ensures sequential { IsPlainMemory self.now result.now }
    {
        refines_the_plain_machine();
        // The history is legal: that is a clause of this call.
        let _events = self.history();
        self.state.memory()
    }

    /// How many harts there are, 1 to `MOST_HARTS`.
    pub fn harts(&self) -> u8
        ensures harts { result ≡ self.now.setup.harts }
        ensures some { 0 < result }
        ensures few { result ≤ most_harts }
    {
        self.state.harts()
    }

    /// How hart `hart` stands; none where there is no such hart.
    pub fn status(&self, hart: u8) -> Option<Status>
        ensures { result
            ≡ (if nat_lt hart self.now.setup.harts then Some (status self.now.past hart)
            else None) }
    {
        self.state.status(hart)
    }

    /// How many harts are going.
    pub fn going(&self) -> u8
        ensures { result ≡ how_many (is_going self.now.past) (below self.now.setup.harts) }
    {
        let mut going = 0;
        for hart in 0..self.harts() {
            if self.is_going(hart) {
                going += 1;
            }
        }
        going
    }

    fn is_going(&self, hart: u8) -> bool
        requires { hart < self.now.setup.harts }
        ensures { result ≡ is_going self.now.past hart }
    {
        matches!(self.status(hart), Some(Status::Going))
    }

    /// How many instructions of hart `hart` are in decode, rename and the issue queue (ICOUNT);
    /// none where there is no such hart.
    pub fn icount(&self, hart: u8) -> Option<u32>
        ensures { result
            ≡ (if nat_lt hart self.now.setup.harts then Some (icount self.now.past hart)
            else None) }
    {
        self.state.icount(hart)
    }

    /// The free physical registers, rising. Each register of the core is here once, or claimed
    /// once: by an instruction in flight or by a register of a hart.
    pub fn free_registers(&self) -> ArrayVec<Phys, MOST_REGISTERS>
        ensures free { result.items ≡ listed (is_free self.now.setup self.now.past) }
        ensures once { (p : ℕ) → p < registers_of self.now.setup
            → claims self.now.setup self.now.past p + how_many (λ x. x == p) result.items ≡ 1 }
    {
        self.state.free_registers()
    }

    /// How each hart stands.
    fn statuses(&self) -> ArrayVec<Status, HART_ROOM>
        ensures { result.items ≡ map (status self.now.past) (below self.now.setup.harts) }
    {
        let mut statuses = ArrayVec::new();
        for hart in 0..self.state.harts() {
            statuses.push(self.state.status(hart).unwrap());
        }
        statuses
    }

    /// The events so far.
    pub fn history(&self) -> &History
        ensures events { reverse result.now.items ≡ self.now.past }
        ensures legal { is_legal self.now.setup self.now.past }
        ensures within { length result.now.items ≤ self.now.limit }
        ensures small { self.now.limit ≤ most_events }
        ensures actors { length self.now.setup.roles ≤ most_actors }
    {
        self.state.history()
    }

    /// What the core holds, for who prints it: its parts, and how many physical registers it has.
    pub fn parts(&self) -> (&Parts, u32)
        ensures agrees { PartsAgree (picture self.now.setup self.now.past) result.0.now }
        ensures registers { result.1 ≡ registers_of self.now.setup }
        ensures harts { length result.0.now.harts.items ≡ self.now.setup.harts }
        ensures queue { result.0.now.queue.size ≡ self.now.setup.queue }
    {
        self.state.parts()
    }

    /// What the core was made from, beside its image.
    pub fn config(&self) -> &Config
        ensures value { self.now.setup ≡ setup_of self.now.setup.image result.now }
        ensures sizes { are_core_sizes result.now.harts result.now.extra result.now.queue
            (length result.now.roles.items) ≡ true }
    {
        self.state.config()
    }

    /// Whether the history has as many events as it may have.
    pub fn is_full(&self) -> bool
        ensures full { IsTrue result → length self.now.past ≡ self.now.limit }
        ensures room { result ≡ false → length self.now.past < self.now.limit }
    {
        self.state.is_full()
    }

    /// Whether the core was made from this image and this configuration.
    pub fn is_of(&self, image: &Image, config: &Config) -> bool
        ensures { IsTrue result ↔ (self.now.setup ≡ setup_of image.now config.now) }
    {
        self.state.is_of(image, config)
    }
}
