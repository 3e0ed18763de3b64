ghost use Rattle.std.specs.Prelude.{◌≡◌, ◌≤◌, ◌↔◌, ℕ, [], length, reverse, map, IfOk, IfSome, IfNone, Err};
ghost use Rattle.std.specs.Prelude.{true, false};
ghost use Rattle.core_state.specs.Setup.{setup_of};
ghost use Rattle.history_check.specs.Checking.{IsFirstBroken, IsStoppedAt, past_at};
ghost use Rattle.history_check.specs.declared.checking.Stopped.{Stopped as AnyStopped};
ghost use Rattle.numbers.specs.Sizes.{most_events};
ghost use Rattle.smt_core.specs.Headline.{IsPlainRun};
ghost use Rattle.smt_core.specs.Shown.{HasParts};
ghost use Rattle.smt_laws.specs.Sequential.{IsSequential};
ghost use Rattle.smt_model.specs.Account.{records, open_job_count};
ghost use Rattle.smt_model.specs.Basics.{below};
ghost use Rattle.smt_model.specs.Memory.{output, status};
ghost use Rattle.smt_model.specs.Rules.{is_legal};
ghost use Rattle.smt_model.specs.Setup.{is_accepted};

use elf_image::Image;
use events::Event;
use smt_core::{Account, Config, Core, CoreRefused, Followed, show};
use std::alloc::Global;
use std::marker::Model;

/// Why a list of events isn't accepted.
#[derive(Clone, Copy, PartialEq, Eq, Drop)]
pub enum CheckRefused {
    /// The configuration isn't one of a core, or there are more than `MOST_EVENTS` events.
    BadConfig,
    /// There isn't enough memory.
    Memory,
    /// The event at this place, the first being at 0, isn't allowed, though all before it are. It
    /// breaks this rule, and none of a lower number.
    Event { index: u32, rule: u8 },
}

/// A core that has followed a whole list of events.
#[derive(Drop)]
pub struct Checked {
    core: Core,
}

impl Model for Checked {
    ghost use Rattle.core_state.specs.View.{CoreView};

    ghost Value = { CoreView };

    ghost view = { λ a. a.core };
}

/// Why a core hasn't followed a whole list of events.
#[derive(Drop)]
pub enum Unfollowed {
    /// The configuration isn't one of a core, or there are more than `MOST_EVENTS` events.
    BadConfig,
    /// There isn't enough memory.
    Memory,
    Event(Stopped),
}

/// A core that has followed the events before the one at this place, the first being at 0, which isn't
/// allowed there: it breaks this rule, and none of a lower number.
#[derive(Drop)]
pub struct Stopped {
    pub core: Core,
    pub index: u32,
    pub rule: u8,
}

/// Checks that the events, the oldest first, are a history of the core of this image and this
/// configuration. Refused is the first event that isn't allowed.
pub fn check(
    image: &Image,
    config: Config,
    events: &[Event],
    alloc: Global,
) -> Result<Checked, CheckRefused>
    ensures whole { IfOk result
        (λ checked. checked ≡ record {
          setup = setup_of image.now config;
          limit = length events.now;
          past = reverse events.now;
        }) }
    ensures legal { IfOk result (λ checked. is_legal checked.setup checked.past) }
    ensures agrees { IfOk result HasParts }
    ensures sequential { IfOk result (λ checked. IsSequential checked.setup checked.past) }
    ensures accepted { IfOk result
        (λ checked. is_accepted checked.setup (length events.now) ≡ true) }
    ensures config { (result ≡ Err CheckRefused.BadConfig)
        ↔ (is_accepted (setup_of image.now config) (length events.now) ≡ false) }
    ensures broken { (index rule : ℕ) → result ≡ Err (CheckRefused.Event index rule)
        → IsFirstBroken (setup_of image.now config) events.now index rule }
    ensures illegal { (index rule : ℕ) → result ≡ Err (CheckRefused.Event index rule)
        → is_legal (setup_of image.now config) (reverse events.now) → ⊥ }
{
    match follow_until(image, config, events, alloc) {
        Ok(checked) => Ok(checked),
        Err(Unfollowed::BadConfig) => Err(CheckRefused::BadConfig),
        Err(Unfollowed::Memory) => Err(CheckRefused::Memory),
        Err(Unfollowed::Event(stopped)) => Err(CheckRefused::Event {
            index: stopped.index,
            rule: stopped.rule,
        }),
    }
}

/// The same, and where an event is refused the core that has followed those before it.
pub fn follow_until(
    image: &Image,
    config: Config,
    events: &[Event],
    alloc: Global,
) -> Result<Checked, Unfollowed>
    ensures whole { IfOk result
        (λ checked. checked ≡ record {
          setup = setup_of image.now config;
          limit = length events.now;
          past = reverse events.now;
        }) }
    ensures legal { IfOk result (λ checked. is_legal checked.setup checked.past) }
    ensures agrees { IfOk result HasParts }
    ensures sequential { IfOk result (λ checked. IsSequential checked.setup checked.past) }
    ensures accepted { IfOk result
        (λ checked. is_accepted checked.setup (length events.now) ≡ true) }
    ensures config { (result ≡ Err Unfollowed.BadConfig)
        ↔ (is_accepted (setup_of image.now config) (length events.now) ≡ false) }
    ensures stopped { (stopped : AnyStopped) → result ≡ Err (Unfollowed.Event stopped)
        → IsStoppedAt (setup_of image.now config) events.now stopped }
    ensures illegal { (stopped : AnyStopped) → result ≡ Err (Unfollowed.Event stopped)
        → is_legal (setup_of image.now config) (reverse events.now) → ⊥ }
{
    let Ok(limit) = u32::try_from(events.len()) else {
        return Err(Unfollowed::BadConfig);
    };
    let mut core = match Core::new(image, config, limit, alloc) {
        Ok(core) => core,
        Err(CoreRefused::Config) => return Err(Unfollowed::BadConfig),
        Err(CoreRefused::Memory) => return Err(Unfollowed::Memory),
    };
    match first_broken(&mut core, events) {
        Some((index, rule)) => Err(Unfollowed::Event(Stopped { core, index, rule })),
        None => {
            show(&core);
            Ok(Checked { core })
        }
    }
}

/// The place and the rule of the first event that a core at its beginning can't follow. None where
/// it follows them all.
fn first_broken(core: &mut Core, events: &[Event]) -> Option<(u32, u8)>
    requires new { core.old.past ≡ [] }
    requires room { length events.now ≤ core.old.limit }
    requires few { length events.now ≤ most_events }
    ensures some { IfSome result (λ b. IsFirstBroken core.old.setup events.now b.0 b.1) }
    ensures stopped { IfSome result
        (λ b. core.new ≡ record core.old { past = past_at events.now b.0 }) }
    ensures illegal { IfSome result
        (λ b. is_legal core.old.setup (reverse events.now) → ⊥) }
    ensures none { IfNone result
        (core.new ≡ record core.old { past = reverse events.now }) }
    ensures legal { IfNone result (is_legal core.old.setup (reverse events.now)) }
{
    for (index, event) in events.iter().enumerate() {
        match core.follow(event) {
            Followed::Done => {}
            Followed::Refused(rule) => return Some((index as u32, rule)),
            Followed::Full => unreachable!(),
        }
    }
    None
}

impl Checked {
    /// What the history comes to.
    pub fn account(&self) -> Account<'_>
        ensures records { result.records.now ≡ reverse (records self.now.past) }
        ensures output { result.output.now ≡ output self.now.past }
        ensures statuses { result.statuses.items ≡ map (status self.now.past)
            (below self.now.setup.harts) }
        ensures lent { result.lent ≡ open_job_count self.now.setup self.now.past }
        ensures events { result.events ≡ length self.now.past }
        ensures sequential { IsPlainRun self.now.setup result.records.now result.output.now
            result.statuses.items }
    {
        self.core.account()
    }

    /// The core that has followed the events.
    pub fn core(&self) -> &Core
        ensures { result.now ≡ self.now }
    {
        &self.core
    }
}
