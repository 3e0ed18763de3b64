//! The numbers behind the events of a history.

ghost use Rattle.std.specs.Prelude.{◌≡◌, ◌<◌, None, true, IfOk, length, reverse};
ghost use Rattle.core_state.specs.Setup.{setup_of};
ghost use Rattle.core_state.specs.View.{grown};
ghost use Rattle.smt_model.specs.Rules.{is_legal, refused};
ghost use Rattle.smt_model.specs.Setup.{is_accepted};
ghost use Rattle.chart_counters.specs.Counters.{AreCountersBetween};

use crate::counters::Counters;
use crate::reading::counters_behind;
use elf_image::Image;
use events::Event;
use smt_core::{Config, Core, CoreRefused, Followed};
use std::alloc::{AllocError, Global};

/// The numbers behind each event of a core's history from the one at place `from` to that at `to`, as far as there
/// are so many: one for each, in their order. A core follows the events up to there, and no further. Errors: want of
/// memory.
pub fn counters_of(
    image: &Image,
    config: Config,
    events: &[Event],
    from: u32,
    to: u32,
    alloc: Global,
) -> Result<Vec<Counters>, AllocError>
    requires accepted { is_accepted (setup_of image.now config) (length events.now) ≡ true }
    requires legal { is_legal (setup_of image.now config) (reverse events.now) }
    ensures { IfOk result
        (λ counters. AreCountersBetween (setup_of image.now config) events.now from to counters.items) }
{
    let end = events.len().min(to as usize + 1);
    let mut core = match Core::new(image, config, end as u32, alloc) {
        Ok(core) => core,
        Err(CoreRefused::Config) => unreachable!(),
        Err(CoreRefused::Memory) => return Err(AllocError),
    };
    let mut counters = Vec::new(alloc);
    for index in 0..end {
        let event = &events[index];
        follow(&mut core, event);
        if from as usize <= index {
            counters.push(counters_behind(&core, event))?;
        }
    }
    Ok(counters)
}

/// Has a core take the event that comes next in its history.
fn follow(core: &mut Core, event: &Event)
    requires room { length core.old.past < core.old.limit }
    requires allowed { refused core.old.setup core.old.past event.now ≡ None }
    ensures { core.new ≡ grown event.now core.old }
{
    match core.follow(event) {
        Followed::Done => {}
        Followed::Refused(_) => unreachable!(),
        Followed::Full => unreachable!(),
    }
}
