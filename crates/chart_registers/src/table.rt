//! The registers of each instruction of a history.

ghost use Rattle.std.specs.Prelude.{◌≡◌, ◌<◌, Some, None, true, IfOk, IfSome, OnOk, ◌∷◌, length, reverse, set};
ghost use Rattle.core_state.specs.Setup.{setup_of};
ghost use Rattle.core_state.specs.View.{grown};
ghost use Rattle.smt_model.specs.Rules.{is_legal, refused};
ghost use Rattle.smt_model.specs.Setup.{is_accepted};
ghost use Rattle.chart_registers.specs.Registers.{AreRegisters};
ghost use Rattle.chart_registers.specs.Finding.{AreHolders, HasRoom, holders_with};

use crate::finding::registers_by;
use crate::registers::Registers;
use elf_image::Image;
use events::Event;
use numbers::sizes::MOST_REGISTERS;
use numbers::{Phys, Seq};
use smt_core::{Config, Core, CoreRefused, Followed};
use std::alloc::{AllocError, Global};

/// The registers of each instruction that was fetched in a core's history, by rising number; none of one that wasn't
/// renamed. A core follows the events once. Errors: want of memory.
pub fn registers_of(
    image: &Image,
    config: Config,
    events: &[Event],
    alloc: Global,
) -> Result<Vec<Option<Registers>>, AllocError>
    requires accepted { is_accepted (setup_of image.now config) (length events.now) ≡ true }
    requires legal { is_legal (setup_of image.now config) (reverse events.now) }
    ensures { IfOk result (λ table. AreRegisters (reverse events.now) table.items) }
{
    let mut core = match Core::new(image, config, events.len() as u32, alloc) {
        Ok(core) => core,
        Err(CoreRefused::Config) => unreachable!(),
        Err(CoreRefused::Memory) => return Err(AllocError),
    };
    let mut holders = vec![in alloc; None; MOST_REGISTERS]?;
    let mut table = Vec::new(alloc);
    for index in 0..events.len() {
        let event = &events[index];
        note(&core, event, holders.as_mut_slice(), &mut table)?;
        follow(&mut core, event);
    }
    Ok(table)
}

/// Notes what an event that comes next in a core says: of what is fetched nothing yet, and of what is renamed its
/// registers. The holders are those of the physical registers.
fn note(
    core: &Core,
    event: &Event,
    holders: &mut [Option<Seq>],
    table: &mut Vec<Option<Registers>>,
) -> Result<(), AllocError>
    requires legal { is_legal core.now.setup core.now.past }
    requires allowed { refused core.now.setup core.now.past event.now ≡ None }
    requires holders { AreHolders core.now.past holders.old }
    requires room { HasRoom core.now.setup holders.old }
    requires table { AreRegisters core.now.past table.old.items }
    ensures holders { OnOk result (AreHolders (event.now ∷ core.now.past) holders.new) }
    ensures room { OnOk result (length holders.new ≡ length holders.old) }
    ensures table { OnOk result (AreRegisters (event.now ∷ core.now.past) table.new.items) }
{
    match *event {
        Event::Fetch { .. } => {
            table.push(None)?;
            Ok(())
        }
        Event::Rename { actor, seq, phys } => {
            let found = registers_by(core, holders, actor, seq, phys);
            set_registers(table.as_mut_slice(), seq, found);
            set_holder(holders, phys, seq);
            Ok(())
        }
        _ => Ok(()),
    }
}

fn set_registers(table: &mut [Option<Registers>], seq: Seq, found: Registers)
    requires { seq < length table.old }
    ensures { table.new ≡ set table.old seq (Some found) }
{
    table[seq as usize] = Some(found);
}

fn set_holder(holders: &mut [Option<Seq>], phys: Option<Phys>, seq: Seq)
    requires { IfSome phys (λ p. p < length holders.old) }
    ensures { holders.new ≡ holders_with phys seq holders.old }
{
    if let Some(physical) = phys {
        holders[usize::from(physical)] = Some(seq);
    }
}

/// Has a core take the event that comes next in its history.
fn follow(core: &mut Core, event: &Event)
    requires room { length core.old.past < core.old.limit }
    requires allowed { refused core.old.setup core.old.past event.now ≡ None }
    ensures { core.new ≡ grown event.now core.old }
{
    match core.follow(event) {
        Followed::Done => {}
        Followed::Refused(_) => unreachable!(),
        Followed::Full => unreachable!(),
    }
}
