//! Whose each instruction is.

ghost use Rattle.std.specs.Prelude.{◌≡◌, ◌++◌, reverse, IfOk, OnOk};
ghost use Rattle.history_scripts.specs.Lines.{hart_in, harts_in};

use events::Event;
use std::alloc::{AllocFailed, Global};

/// The hart of each instruction of a history, by its number. Errors: want of memory.
pub fn harts_in(events: &[Event], alloc: Global) -> Result<Vec<u8>, AllocFailed<u8>>
    ensures { IfOk result (λ harts. harts.items ≡ harts_in (reverse events.now)) }
{
    let mut harts = Vec::new(alloc);
    for event in events {
        push_hart(&mut harts, event)?;
    }
    Ok(harts)
}

/// The hart of an instruction as it is fetched.
fn push_hart(harts: &mut Vec<u8>, event: &Event) -> Result<(), AllocFailed<u8>>
    ensures { OnOk result (harts.new.items ≡ harts.old.items ++ hart_in event.now) }
{
    match *event {
        Event::Fetch { hart, .. } => harts.push(hart),
        _ => Ok(()),
    }
}
