//! One of many runs: a core that is asked by a thread for each actor.

ghost use Rattle.core_commands.specs.Making.{IsRunAnswer};

use crate::run::run_image;
use actors::Gate;
use command_parts::Refused;
use elf_image::Image;
use sim_inputs::Settings;
use smt_core::{Core, Finished, Predict};
use std::alloc::Global;
use std::sync::Wait;
use std::thread::Threads;

/// Runs the core of an image, with a thread for each actor of the configuration, and hands back that core. Refused as
/// that of `perform_run` is.
pub fn make_run<G: Gate + Sync, P: Predict + Copy + Send, R: Threads + Wait + Sync>(
    rt: &R,
    image: &Image,
    settings: &Settings,
    gate: &G,
    predict: P,
    alloc: Global,
) -> Result<Core, Refused>
    ensures { IsRunAnswer settings.now image.now result }
{
    match run_image(rt, image, settings, gate, predict, alloc) {
        Ok(finished) => {
            let Finished { core, .. } = finished;
            Ok(core)
        }
        Err(refused) => Err(refused),
    }
}
