//! What is said of a configuration.

ghost use Rattle.std.specs.Prelude.{◌≡◌, IfOk};
ghost use Rattle.sim_inputs.specs.Configuration.{with_harts};
ghost use Rattle.explanations.specs.ConfigText.{accepted_config};
ghost use Rattle.explanations.specs.Explained.{IsConfigExplained};
ghost use Rattle.explanations.specs.ConfigRefusal.{IsFaultText};

use crate::config_fault::{hint_for, write_config_fault};
use crate::lines::joined;
use crate::settings_text::write_settings;
use sim_inputs::{ConfigFault, HartCount, Settings, read_config_or_fault};
use std::alloc::{AllocError, Global};

/// What is said of a configuration.
#[derive(Drop)]
pub struct ConfigExplained {
    /// The settings that it makes; none where it is refused.
    pub settings: Option<Settings>,
    /// Lines for a person. The first says whether it is accepted.
    pub text: Vec<u8>,
}

/// Says of a configuration's text which settings it makes, with so many harts in place of its own where that is
/// given, or why it is refused. The settings that are answered are the text's own. Fails only for want of memory.
pub fn explain_config(
    text: &[u8],
    harts: Option<HartCount>,
    alloc: Global,
) -> Result<ConfigExplained, AllocError>
    ensures { IfOk result (IsConfigExplained harts text.now) }
{
    match read_config_or_fault(text, alloc) {
        Ok(settings) => {
            let text = accepted_text(&settings, harts, alloc)?;
            Ok(ConfigExplained {
                settings: Some(settings),
                text,
            })
        }
        Err(fault) => {
            let text = refused_text(&fault, text, alloc)?;
            Ok(ConfigExplained {
                settings: None,
                text,
            })
        }
    }
}

/// What is said where it is accepted.
fn accepted_text(
    settings: &Settings,
    harts: Option<HartCount>,
    alloc: Global,
) -> Result<Vec<u8>, AllocError>
    ensures { IfOk result (λ text. text.items ≡ accepted_config (with_harts harts settings.now)) }
{
    let mut rest = Vec::new(alloc);
    match write_settings(settings, harts, &mut rest) {
        Ok(()) => joined(b"config accepted\n", &rest, alloc),
        Err(_) => Err(AllocError),
    }
}

/// What is said where it is refused for this fault. Fails for want of memory, which is none.
#[tactic(auto, using(crate::proofs::Printed::told_fault))]
fn refused_text(fault: &ConfigFault, text: &[u8], alloc: Global) -> Result<Vec<u8>, AllocError>
    ensures { IfOk result (λ said. IsFaultText text.now fault.now said.items) }
{
    let meant = hint_for(fault, alloc)?;
    let mut rest = Vec::new(alloc);
    match write_config_fault(fault, text, meant, &mut rest) {
        Ok(()) => joined(b"config refused\n", &rest, alloc),
        Err(_) => Err(AllocError),
    }
}
