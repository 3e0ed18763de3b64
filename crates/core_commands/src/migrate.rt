//! The command `migrate`: the trace of version 3 that has the events of an older one.

ghost use Rattle.std.specs.Prelude.{◌≡◌, ◌⊎◌, IfOk, IfErr, OnOk, true, false};
ghost use Rattle.command_parts.specs.declared.refused.Refused.TheVariants.{Output};
ghost use Rattle.event_text.specs.{Core.AreCoreSizes, Refusals.IsMigrated, Sinking.HasPut};
ghost use Rattle.core_commands.specs.Migrate.{sizes_by, IsMigrateRefusal, MigrateComesTo};

use command_parts::{Refused, put_text};
use event_text::{MigrateRefused, TraceHeader, migrate};
use sim_inputs::Settings;
use smt_model::Config;
use std::alloc::Global;
use stress_runs::EndFiles;

/// Puts the trace of version 3 that has the events of an older one into `file`; it says that they
/// are of the core of which that says so, or else of one of these settings. Answers the exit
/// status, 0.
///
/// Refused are, in this order, a text that names version 3, and the first line of the trace that
/// breaks a rule; then nothing is put. So it is where there isn't enough memory: the whole trace is
/// made before any of it is put. `Output` is answered where `file` failed.
#[inline(never)]
pub fn perform_migrate<S: EndFiles>(
    text: &[u8],
    settings: &Settings,
    file: &mut S,
    alloc: Global,
) -> Result<u8, Refused>
    requires sizes { AreCoreSizes (sizes_by settings.now.config) }
    requires works { S.has_failed file.old ≡ false }
    requires finished { S.is_finished file.old ≡ true }
    ensures refused { IfErr result (IsMigrateRefusal settings.now text.now) }
    ensures ended { IfOk result (MigrateComesTo settings.now text.now
        (HasPut S.written S.has_failed file.old file.new)) }
    ensures left { IfErr result (λ why. (why ≡ Output) ⊎ (file.new ≡ file.old)) }
    ensures unbroken { OnOk result (S.has_failed file.new ≡ false) }
    ensures finished { OnOk result (S.is_finished file.new ≡ true) }
{
    let new = migrated(text, settings, alloc)?;
    put_text(new.as_slice(), file)
}

/// The text of the trace of version 3.
fn migrated(text: &[u8], settings: &Settings, alloc: Global) -> Result<Vec<u8>, Refused>
    requires { AreCoreSizes (sizes_by settings.now.config) }
    ensures migrated { IfOk result
        (λ new. IsMigrated text.now (sizes_by settings.now.config) new.items) }
    ensures refused { IfErr result (IsMigrateRefusal settings.now text.now) }
{
    let header = header_of(&settings.config);
    match migrate(text, &header, alloc) {
        Ok(new) => Ok(new),
        Err(MigrateRefused::Version) => Err(Refused::Version),
        Err(MigrateRefused::Line { line, rule }) => Err(Refused::Trace { line, rule }),
        Err(MigrateRefused::Memory) => Err(Refused::Memory),
    }
}

/// What a trace says of a core of this configuration.
fn header_of(config: &Config) -> TraceHeader
    requires { AreCoreSizes (sizes_by config.now) }
    ensures { result ≡ sizes_by config.now }
{
    let roles = config.roles.as_slice();
    match TraceHeader::new(config.harts, config.extra, config.queue, roles) {
        Some(header) => header,
        None => unreachable!(),
    }
}
