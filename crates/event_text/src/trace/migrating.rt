//! Migrating: the text of version 3 that has the events of a text of version 1 or 2.

ghost use Rattle.std.specs.Prelude.{◌≡◌, ◌++◌, List, Decides, Err, IfOk, IfErr, MatchResult};
ghost use Rattle.std.specs.Prelude.{unwrap_or};
ghost use Rattle.events.specs.declared.event.Event.{Event as AnyEvent};
ghost use Rattle.event_text.specs.declared.head.LaterVersion.TheVariants.{Third};
ghost use Rattle.event_text.specs.declared.head.TraceHead.{TraceHead as AnyHead};
ghost use Rattle.event_text.specs.declared.head.TraceHead.TheVariants.{Later};
ghost use Rattle.event_text.specs.declared.trace.migrating.MigrateRefused.TheVariants as migrate;
ghost use Rattle.event_text.specs.Heads.{newest_head, told_core};
ghost use Rattle.event_text.specs.Refusals.{IsMigrated, IsNewest, IsTelling, IsUnmigrated};
ghost use Rattle.event_text.specs.Trace.{trace_text, AreWithin, IsHead};

use crate::head::TraceHeader;
use crate::trace::printing::{HeadText, push_head};
use crate::trace::reading::{TraceRefused, read_trace};
use std::alloc::{AllocError, Global};
use text_fields::split_field;
use thiserror::Error;

/// Why a text isn't migrated.
#[derive(Clone, Copy, Debug, PartialEq, Eq, Drop, Error)]
pub enum MigrateRefused {
    /// It names version 3 already.
    #[error("trace version refused")]
    Version,
    /// It is no trace: the line, from 1, is the first that breaks a rule, and the rule the first
    /// that it breaks, as of `TraceRefused`.
    #[error("trace line {line} refused {rule}")]
    Line { line: usize, rule: u8 },
    #[error("memory")]
    Memory,
}

impl From<AllocError> for MigrateRefused {
    ghost from_gives = { λ _ e. e ≡ migrate.Memory };

    fn from(_error: AllocError) -> Self {
        MigrateRefused::Memory
    }
}

/// The trace of version 3 that has the events of an older one, and says that they are of the core
/// of which that says so; where it says of none, of such a core. Any bytes may come. Whether the
/// text names version 3 is looked at first.
pub fn migrate(text: &[u8], header: &TraceHeader, alloc: Global) -> Result<Vec<u8>, MigrateRefused>
    ensures migrated { IfOk result (λ new. IsMigrated text.now header.now new.items) }
    ensures refused { IfErr result (IsUnmigrated text.now) }
    ensures version { IsNewest text.now → result ≡ Err migrate.Version }
    ensures back { (head : AnyHead) (events : List AnyEvent) → IsHead head → AreWithin head events
        → text.now ≡ trace_text head events → (IsNewest text.now → ⊥)
        → MatchResult result (λ new. new.items
        ≡ trace_text (Later Third (unwrap_or (told_core head) header.now)) events)
        (λ refused. refused ≡ migrate.Memory) }
{
    if is_newest(text) {
        return Err(MigrateRefused::Version);
    }
    let told = check_older(text, alloc)?;
    let (_, lines) = split_field(text, b'\n');
    join(&newest_head(told, header), lines, alloc)
}

// Whether the first line of a text names version 3.
fn is_newest(text: &[u8]) -> bool
    ensures { Decides result (IsNewest text.now) }
{
    let (line, _) = split_field(text, b'\n');
    line == b"smt-trace 3".as_slice()
}

// A text that doesn't name version 3 is a trace. The answer is whether it says of its core.
fn check_older(text: &[u8], alloc: Global) -> Result<bool, MigrateRefused>
    requires { IsNewest text.now → ⊥ }
    ensures checked { IfOk result (IsTelling text.now) }
    ensures refused { IfErr result (IsUnmigrated text.now) }
{
    match read_trace(text, alloc) {
        Ok(trace) => Ok(trace.header().is_some()),
        Err(TraceRefused::Line { line, rule }) => Err(MigrateRefused::Line { line, rule }),
        Err(TraceRefused::Memory) => Err(MigrateRefused::Memory),
    }
}

// The line that names version 3, and behind it that of this core, where none is told.
fn newest_head(told: bool, header: &TraceHeader) -> HeadText
    ensures { result.bytes ≡ newest_head told header.now }
{
    let mut head = HeadText::new();
    if told {
        head.push_str("smt-trace 3\n");
    } else {
        push_head(&mut head, header);
    }
    head
}

// These lines behind others.
fn join(head: &HeadText, lines: &[u8], alloc: Global) -> Result<Vec<u8>, MigrateRefused>
    ensures made { IfOk result (λ new. new.items ≡ head.now.bytes ++ lines.now) }
    ensures memory { IfErr result (λ refused. refused ≡ migrate.Memory) }
{
    let mut new = Vec::with_capacity(alloc, head.len() + lines.len())?;
    new.extend_from_slice(head.as_str().as_bytes())?;
    new.extend_from_slice(lines)?;
    Ok(new)
}
