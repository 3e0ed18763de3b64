//! The text of a trace: read here, printed into a sink, and migrated to the newest version.

mod config;
mod migrating;
mod printing;
mod reading;

ghost use Rattle.std.specs.Prelude.{◌≡◌, Some, IfSome, IfNone};
ghost use Rattle.event_text.specs.declared.head.TraceHead.TheVariants.{First};
ghost use Rattle.event_text.specs.Heads.{told_core};

use crate::head::{TraceHead, TraceHeader};
pub use config::read_config_line;
use events::Event;
pub use migrating::{MigrateRefused, migrate};
pub use printing::print_trace;
pub use reading::{TraceRefused, read_trace};
use std::marker::Model;

/// A text that was read: how it begins, and its events. A clause sees both.
#[derive(Drop)]
pub struct Trace {
    head: TraceHead,
    events: Vec<Event>,
}

impl Model for Trace {
    ghost use Rattle.event_text.specs.Contents.{TraceContent};

    ghost Value = { TraceContent };

    ghost view = { λ trace. record { head = trace.head; events = trace.events.items } };
}

impl Trace {
    /// How it begins.
    pub fn head(&self) -> &TraceHead
        ensures { result.now ≡ self.now.head }
    {
        &self.head
    }

    /// What it says of its core, which one of version 1 doesn't.
    pub fn header(&self) -> Option<&TraceHeader>
        ensures some { IfSome result (λ header. told_core self.now.head ≡ Some header.now) }
        ensures none { IfNone result (self.now.head ≡ First) }
    {
        match &self.head {
            TraceHead::First => None,
            TraceHead::Later(_, header) => Some(header),
        }
    }

    /// Its events, the oldest first.
    pub fn events(&self) -> &[Event]
        ensures { result.now ≡ self.now.events }
    {
        self.events.as_slice()
    }
}
