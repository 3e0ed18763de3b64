//! How a trace begins: its version, and of what core a trace of version 2 or 3 says that it is.

ghost use Rattle.std.specs.Prelude.{◌≡◌, ◌≢◌, length, false, IfSome, IfNone, Decides};
ghost use Rattle.event_text.specs.declared.head.LaterVersion.{LaterVersion as AnyVersion};
ghost use Rattle.numbers.specs.Sizes.{are_core_sizes};
ghost use Rattle.event_text.specs.Core.{AreCoreSizes};
ghost use Rattle.event_text.specs.Heads.{head_count, later_header};
ghost use Rattle.event_text.specs.Refusals.{NamesCore};

use arrayvec::ArrayVec;
use events::{Role, copied_roles};
use numbers::sizes::{MOST_ACTORS, are_core_sizes};
use std::marker::Model;
use text_fields::split_field;

/// What a trace of a later version says of its core: harts, extra registers, entries of the issue
/// queue, and the role of each actor. A core may have these sizes.
#[derive(Drop)]
pub struct TraceHeader {
    harts: u8,
    extra: u16,
    queue: u8,
    roles: ArrayVec<Role, MOST_ACTORS>,
}

impl Model for TraceHeader {
    ghost use Rattle.std.specs.Prelude.{◌≡◌, true, length};
    ghost use Rattle.numbers.specs.Sizes.{are_core_sizes};
    ghost use Rattle.event_text.specs.Core.{CoreSizes};

    ghost Value = { CoreSizes };

    ghost view = { λ h.
        record { harts = h.harts; extra = h.extra; queue = h.queue; roles = h.roles.items } };

    ghost invariant = { λ h.
        are_core_sizes h.harts h.extra h.queue (length h.roles.items) ≡ true };
}

impl TraceHeader {
    /// The sizes of a core, or none where no core may have them.
    pub fn new(harts: u8, extra: u16, queue: u8, roles: &[Role]) -> Option<TraceHeader>
        ensures made { IfSome result (λ header. header
            ≡ record { harts = harts; extra = extra; queue = queue; roles = roles.now }) }
        ensures sizes { IfSome result AreCoreSizes }
        ensures none { IfNone result
            (are_core_sizes harts extra queue (length roles.now) ≡ false) }
    {
        if !are_core_sizes(harts, extra, queue, roles.len()) {
            return None;
        }
        Some(TraceHeader {
            harts,
            extra,
            queue,
            roles: copied_roles(roles),
        })
    }

    /// How many harts it has.
    pub fn harts(&self) -> u8
        ensures value { result ≡ self.now.harts }
        ensures sizes { AreCoreSizes self.now }
    {
        self.harts
    }

    /// How many physical registers beside those that its harts begin with.
    pub fn extra(&self) -> u16
        ensures value { result ≡ self.now.extra }
        ensures sizes { AreCoreSizes self.now }
    {
        self.extra
    }

    /// How many entries its issue queue has room for.
    pub fn queue(&self) -> u8
        ensures value { result ≡ self.now.queue }
        ensures sizes { AreCoreSizes self.now }
    {
        self.queue
    }

    /// The role of each actor, by the actor's number.
    pub fn roles(&self) -> &[Role]
        ensures value { result.now ≡ self.now.roles }
        ensures sizes { AreCoreSizes self.now }
    {
        self.roles.as_slice()
    }
}

/// A version whose traces say of what core they are.
#[derive(Clone, Copy, Debug, PartialEq, Eq, Drop)]
pub enum LaterVersion {
    Second,
    /// It has lines of refetches too.
    Third,
}

impl LaterVersion {
    /// The one that a line without its newline names.
    pub(crate) fn named(line: &[u8]) -> Option<LaterVersion>
        ensures some { IfSome result (λ version. line.now ≡ later_header version) }
        ensures none { IfNone result ((version : AnyVersion) → line.now ≢ later_header version) }
    {
        if line == b"smt-trace 2".as_slice() {
            return Some(LaterVersion::Second);
        }
        if line == b"smt-trace 3".as_slice() {
            return Some(LaterVersion::Third);
        }
        None
    }
}

/// Whether the first line of a text names a version whose traces say of what core they are. Any bytes may come.
pub fn names_core(text: &[u8]) -> bool
    ensures { Decides result (NamesCore text.now) }
{
    let (line, _) = split_field(text, b'\n');
    LaterVersion::named(line).is_some()
}

/// How a trace begins.
#[derive(Drop)]
pub enum TraceHead {
    /// A trace of version 1, which doesn't say of what core it is.
    First,
    /// A trace of a later version, of such a core.
    Later(LaterVersion, TraceHeader),
}

impl TraceHead {
    /// How many lines say so, before those of the events.
    pub fn line_count(&self) -> usize
        ensures { result ≡ head_count self.now }
    {
        match self {
            TraceHead::First => 1,
            TraceHead::Later(_, _) => 2,
        }
    }
}
