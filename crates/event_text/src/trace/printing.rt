//! Printing: the text of events goes out in pieces of many lines. No function here takes memory.

ghost use Rattle.std.specs.Prelude.{◌≡◌, ◌+◌, ◌*◌, ◌≤◌, ◌++◌, false, flat_map, length, OnOk, OnErr};
ghost use Rattle.arrayvec.specs.ArrayString.{array_string_len};
ghost use Rattle.events.specs.Roles.{role_name};
ghost use Rattle.event_text.specs.declared.head.LaterVersion.TheVariants.{Third};
ghost use Rattle.event_text.specs.declared.head.TraceHead.TheVariants.{Later};
ghost use Rattle.event_text.specs.{Heads.head_lines, Line.after_space, Trace.trace_text};
ghost use Rattle.event_text.specs.Sinking.{HasPut, HasPutBut, HasBroken};

use crate::head::TraceHeader;
use crate::print::{push_event, push_number_field, push_small_number_field};
use crate::sink::{Broken, Sink, put_all};
use arrayvec::ArrayString;
use events::{History, Role};
use text_fields::push_ascii;

/// Whole lines that are held back, to go out together: a put may be a call of the system.
type Piece = ArrayString<4096>;

/// The room that any line takes, with the newline that ends it.
const LONGEST: usize = 65;

/// Puts the trace of a history, of version 3 and of such a core, into a sink that hasn't failed, in
/// pieces. It ends at the first put that fails, and puts nothing after it.
pub fn print_trace<S: Sink>(
    header: &TraceHeader,
    history: &History,
    sink: &mut S,
) -> Result<(), Broken>
    requires { S.has_failed sink.old ≡ false }
    ensures printed { OnOk result (HasPut S.written S.has_failed sink.old sink.new
        (trace_text (Later Third header.now) history.now.items)) }
    ensures broken { OnErr result (HasBroken S.written S.has_failed S.puts sink.old sink.new
        (trace_text (Later Third header.now) history.now.items)) }
{
    let mut piece = Piece::new();
    push_head(&mut piece, header);
    for event in history.iter() {
        make_room(&mut piece, sink)?;
        push_event(&mut piece, &event);
        push_ascii(&mut piece, b'\n');
    }
    put_all(piece.as_str().as_bytes(), sink)
}

// Puts the lines that are held back, where another might not fit beside them.
fn make_room<S: Sink>(piece: &mut Piece, sink: &mut S) -> Result<(), Broken>
    requires { S.has_failed sink.old ≡ false }
    ensures room { OnOk result (array_string_len piece.new + 65 ≤ 4096) }
    ensures held { OnOk result
        (HasPutBut S.written S.has_failed sink.old sink.new piece.old.bytes piece.new.bytes) }
    ensures broken { OnErr result
        (HasBroken S.written S.has_failed S.puts sink.old sink.new piece.old.bytes) }
{
    if piece.remaining_capacity() >= LONGEST {
        return Ok(());
    }
    put_all(piece.as_str().as_bytes(), sink)?;
    piece.clear();
    Ok(())
}

/// The most bytes of the lines that say how a trace of version 3 begins.
const LONGEST_HEAD: usize = 262;

/// Room for these lines.
pub(crate) type HeadText = ArrayString<LONGEST_HEAD>;

// Appends the lines that say how a trace of version 3 begins.
pub(crate) fn push_head<const N: usize>(text: &mut ArrayString<N>, header: &TraceHeader)
    requires { array_string_len text.old + 262 ≤ N }
    ensures { text.new.bytes ≡ text.old.bytes ++ head_lines (Later Third header.now) }
{
    text.push_str("smt-trace 3\nconfig");
    push_small_number_field(text, header.harts());
    push_number_field(text, u32::from(header.extra()));
    push_small_number_field(text, header.queue());
    push_roles(text, header.roles());
    push_ascii(text, b'\n');
}

// Appends the names of roles, each behind a space.
fn push_roles<const N: usize>(text: &mut ArrayString<N>, roles: &[Role])
    requires { array_string_len text.old + 7 * length roles.now ≤ N }
    ensures spelled { text.new.bytes ≡ text.old.bytes
        ++ flat_map (λ role. after_space (role_name role)) roles.now }
    ensures length { array_string_len text.new ≤ array_string_len text.old + 7 * length roles.now }
{
    for role in roles {
        push_ascii(text, b' ');
        text.push_str(role.name());
    }
}
