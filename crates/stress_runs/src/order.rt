ghost use Rattle.std.specs.Prelude.{◌≡◌, ◌+◌, ◌≤◌, ◌++◌, false, map, OnOk, OnErr, true};
ghost use Rattle.arrayvec.specs.ArrayString.{array_string_len};
ghost use Rattle.event_text.specs.Sinking.{HasPut, HasPutBut};
ghost use Rattle.stress_runs.specs.Kept.{order_line, order_text};

use arrayvec::ArrayString;
use event_text::{Broken, Sink, put_all};
use events::Record;
use text_fields::{push_ascii, push_decimal};

/// Whole lines that are held back, to go out together: a put may be a call of the system.
type Piece = ArrayString<4096>;

/// The room that any line takes, with the newline that ends it.
const LONGEST: usize = 4;

/// Puts the order of the harts of some records into a sink that hasn't failed, a line for each. It
/// ends at the first put that fails, and puts nothing after it.
pub(crate) fn put_order<S: Sink>(records: &[Record], sink: &mut S) -> Result<(), Broken>
    requires { S.has_failed sink.old ≡ false }
    ensures put { OnOk result (HasPut S.written S.has_failed sink.old sink.new
        (order_text (map (λ r. r.hart) records.now))) }
    ensures broken { OnErr result (S.has_failed sink.new ≡ true) }
{
    let mut piece = Piece::new();
    for retired in records {
        make_room(&mut piece, sink)?;
        push_line(&mut piece, retired.hart);
    }
    put_all(piece.as_str().as_bytes(), sink)
}

// Puts the lines that are held back, where another might not fit beside them.
fn make_room<S: Sink>(piece: &mut Piece, sink: &mut S) -> Result<(), Broken>
    requires { S.has_failed sink.old ≡ false }
    ensures room { OnOk result (array_string_len piece.new + 4 ≤ 4096) }
    ensures held { OnOk result
        (HasPutBut S.written S.has_failed sink.old sink.new piece.old.bytes piece.new.bytes) }
    ensures broken { OnErr result (S.has_failed sink.new ≡ true) }
{
    if piece.remaining_capacity() >= LONGEST {
        return Ok(());
    }
    put_all(piece.as_str().as_bytes(), sink)?;
    piece.clear();
    Ok(())
}

fn push_line(piece: &mut Piece, hart: u8)
    requires { array_string_len piece.old + 4 ≤ 4096 }
    ensures { piece.new.bytes ≡ piece.old.bytes ++ order_line hart }
{
    push_decimal(piece, hart);
    push_ascii(piece, b'\n');
}
