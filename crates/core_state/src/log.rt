ghost use Rattle.std.specs.Prelude.{◌≡◌, ◌∷◌, ◌++◌, [], ◌<◌, length, vec_len, vec_capacity};
ghost use Rattle.smt_model.specs.Plain.{output_after};

use events::{Event, History};

/// Writes an event into the history, which has room for it.
#[inline(always)]
pub fn append(history: &mut History, event: &Event)
    requires { length history.old.items < history.old.limit }
    ensures { history.new ≡ record history.old { items = history.old.items ++ event.now ∷ [] } }
{
    history.push(*event).unwrap();
}

/// Puts out a byte, where there is one. There is room for it.
pub fn put_out(output: &mut Vec<u8>, byte: Option<u8>)
    requires { vec_len output.old < vec_capacity output.old }
    ensures items { output.new.items ≡ output_after byte output.old.items }
    ensures capacity { vec_capacity output.new ≡ vec_capacity output.old }
{
    if let Some(byte) = byte {
        output.push_reserved(byte);
    }
}
