//! The line of a reply, appended to the lines that are held back.

ghost use Rattle.std.specs.Prelude.{◌≡◌, ◌+◌, ◌≤◌, ◌++◌, IfSome};
ghost use Rattle.arrayvec.specs.ArrayString.{array_string_len};
ghost use Rattle.core_lock.specs.Asks.{event_in};
ghost use Rattle.scripts.specs.Session.{done_line, reply_line, job_in};

use crate::session::lines::Lines;
use core_lock::Said;
use event_text::push_event;
use events::Event;
use smt_core::Job;
use text_fields::push_ascii;

/// Appends the line of a reply, and gives the job that came with it.
#[inline(always)]
pub fn push_reply(lines: &mut Lines, said: Said) -> Option<Job>
    requires room { array_string_len lines.old + 70 ≤ 3072 }
    ensures job { result ≡ job_in said }
    ensures line { lines.new.bytes ≡ lines.old.bytes ++ reply_line said }
    ensures length { array_string_len lines.new ≤ array_string_len lines.old + 70 }
{
    match said {
        Said::Event(event) => {
            push_done(lines, &event);
            None
        }
        Said::Job(job, event) => {
            push_done(lines, &event);
            Some(job)
        }
        Said::Idle => {
            lines.push_str("idle\n");
            None
        }
        Said::Stranger => {
            lines.push_str("stranger\n");
            None
        }
        Said::Full => {
            lines.push_str("full\n");
            None
        }
    }
}

/// Appends the line of a step that was made.
fn push_done(lines: &mut Lines, event: &Event)
    requires room { array_string_len lines.old + 70 ≤ 3072 }
    ensures line { lines.new.bytes ≡ lines.old.bytes ++ done_line event.now }
    ensures length { array_string_len lines.new ≤ array_string_len lines.old + 70 }
{
    lines.push_str("done ");
    push_event(lines, event);
    push_ascii(lines, b'\n');
}
