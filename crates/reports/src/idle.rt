//! How many asks of each actor were answered idle, a line each.

ghost use Rattle.std.specs.Prelude.{◌≡◌, OnOk};
ghost use Rattle.std.specs.Io.KnownBytes.{Appends};
ghost use Rattle.reports.specs.Counts.{idle_line, idle_lines};

use arrayvec::ArrayString;
use report_lines::report_count;
use std::io;
use std::io::Write;
use text_fields::push_decimal;

/// Writes a line for each actor, in order, with how many of its asks were answered idle.
pub fn report_idle<W: Write>(idle: &[u64], out: &mut W) -> io::Result<()>
    ensures { OnOk result
        (Appends (W.contents out.old) (W.contents out.new) (idle_lines idle.now)) }
{
    for (actor, count) in idle.iter().enumerate() {
        write_actor(actor, *count, out)?;
    }
    Ok(())
}

fn write_actor<W: Write>(actor: usize, count: u64, out: &mut W) -> io::Result<()>
    ensures { OnOk result
        (Appends (W.contents out.old) (W.contents out.new) (idle_line actor count)) }
{
    let mut name = ArrayString::<32>::new();
    name.push_str("idle-");
    push_decimal(&mut name, actor);
    report_count(name.as_str(), count, out)
}
