//! The steps of one turn.

ghost use Rattle.std.specs.Prelude.{◌≡◌, ◌<◌, ◌≤◌, false, if◌then◌else◌, [], IfOk, OnOk};
ghost use Rattle.std.specs.Io.KnownBytes.{Appends};
ghost use Rattle.smt_model.specs.Plain.{is_going_status};
ghost use Rattle.sc_machine.specs.Machine.{InEachState};
ghost use Rattle.sc_machine.specs.Steps.{InEachRun};
ghost use Rattle.report_lines.specs.Lines.{record_line};
ghost use Rattle.address_labels.specs.Labels.{marks_of};
ghost use Rattle.rounds.specs.Steps.{HasMade};

use crate::observer::StepObserver;
use crate::stopped::Broken;
use address_labels::Labels;
use events::Record;
use report_lines::write_record;
use sc_machine::Plain;
use std::io::Write;

/// Makes steps of a hart, as many as `limit` while it goes, and writes the record of each where that is
/// wanted. Before each of them the machine is shown to `observer`. Answers how many it has made.
pub fn take_turn<T: StepObserver, W: Write>(
    machine: &mut Plain,
    hart: u8,
    limit: u64,
    records: bool,
    labels: &Labels<'_>,
    observer: &mut T,
    out: &mut W,
) -> Result<u64, Broken>
    ensures within { IfOk result (λ made. made ≤ limit) }
    ensures made { IfOk result (λ made. InEachRun machine.old (λ setup before. HasMade setup before
        hart made records (marks_of labels.now) (W.contents out.old) (W.contents out.new) machine.new)) }
    ensures stands { IfOk result (λ made. made < limit → InEachState machine.new
        (λ setup s. hart < setup.harts → is_going_status (s.statuses hart) ≡ false)) }
{
    for made in 0..limit {
        observer.before_step(machine);
        if machine.make_room().is_err() {
            return Err(Broken::Memory);
        }
        match machine.step(hart) {
            Ok(record) => show(&record, records, labels, out)?,
            Err(_) => return Ok(made),
        }
    }
    Ok(limit)
}

/// Writes the line of a record where it is wanted.
fn show<W: Write>(
    record: &Record,
    wanted: bool,
    labels: &Labels<'_>,
    out: &mut W,
) -> Result<(), Broken>
    ensures { OnOk result (Appends (W.contents out.old) (W.contents out.new)
        (if wanted then record_line (marks_of labels.now) record.now else [])) }
{
    if !wanted {
        return Ok(());
    }
    match write_record(record, labels, out) {
        Ok(()) => Ok(()),
        Err(_) => Err(Broken::Output),
    }
}
