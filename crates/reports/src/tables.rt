//! The core's tables: what each of its parts holds, in lines for people to read.

ghost use Rattle.std.specs.Prelude.{◌≡◌, ◌+◌, ◌<◌, ◌≤◌, ◌++◌, OnOk, codes, flat_map, length};
ghost use Rattle.std.specs.Io.KnownBytes.{Appends};
ghost use Rattle.numbers.specs.Sizes.{most_harts};
ghost use Rattle.smt_model.specs.Basics.{below};
ghost use Rattle.text_fields.specs.Printing.{Prints};
ghost use Rattle.report_lines.specs.Lines.{status_text};
ghost use Rattle.reports.specs.Tables.{AreTablesOf, active_text, committed_at, committed_line, end_text, entry_text};
ghost use Rattle.reports.specs.Tables.{flight_line, free_line, hart_at, hart_text, harts_text, job_text, jobs_line};
ghost use Rattle.reports.specs.Tables.{committed_text, latches_text, mapped_text, maps_text, place_text};
ghost use Rattle.reports.specs.Tables.{latch_line, map_line, mapped_at, phys_text, queue_line, register_line};
ghost use Rattle.reports.specs.Tables.{number_text, registers_text, slot_text, stage_text, standing_line, tables_text};
ghost use Rattle.reports.specs.Tables.{value_text, word_text};
ghost use Rattle.text_fields.specs.Each.{each_from};
ghost use Rattle.text_fields.specs.Spelling.{hex, optional};
ghost use Rattle.arrayvec.specs.ArrayString.{array_string_len};

use arrayvec::ArrayString;
use core_parts::{HartState, OpenJob, Parts, RegisterFile, Slot, count_jobs, registers_in};
use free_list::FreeList;
use issue_queue::{Entry, SlabQueue};
use numbers::Phys;
use numbers::sizes::MOST_REGISTERS;
use rename_map::HartMaps;
use retire_squash::{Active, ActiveList, Stage};
use smt_core::Core;
use smt_model::Status;
use std::io;
use std::io::Write;
use text_fields::{push_ascii, push_decimal, push_hex};

/// Room for a word with a number behind it.
type Field = ArrayString<64>;

/// Writes what a core holds, in lines for people to read (docs/FORMATS.md): six lines for each of its
/// harts, then the issue queue, the open jobs, the free registers, and a line for each register that
/// isn't free. A list of nothing is a dash. Where it answers Ok, it has written exactly these lines, of
/// the parts that agree with the core's history.
///
/// An error is the one that `out` answered; what was written before it has gone out.
pub fn write_tables<W: Write>(core: &Core, out: &mut W) -> io::Result<()>
    ensures { OnOk result (Prints (W.contents out.old) (W.contents out.new) (AreTablesOf core.now)) }
{
    let (parts, registers) = core.parts();
    write_parts(core.harts(), registers, parts, out)
}

fn write_parts<W: Write>(harts: u8, registers: u32, parts: &Parts, out: &mut W) -> io::Result<()>
    requires { harts ≤ most_harts }
    ensures { OnOk result
        (Appends (W.contents out.old) (W.contents out.new) (tables_text harts registers parts.now)) }
{
    write_harts(harts, parts, out)?;
    write_queue(&parts.queue, out)?;
    write_jobs(&parts.jobs, out)?;
    write_free(&parts.free, out)?;
    write_registers(registers, &parts.free, &parts.values, out)
}

fn write_harts<W: Write>(harts: u8, parts: &Parts, out: &mut W) -> io::Result<()>
    requires { harts ≤ most_harts }
    ensures { OnOk result (Appends (W.contents out.old) (W.contents out.new) (harts_text harts parts.now)) }
{
    for hart in 0..harts {
        write_hart_of(parts, hart, out)?;
    }
    Ok(())
}

/// The lines of the hart with this number, where there is one.
fn write_hart_of<W: Write>(parts: &Parts, hart: u8, out: &mut W) -> io::Result<()>
    requires { hart < most_harts }
    ensures { OnOk result (Appends (W.contents out.old) (W.contents out.new) (hart_at parts.now hart)) }
{
    match parts.harts.as_slice().get(usize::from(hart)) {
        Some(state) => write_hart(hart, state, parts.memory.reservation(hart), out),
        None => out.write_all(b""),
    }
}

/// The six lines of a hart, which has reserved this word.
#[tactic(auto, unfolding(crate::specs::Tables::hart_text))]
fn write_hart<W: Write>(
    hart: u8,
    state: &HartState,
    reserved: Option<u32>,
    out: &mut W,
) -> io::Result<()>
    ensures { OnOk result
        (Appends (W.contents out.old) (W.contents out.new) (hart_text hart state.now reserved)) }
{
    write_standing(hart, state, reserved, out)?;
    write_latches(state, out)?;
    write_flight(&state.active, out)?;
    write_maps(&state.maps, out)
}

fn write_latches<W: Write>(state: &HartState, out: &mut W) -> io::Result<()>
    ensures { OnOk result (Appends (W.contents out.old) (W.contents out.new) (latches_text state.now)) }
{
    write_latch("fetched", state.decode_latch.as_slice(), out)?;
    write_latch("decoded", state.rename_latch.as_slice(), out)
}

fn write_maps<W: Write>(maps: &HartMaps, out: &mut W) -> io::Result<()>
    ensures { OnOk result (Appends (W.contents out.old) (W.contents out.new) (maps_text maps.now)) }
{
    write_map(maps, out)?;
    write_committed(maps, out)
}

/// How a hart stands, where it is fetched next, its ICOUNT, and the word that it has reserved.
fn write_standing<W: Write>(
    hart: u8,
    state: &HartState,
    reserved: Option<u32>,
    out: &mut W,
) -> io::Result<()>
    ensures { OnOk result
        (Appends (W.contents out.old) (W.contents out.new) (standing_line hart state.now reserved)) }
{
    write_number("hart ", u64::from(hart), out)?;
    write_status(state.status, out)?;
    write_place(state, out)?;
    write_value(" reserved ", reserved, out)
}

fn write_place<W: Write>(state: &HartState, out: &mut W) -> io::Result<()>
    ensures { OnOk result (Appends (W.contents out.old) (W.contents out.new) (place_text state.now)) }
{
    write_word(" pc ", state.fetch_pc, out)?;
    write_icount(state.icount, out)
}

fn write_icount<W: Write>(icount: u32, out: &mut W) -> io::Result<()>
    ensures { OnOk result
        (Appends (W.contents out.old) (W.contents out.new) (number_text (codes " icount ") icount)) }
{
    write_number(" icount ", u64::from(icount), out)
}

fn write_status<W: Write>(status: Status, out: &mut W) -> io::Result<()>
    ensures { OnOk result (Appends (W.contents out.old) (W.contents out.new) (status_text status)) }
{
    match status {
        Status::Going => out.write_all(b" going"),
        Status::Ended(number) => write_number(" ended ", u64::from(number), out),
        Status::Stopped(cause) => write_number(" stopped ", u64::from(cause), out),
    }
}

/// The numbers of the instructions in a latch, oldest first.
fn write_latch<W: Write>(name: &str, latch: &[Slot], out: &mut W) -> io::Result<()>
    ensures { OnOk result (Appends (W.contents out.old) (W.contents out.new) (latch_line name.now latch.now)) }
{
    out.write_all(name.as_bytes())?;
    write_slots(latch, out)?;
    write_end(latch.is_empty(), out)
}

fn write_slots<W: Write>(latch: &[Slot], out: &mut W) -> io::Result<()>
    ensures { OnOk result (Appends (W.contents out.old) (W.contents out.new) (flat_map slot_text latch.now)) }
{
    for slot in latch {
        write_slot(slot, out)?;
    }
    Ok(())
}

fn write_slot<W: Write>(slot: &Slot, out: &mut W) -> io::Result<()>
    ensures { OnOk result (Appends (W.contents out.old) (W.contents out.new) (slot_text slot.now)) }
{
    write_number(" ", u64::from(slot.seq), out)
}

fn write_flight<W: Write>(flight: &ActiveList, out: &mut W) -> io::Result<()>
    ensures { OnOk result (Appends (W.contents out.old) (W.contents out.new) (flight_line flight.now)) }
{
    out.write_all(b"flight")?;
    write_all_actives(flight, out)?;
    write_end(flight.is_empty(), out)
}

fn write_all_actives<W: Write>(flight: &ActiveList, out: &mut W) -> io::Result<()>
    ensures { OnOk result (Appends (W.contents out.old) (W.contents out.new) (flat_map active_text flight.now)) }
{
    let (older, newer) = flight.as_slices();
    write_actives(older, out)?;
    write_actives(newer, out)
}

fn write_actives<W: Write>(actives: &[Active], out: &mut W) -> io::Result<()>
    ensures { OnOk result (Appends (W.contents out.old) (W.contents out.new) (flat_map active_text actives.now)) }
{
    for active in actives {
        write_active(active, out)?;
    }
    Ok(())
}

/// An instruction in flight: its number, its stage's letter and its register.
fn write_active<W: Write>(active: &Active, out: &mut W) -> io::Result<()>
    ensures { OnOk result (Appends (W.contents out.old) (W.contents out.new) (active_text active.now)) }
{
    write_number(" ", u64::from(active.seq), out)?;
    out.write_all(stage_text(active.stage).as_bytes())?;
    write_phys(active.phys, out)
}

fn stage_text(stage: Stage) -> &'static str
    ensures { result.now ≡ stage_text stage }
{
    match stage {
        Stage::Renamed => ":r:",
        Stage::Issued => ":i:",
        Stage::Completed(_) => ":c:",
    }
}

fn write_phys<W: Write>(phys: Option<Phys>, out: &mut W) -> io::Result<()>
    ensures { OnOk result (Appends (W.contents out.old) (W.contents out.new) (phys_text phys)) }
{
    match phys {
        Some(phys) => write_number("", u64::from(phys), out),
        None => out.write_all(b"-"),
    }
}

/// Where the youngest values of x1 to x31 are.
fn write_map<W: Write>(maps: &HartMaps, out: &mut W) -> io::Result<()>
    ensures { OnOk result (Appends (W.contents out.old) (W.contents out.new) (map_line maps.now)) }
{
    out.write_all(b"map")?;
    write_mapped(maps, out)?;
    out.write_all(b"\n")
}

#[tactic(auto, unfolding(crate::specs::Tables::mapped_text))]
fn write_mapped<W: Write>(maps: &HartMaps, out: &mut W) -> io::Result<()>
    ensures { OnOk result (Appends (W.contents out.old) (W.contents out.new) (mapped_text maps.now)) }
{
    for index in 0..31_u8 {
        write_mapped_at(maps, index, out)?;
    }
    Ok(())
}

fn write_mapped_at<W: Write>(maps: &HartMaps, index: u8, out: &mut W) -> io::Result<()>
    requires { index < 31 }
    ensures { OnOk result (Appends (W.contents out.old) (W.contents out.new) (mapped_at maps.now index)) }
{
    write_number(" ", u64::from(maps.lookup(index + 1)), out)
}

/// Where the retired values of x1 to x31 are.
fn write_committed<W: Write>(maps: &HartMaps, out: &mut W) -> io::Result<()>
    ensures { OnOk result (Appends (W.contents out.old) (W.contents out.new) (committed_line maps.now)) }
{
    out.write_all(b"committed")?;
    write_retired(maps, out)?;
    out.write_all(b"\n")
}

#[tactic(auto, unfolding(crate::specs::Tables::committed_text))]
fn write_retired<W: Write>(maps: &HartMaps, out: &mut W) -> io::Result<()>
    ensures { OnOk result (Appends (W.contents out.old) (W.contents out.new) (committed_text maps.now)) }
{
    for index in 0..31_u8 {
        write_retired_at(maps, index, out)?;
    }
    Ok(())
}

fn write_retired_at<W: Write>(maps: &HartMaps, index: u8, out: &mut W) -> io::Result<()>
    requires { index < 31 }
    ensures { OnOk result (Appends (W.contents out.old) (W.contents out.new) (committed_at maps.now index)) }
{
    write_number(" ", u64::from(maps.committed(index + 1)), out)
}

/// The instructions that wait, by rising number, and their harts.
fn write_queue<W: Write>(queue: &SlabQueue, out: &mut W) -> io::Result<()>
    ensures { OnOk result (Appends (W.contents out.old) (W.contents out.new) (queue_line queue.now.entries)) }
{
    let entries = queue.rising();
    out.write_all(b"queue")?;
    write_entries(entries.as_slice(), out)?;
    write_end(entries.is_empty(), out)
}

fn write_entries<W: Write>(entries: &[Entry], out: &mut W) -> io::Result<()>
    ensures { OnOk result (Appends (W.contents out.old) (W.contents out.new) (flat_map entry_text entries.now)) }
{
    for entry in entries {
        write_entry(entry, out)?;
    }
    Ok(())
}

fn write_entry<W: Write>(entry: &Entry, out: &mut W) -> io::Result<()>
    ensures { OnOk result (Appends (W.contents out.old) (W.contents out.new) (entry_text entry.now)) }
{
    write_number(" ", u64::from(entry.seq), out)?;
    write_number(".", u64::from(entry.hart), out)
}

/// The actors that have a job, rising, and its number.
fn write_jobs<W: Write>(jobs: &[Option<OpenJob>], out: &mut W) -> io::Result<()>
    ensures { OnOk result (Appends (W.contents out.old) (W.contents out.new) (jobs_line jobs.now)) }
{
    out.write_all(b"jobs")?;
    write_open_jobs(jobs, out)?;
    write_end(count_jobs(jobs) == 0, out)
}

fn write_open_jobs<W: Write>(jobs: &[Option<OpenJob>], out: &mut W) -> io::Result<()>
    ensures { OnOk result
        (Appends (W.contents out.old) (W.contents out.new) (each_from job_text 0 jobs.now)) }
{
    for (actor, job) in jobs.iter().enumerate() {
        write_job(actor, job, out)?;
    }
    Ok(())
}

fn write_job<W: Write>(actor: usize, job: &Option<OpenJob>, out: &mut W) -> io::Result<()>
    ensures { OnOk result (Appends (W.contents out.old) (W.contents out.new) (job_text actor job.now)) }
{
    match job {
        Some(job) => {
            write_number(" ", actor as u64, out)?;
            write_number(":", u64::from(job.seq), out)
        }
        None => out.write_all(b""),
    }
}

fn write_free<W: Write>(free: &FreeList, out: &mut W) -> io::Result<()>
    ensures { OnOk result (Appends (W.contents out.old) (W.contents out.new) (free_line free.now)) }
{
    let registers = registers_in(free);
    out.write_all(b"free")?;
    write_numbers(registers.as_slice(), out)?;
    write_end(registers.is_empty(), out)
}

fn write_numbers<W: Write>(registers: &[Phys], out: &mut W) -> io::Result<()>
    ensures { OnOk result
        (Appends (W.contents out.old) (W.contents out.new) (flat_map (number_text (codes " ")) registers.now)) }
{
    for register in registers {
        write_free_register(*register, out)?;
    }
    Ok(())
}

fn write_free_register<W: Write>(register: Phys, out: &mut W) -> io::Result<()>
    ensures { OnOk result
        (Appends (W.contents out.old) (W.contents out.new) (number_text (codes " ") register)) }
{
    write_number(" ", u64::from(register), out)
}

/// A line for each of the core's first `registers` registers that isn't free.
fn write_registers<W: Write>(
    registers: u32,
    free: &FreeList,
    values: &RegisterFile,
    out: &mut W,
) -> io::Result<()>
    ensures { OnOk result (Appends (W.contents out.old) (W.contents out.new)
        (registers_text registers free.now values.now)) }
{
    write_registers_below(MOST_REGISTERS as Phys, registers, free, values, out)
}

/// Those of the registers below this one.
fn write_registers_below<W: Write>(
    end: Phys,
    registers: u32,
    free: &FreeList,
    values: &RegisterFile,
    out: &mut W,
) -> io::Result<()>
    ensures { OnOk result (Appends (W.contents out.old) (W.contents out.new)
        (flat_map (register_line registers free.now values.now) (below end))) }
{
    for register in 0..end {
        write_register(register, registers, free, values, out)?;
    }
    Ok(())
}

/// The line of one of so many registers that isn't free.
fn write_register<W: Write>(
    register: Phys,
    registers: u32,
    free: &FreeList,
    values: &RegisterFile,
    out: &mut W,
) -> io::Result<()>
    ensures { OnOk result (Appends (W.contents out.old) (W.contents out.new)
        (register_line registers free.now values.now register)) }
{
    if u32::from(register) >= registers || free.holds(register) {
        return out.write_all(b"");
    }
    write_number("reg ", u64::from(register), out)?;
    write_value(" ", values.value_of(register), out)
}

/// A text and a word or, where there is none, a dash, at the end of its line.
fn write_value<W: Write>(before: &str, value: Option<u32>, out: &mut W) -> io::Result<()>
    requires { length before.now ≤ 32 }
    ensures { OnOk result (Appends (W.contents out.old) (W.contents out.new) (value_text before.now value)) }
{
    let mut text = Field::new();
    text.push_str(before);
    push_value(&mut text, value);
    push_ascii(&mut text, b'\n');
    out.write_all(text.as_bytes())
}

/// Appends a word or, where there is none, a dash.
fn push_value(text: &mut Field, value: Option<u32>)
    requires { array_string_len text.old + 8 ≤ 64 }
    ensures spelled { text.new.bytes ≡ text.old.bytes ++ optional (hex 8) value }
    ensures length { array_string_len text.new ≤ array_string_len text.old + 8 }
{
    match value {
        Some(word) => push_hex(text, word, 8),
        None => push_ascii(text, b'-'),
    }
}

fn write_end<W: Write>(is_empty: bool, out: &mut W) -> io::Result<()>
    ensures { OnOk result (Appends (W.contents out.old) (W.contents out.new) (end_text is_empty)) }
{
    if is_empty {
        return out.write_all(b" -\n");
    }
    out.write_all(b"\n")
}

/// A text and a number.
fn write_number<W: Write>(before: &str, number: u64, out: &mut W) -> io::Result<()>
    requires { length before.now ≤ 32 }
    ensures { OnOk result (Appends (W.contents out.old) (W.contents out.new) (number_text before.now number)) }
{
    let mut text = Field::new();
    text.push_str(before);
    push_decimal(&mut text, number);
    out.write_all(text.as_bytes())
}

/// A text and a word, as eight hexadecimal digits.
fn write_word<W: Write>(before: &str, word: u32, out: &mut W) -> io::Result<()>
    requires { length before.now ≤ 32 }
    ensures { OnOk result (Appends (W.contents out.old) (W.contents out.new) (word_text before.now word)) }
{
    let mut text = Field::new();
    text.push_str(before);
    push_hex(&mut text, word, 8);
    out.write_all(text.as_bytes())
}
