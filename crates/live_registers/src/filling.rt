//! How a table is found: from no register and no reservation on, what has to be live or kept is added, the last word
//! first, until nothing is missing. Where that takes too long everything is.

ghost use Rattle.std.specs.Prelude.{◌≡◌, ◌<◌, IfOk, All, length, false};
ghost use Rattle.elf_image.specs.Image.{ProgramImage, byte_in, code_writable};
ghost use Rattle.decoded_code.specs.Code.{IsCodeOf};
ghost use Rattle.live_registers.specs.Table.{IsTableOf, IsOfCode, IsAllAlike};
ghost use Rattle.live_registers.specs.declared.targets.Targets.{Targets as AnyTargets};

use crate::checking::{is_good, is_needed, is_reservation_needed};
use crate::table::{LiveTable, REGISTERS, Row};
use crate::targets::Targets;
use decoded_code::Code;
use elf_image::Image;
use rv_instr::Op;
use std::alloc::{AllocError, Global};

/// How often the words are gone through at the most. A register is carried to all words before its use
/// but for loops, so few are needed.
const MOST_TURNS: usize = 64;

impl LiveTable {
    /// The table of an image, whose code this is, and of where its jumps by registers go on. Where the code may be
    /// written every register is live, and each reservation kept, as another word may come to any place. Fails only
    /// for want of memory.
    pub fn of(
        image: &Image,
        code: &Code,
        targets: &Targets,
        alloc: Global,
    ) -> Result<LiveTable, AllocError>
        requires { IsCodeOf image.now (byte_in image.now) code.now }
        ensures { IfOk result (IsTableOf image.now targets.now) }
    {
        if image.code_writable() {
            return Ok(LiveTable::everywhere(alloc));
        }
        LiveTable::of_words(code, targets, alloc)
    }

    /// The table in which every register is live everywhere, and each reservation kept. It has no rows.
    fn everywhere(alloc: Global) -> LiveTable
        ensures { (image : ProgramImage) (targets : AnyTargets) → IsTableOf image targets result }
    {
        LiveTable {
            everywhere: true,
            start: 0,
            rows: Vec::new(alloc),
        }
    }

    /// A table of a code that stays as it is, of which few registers are live.
    fn of_words(code: &Code, targets: &Targets, alloc: Global) -> Result<LiveTable, AllocError>
        ensures of_code { IfOk result (IsOfCode code.now) }
        ensures good { IfOk result (λ table. (image : ProgramImage) → code_writable image ≡ false
            → IsCodeOf image (byte_in image) code.now → IsTableOf image targets.now table) }
    {
        let table = LiveTable::found(code, targets, alloc)?;
        if is_good(&table, targets, code) {
            return Ok(table);
        }
        LiveTable::full(code, alloc)
    }

    /// A table of a code to which nothing has to be added, where that was found in time.
    fn found(code: &Code, targets: &Targets, alloc: Global) -> Result<LiveTable, AllocError>
        ensures { IfOk result (IsOfCode code.now) }
    {
        let mut table = LiveTable::filled(code, false, alloc)?;
        for _turn in 0..MOST_TURNS {
            if !table.add_needed(code, targets) {
                return Ok(table);
            }
        }
        Ok(table)
    }

    /// The table of a code in which every register is live everywhere, and each reservation kept.
    fn full(code: &Code, alloc: Global) -> Result<LiveTable, AllocError>
        ensures of_code { IfOk result (IsOfCode code.now) }
        ensures good { IfOk result (λ table. (image : ProgramImage) (targets : AnyTargets)
            → code_writable image ≡ false → IsCodeOf image (byte_in image) code.now
            → IsTableOf image targets table) }
    {
        LiveTable::filled(code, true, alloc)
    }

    /// Adds what has to be live or kept to the rows, the last first. Answers whether anything was missing.
    fn add_needed(&mut self, code: &Code, targets: &Targets) -> bool
        requires { IsOfCode code.now self.old }
        ensures { IsOfCode code.now self.new }
    {
        let mut has_added = false;
        let count = code.words.len();
        for turn in 0..count {
            if self.add_needed_at(code, targets, count - 1 - turn) {
                has_added = true;
            }
        }
        has_added
    }

    /// Adds what has to be live or kept at a word. Answers whether anything was missing.
    fn add_needed_at(&mut self, code: &Code, targets: &Targets, index: usize) -> bool
        requires inside { index < length code.now.words.items }
        requires of_code { IsOfCode code.now self.old }
        ensures { IsOfCode code.now self.new }
    {
        let Some(fetched) = code.words.get(index) else {
            return false;
        };
        let pc = code
            .start
            .wrapping_add(u32::try_from(index).unwrap_or(0).wrapping_mul(4));
        let row = self.rows[index];
        let with_needed = self.with_needed(targets, row, fetched.op, pc);
        if with_needed.live == row.live && with_needed.kept == row.kept {
            return false;
        }
        self.rows[index] = with_needed;
        true
    }

    /// The row with what has to be live or kept there.
    fn with_needed(&self, targets: &Targets, row: Row, op: Op, pc: u32) -> Row {
        let mut row = row;
        if is_reservation_needed(self, targets, op, pc) {
            row.kept = true;
        }
        for register in 1..REGISTERS as u8 {
            if is_needed(self, targets, op, pc, register) {
                row.live[usize::from(register)] = true;
            }
        }
        row
    }

    /// The table of a code in which all registers are live everywhere and each reservation kept, or none is anywhere.
    fn filled(code: &Code, live: bool, alloc: Global) -> Result<LiveTable, AllocError>
        ensures of_code { IfOk result (IsOfCode code.now) }
        ensures all { IfOk result (λ table. All (IsAllAlike live) table.rows.items) }
    {
        let mut rows = Vec::with_capacity(alloc, code.words.len())?;
        for _index in 0..code.words.len() {
            rows.push(Row::all(live))?;
        }
        Ok(LiveTable {
            everywhere: false,
            start: code.start,
            rows,
        })
    }
}
