//! The files of a line, as they were read, and what is made of the first two of them.

ghost use Rattle.std.specs.Prelude.{◌≡◌, IfOk, IfErr, OnOk, option_map};
ghost use Rattle.elf_image.specs.Loaded.{IsImageOf};
ghost use Rattle.sim_inputs.specs.Configuration.{IsConfiguration};
ghost use Rattle.command_parts.specs.Refused.{PassesAll, IsImageRefusal};
ghost use Rattle.symbols.specs.Tables.{AreNamesOf, table_of};
ghost use Rattle.command_parts.specs.declared.refused.Refused.TheVariants.{Memory};
ghost use Rattle.source_lines.specs.Lines.{origins_of};
ghost use Rattle.command_parts.specs.Inputs.{AreLinesFor, IsConfigRefusal, IsLinesFault, as_read};

use crate::refused::{Refused, Unread};
use elf_image::{Image, LoadRefused, RamSize, load};
use sim_inputs::{ConfigRefused, Settings, read_config};
use source_lines::{LinesRefused, SourceLines, read_lines};
use std::alloc::Global;
use symbols::Symbols;

/// The files that a line names, as they were read.
#[derive(Clone, Copy, Drop)]
pub struct Inputs<'a> {
    /// The configuration; empty where the line names none.
    pub config: Result<&'a [u8], Unread>,
    /// The image, or the litmus test; empty where the line names none.
    pub program: Result<&'a [u8], Unread>,
    /// The script, the trace that is read, or the order; empty where the line names none.
    pub second: Result<&'a [u8], Unread>,
    /// The source lines of the image; empty where the line names none.
    pub lines: Result<&'a [u8], Unread>,
}

/// The settings of a configuration's text.
pub fn settings_of(text: &[u8], alloc: Global) -> Result<Settings, Refused>
    ensures settings { IfOk result (IsConfiguration text.now) }
    ensures refused { IfErr result (IsConfigRefusal text.now) }
{
    match read_config(text, alloc) {
        Ok(settings) => Ok(settings),
        Err(ConfigRefused::Refused) => Err(Refused::Config),
        Err(ConfigRefused::Memory) => Err(Refused::Memory),
    }
}

/// The program image of a file, for a memory of this size.
pub fn image_of(file: &[u8], ram: RamSize, alloc: Global) -> Result<Image, Refused>
    ensures refused { IfErr result (IsImageRefusal file.now ram) }
    ensures passed { OnOk result (PassesAll file.now ram) }
    ensures image { IfOk result (IsImageOf file.now ram) }
{
    match load(alloc, file, ram) {
        Ok(image) => Ok(image),
        Err(LoadRefused::OutOfMemory) => Err(Refused::Memory),
        Err(refused) => Err(Refused::Image(refused.number())),
    }
}

/// The names of the program in an image's file. Where its table of symbols is absent or damaged there are none.
pub fn names_in(file: &[u8], alloc: Global) -> Result<Symbols<'_>, Refused>
    ensures names { IfOk result (λ names. AreNamesOf file.now (table_of names)) }
    ensures refused { IfErr result (λ why. why ≡ Memory) }
{
    match symbols::read(file, alloc) {
        Ok(names) => Ok(names),
        Err(symbols::Unread::Absent | symbols::Unread::Damaged) => Ok(Symbols::none(alloc)),
        Err(symbols::Unread::Memory) => Err(Refused::Memory),
    }
}

/// The lines of an image's sources in a file, where they are wanted.
pub fn lines_where<'a>(
    is_wanted: bool,
    text: Result<&'a [u8], Unread>,
    image: &Image,
    alloc: Global,
) -> Result<Option<SourceLines<'a>>, Refused>
    ensures lines { IfOk result (λ lines. AreLinesFor is_wanted (as_read text.entry) image.now
        (option_map (λ lines. origins_of lines.lines.items) lines)) }
    ensures refused { IfErr result (IsLinesFault is_wanted (as_read text.entry) image.now) }
{
    if !is_wanted {
        return Ok(None);
    }
    match read_lines(text?, image, alloc) {
        Ok(lines) => Ok(Some(lines)),
        Err(LinesRefused::Line { number, fault }) => Err(Refused::Lines {
            line: number,
            fault,
        }),
        Err(LinesRefused::Memory) => Err(Refused::Memory),
    }
}
