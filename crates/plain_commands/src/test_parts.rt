//! What is made ready of a litmus test before its states are looked for: the test that a text is, the settings with its
//! harts, and the file of its image.

ghost use Rattle.std.specs.Prelude.{◌≡◌, IfOk, IfErr, OnOk, is_some, true, false};
ghost use Rattle.event_text.specs.Sinking.{HasPut};
ghost use Rattle.litmus_files.specs.File.{test_file};
ghost use Rattle.litmus_reading.specs.Texts.{IsTextOf};
ghost use Rattle.litmus_tests.specs.WellFormed.{IsWellFormed};
ghost use Rattle.plain_commands.specs.{Litmus.IsTextRefusal, Outcomes.IsWant};
ghost use Rattle.plain_commands.specs.StateOrders.{settings_for};

use command_parts::{Refused, put_text};
use elf_image::Image;
use litmus_files::file_of;
use litmus_images::harts_of;
use litmus_reading::{ReadingRefused, read_litmus};
use litmus_tests::LitmusTest;
use sim_inputs::{HartCount, LitmusCommand, Settings};
use std::alloc::{AllocError, Global};
use stress_runs::EndFiles;

/// Settings with as many harts as a test has.
pub fn settings_for(own: Settings, test: &LitmusTest) -> Settings
    requires { IsWellFormed test.now }
    ensures { result ≡ settings_for test.now own }
{
    own.with_harts(HartCount::new(u32::from(harts_of(test))))
}

/// The test that a text is.
pub fn test_of(text: &[u8], alloc: Global) -> Result<LitmusTest, Refused>
    ensures sound { IfOk result IsWellFormed }
    ensures read { IfOk result (IsTextOf text.now) }
    ensures refused { IfErr result (IsTextRefusal text.now) }
{
    match read_litmus(text, alloc) {
        Ok(test) => Ok(test),
        Err(ReadingRefused::Memory) => Err(Refused::Memory),
        Err(ReadingRefused::At(place, fault, _)) => Err(Refused::Litmus(place, fault)),
    }
}

/// Puts the ELF file of a test's image into the file, where it is wanted.
pub fn put_image<S: EndFiles>(
    test: &LitmusTest,
    image: &Image,
    command: &LitmusCommand<'_>,
    file: &mut S,
    alloc: Global,
) -> Result<(), Refused>
    requires sound { IsWellFormed test.now }
    requires works { S.has_failed file.old ≡ false }
    requires finished { S.is_finished file.old ≡ true }
    ensures kept { OnOk result (is_some command.now.image ≡ true
        → HasPut S.written S.has_failed file.old file.new (test_file test.now image.now)) }
    ensures refused { IfErr result IsWant }
    ensures unwanted { is_some command.now.image ≡ false → file.new ≡ file.old }
    ensures unbroken { OnOk result (S.has_failed file.new ≡ false) }
    ensures finished { OnOk result (S.is_finished file.new ≡ true) }
{
    if command.image.is_none() {
        return Ok(());
    }
    match file_of(test, image, alloc) {
        Ok(bytes) => {
            put_text(bytes.as_slice(), file)?;
            Ok(())
        }
        Err(AllocError) => Err(Refused::Memory),
    }
}
