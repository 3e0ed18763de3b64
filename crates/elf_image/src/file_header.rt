//! The file header: what a file says of itself (ELF32, "ELF Header").

ghost use Rattle.std.specs.Prelude.{◌≡◌, ℕ, ◌+◌, ◌*◌, ◌<◌, ◌≤◌, length, IfOk, IfErr, OnOk};
ghost use Rattle.elf_image.specs.Layout.{entry_of, table_offset, table_count};
ghost use Rattle.elf_image.specs.Refusal.{reason_number};
ghost use Rattle.elf_image.specs.declared.refusal.LoadRefused.{LoadRefused as Refusal};
ghost use Rattle.elf_image.specs.Checks.{Passes, IsLoadRefusal};

use crate::fields::{read_half, read_word};
use crate::refusal::LoadRefused;

/// The fields of a file header that loading goes by.
#[derive(Clone, Copy)]
pub(crate) struct FileHeader {
    pub(crate) entry: u32,
    pub(crate) table_offset: u32,
    pub(crate) table_count: u16,
}

/// Makes the checks of the identification and the version, 1 to 5.
fn check_identification(file: &[u8]) -> Result<(), LoadRefused>
    ensures refused { IfErr result (λ reason. (ram : ℕ) → IsLoadRefusal file.now ram reason) }
    ensures passes { OnOk result ((ram : ℕ) (check : Refusal) → reason_number check < 6
        → Passes file.now ram check) }
    ensures whole { OnOk result (52 ≤ length file.now) }
{
    if file.len() < 52 {
        return Err(LoadRefused::TooShort);
    }
    if file[..4] != [0x7f, b'E', b'L', b'F'] {
        return Err(LoadRefused::NotElf);
    }
    if file[4] != 1 {
        return Err(LoadRefused::NotClass32);
    }
    if file[5] != 1 {
        return Err(LoadRefused::NotLittleEndian);
    }
    if file[6] != 1 || read_word(file, 20) != 1 {
        return Err(LoadRefused::WrongVersion);
    }
    Ok(())
}

/// Makes the checks of the file header, 1 to 9.
pub(crate) fn read_file_header(file: &[u8]) -> Result<FileHeader, LoadRefused>
    ensures refused { IfErr result (λ reason. (ram : ℕ) → IsLoadRefusal file.now ram reason) }
    ensures passes { OnOk result ((ram : ℕ) (check : Refusal) → reason_number check < 10
        → Passes file.now ram check) }
    ensures whole { OnOk result (52 ≤ length file.now) }
    ensures table { OnOk result
        (table_offset file.now + 32 * table_count file.now ≤ length file.now) }
    ensures entry { IfOk result (λ header. header.entry ≡ entry_of file.now) }
    ensures offset { IfOk result (λ header. header.table_offset ≡ table_offset file.now) }
    ensures count { IfOk result (λ header. header.table_count ≡ table_count file.now) }
{
    check_identification(file)?;
    if read_half(file, 16) != 2 {
        return Err(LoadRefused::NotExecutable);
    }
    if read_half(file, 18) != 243 {
        return Err(LoadRefused::NotRiscV);
    }
    if read_half(file, 40) != 52 || read_half(file, 42) != 32 {
        return Err(LoadRefused::WrongHeaderSize);
    }
    let header = FileHeader {
        entry: read_word(file, 24),
        table_offset: read_word(file, 28),
        table_count: read_half(file, 44),
    };
    if header.table_offset as usize + 32 * header.table_count as usize > file.len() {
        return Err(LoadRefused::TableOutsideFile);
    }
    Ok(header)
}
