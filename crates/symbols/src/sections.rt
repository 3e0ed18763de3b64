//! Where the table of symbols lies, and the names that it goes by (ELF32, "Sections" and "String Table").

ghost use Rattle.std.specs.Prelude.{◌≡◌, ◌+◌, ◌*◌, ◌<◌, ◌≤◌, ℕ, IfSome, IfNone, IsTrue, ◌↔◌, length};
ghost use Rattle.symbols.specs.Sections.{
  HasNoSymbolSection,
  HasSections,
  IsSection,
  IsSymbolSection,
  section_count,
  section_table,
};

use elf_image::{read_half, read_word};

/// The size of a section's header in bytes.
const HEADER_SIZE: usize = 40;

/// The type of a table of symbols, SHT_SYMTAB, and that of names, SHT_STRTAB.
const SYMBOLS: u32 = 2;

pub(crate) const NAMES: u32 = 3;

/// What the header of a section says of it: its type, where its bytes lie, and by which section it goes.
#[derive(Clone, Copy, Drop)]
pub(crate) struct Section {
    pub kind: u32,
    pub offset: usize,
    pub size: usize,
    pub link: usize,
}

impl Section {
    /// Whether its bytes lie in a file of so many.
    pub(crate) fn is_in_file(&self, length: usize) -> bool
        ensures { IsTrue result ↔ (self.now.offset + self.now.size ≤ length) }
    {
        self.offset <= length && self.size <= length - self.offset
    }
}

/// How many sections a file has, where the headers of all lie in it and have the size that they should.
pub(crate) fn count_sections(file: &[u8]) -> Option<usize>
    ensures some { IfSome result (λ count. (count ≡ section_count file.now) × HasSections file.now) }
    ensures none { IfNone result (HasSections file.now → ⊥) }
{
    if file.len() < 52 {
        return None;
    }
    let count = usize::from(read_half(file, 48));
    if count > 0 && usize::from(read_half(file, 46)) != HEADER_SIZE {
        return None;
    }
    if read_word(file, 32) as usize + HEADER_SIZE * count > file.len() {
        return None;
    }
    Some(count)
}

/// What the header of a section says.
pub(crate) fn section_at(file: &[u8], number: usize) -> Section
    requires whole { HasSections file.now }
    requires inside { number < section_count file.now }
    ensures { IsSection file.now number result }
{
    let place = read_word(file, 32) as usize + HEADER_SIZE * number;
    Section {
        kind: read_word(file, place + 4),
        offset: read_word(file, place + 16) as usize,
        size: read_word(file, place + 20) as usize,
        link: read_word(file, place + 24) as usize,
    }
}

/// The first section that is a table of symbols.
pub(crate) fn symbol_section(file: &[u8], count: usize) -> Option<usize>
    requires whole { HasSections file.now }
    requires count { count ≡ section_count file.now }
    ensures some { IfSome result (IsSymbolSection file.now) }
    ensures none { IfNone result (HasNoSymbolSection file.now) }
{
    for number in 0..count {
        if section_at(file, number).kind == SYMBOLS {
            return Some(number);
        }
    }
    None
}
