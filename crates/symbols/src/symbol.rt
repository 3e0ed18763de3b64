//! An entry of a table of symbols (ELF32, "Symbol Table").

ghost use Rattle.std.specs.Prelude.{◌≡◌, ◌==◌, ◌+◌, ◌≤◌, length, position, drop};
ghost use Rattle.symbols.specs.Symbols.{is_file, is_global, is_name, is_nameless, is_placed, kind_of, name_of, symbol_at};

use elf_image::{read_half, read_word};

/// The size of an entry in bytes.
pub(crate) const ENTRY_SIZE: usize = 16;

/// An entry of a table, as it stands there.
#[derive(Clone, Copy, Drop)]
pub struct Symbol {
    /// Where its name begins among the names, in bytes.
    pub(crate) name: u32,
    pub address: u32,
    /// How many bytes it is of; 0 where nobody has said.
    pub size: u32,
    pub(crate) info: u8,
    pub(crate) section: u16,
    /// Where the entry stands in the file, in bytes.
    pub(crate) place: usize,
}

/// The entry at a place of the file.
#[tactic(auto, unfolding(crate::specs::Symbols::symbol_at))]
pub(crate) fn symbol_at(file: &[u8], place: usize) -> Symbol
    requires { place + 16 ≤ length file.now }
    ensures { result ≡ symbol_at file.now place }
{
    Symbol {
        name: read_word(file, place),
        address: read_word(file, place + 4),
        size: read_word(file, place + 8),
        info: file[place + 12],
        section: read_half(file, place + 14),
        place,
    }
}

impl Symbol {
    /// Whether all parts of the program know it.
    pub fn is_global(&self) -> bool
        ensures { result ≡ is_global self.now }
    {
        let binding = self.info / 16;
        1 <= binding && binding <= 2
    }

    /// Its name, among these.
    pub(crate) fn name_in<'a>(&self, names: &'a [u8]) -> &'a [u8]
        ensures { result.now ≡ name_of names.now self.now }
    {
        let start = self.name as usize;
        if start >= names.len() {
            return &[];
        }
        let rest = behind(names, start);
        match first_zero(rest) {
            Some(end) => &rest[..end],
            None => rest,
        }
    }

    /// Whether it is a name of the program.
    pub(crate) fn is_name(&self, names: &[u8]) -> bool
        ensures { result ≡ is_name names.now self.now }
    {
        self.info % 16 <= 2 && self.is_placed() && !is_nameless(self.name_in(names))
    }

    /// Whether it names the file of which the local symbols behind it are.
    pub(crate) fn is_file(&self) -> bool
        ensures { result ≡ is_file self.now }
    {
        self.info % 16 == 4
    }

    fn is_placed(&self) -> bool
        ensures { result ≡ is_placed self.now }
    {
        1 <= self.section && self.section < 0xff00
    }
}

fn behind(names: &[u8], start: usize) -> &[u8]
    requires { start ≤ length names.now }
    ensures { result.now ≡ drop start names.now }
{
    &names[start..]
}

fn first_zero(bytes: &[u8]) -> Option<usize>
    ensures { result ≡ position (λ byte. byte == 0) bytes.now }
{
    bytes.iter().position(|byte| *byte == 0)
}

/// Whether a name is none that somebody has written: empty, or an assembler's own.
fn is_nameless(name: &[u8]) -> bool
    ensures { result ≡ is_nameless name.now }
{
    name.is_empty() || name[0] == b'$' || (name[0] == b'.' && name.len() > 1 && name[1] == b'L')
}
