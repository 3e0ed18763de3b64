//! The line of an address.

ghost use Rattle.std.specs.Prelude.{◌≡◌, option_map};
ghost use Rattle.source_lines.specs.Lines.{line_for, origin_of, origins_of};

use crate::line::SourceLine;
use crate::reading::SourceLines;

impl<'a> SourceLines<'a> {
    /// Where the word at an address comes from; none where no line says it.
    pub fn line_at(&self, address: u32) -> Option<SourceLine<'a>>
        ensures { option_map origin_of result ≡ line_for (origins_of self.now.lines.items) address }
    {
        let lines = self.lines.as_slice();
        let mut low = 0;
        let mut high = lines.len();
        // The one that is looked for lies from `low` on, and before `high`.
        while low < high {
            let middle = low + (high - low) / 2;
            let line = lines[middle];
            if line.address == address {
                return Some(line);
            }
            if line.address < address {
                low = middle + 1;
            } else {
                high = middle;
            }
        }
        None
    }
}
