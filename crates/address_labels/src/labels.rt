//! What is wanted beside addresses.

ghost use Rattle.std.specs.Prelude.{◌≡◌, Decides};
ghost use Rattle.address_labels.specs.Labels.{marks_of, no_marks};

use source_lines::SourceLines;
use symbols::Symbols;

/// What is wanted beside addresses.
#[derive(Clone, Copy, Drop)]
pub struct Labels<'a> {
    /// The names of the program, where they are wanted.
    pub names: Option<&'a Symbols<'a>>,
    /// The lines of its sources, where there are some.
    pub lines: Option<&'a SourceLines<'a>>,
}

impl<'a> Labels<'a> {
    /// Nothing is wanted.
    pub fn none() -> Labels<'a>
        ensures { marks_of result ≡ no_marks }
    {
        Labels {
            names: None,
            lines: None,
        }
    }

    /// Whether nothing is wanted.
    pub fn are_none(&self) -> bool
        ensures { Decides result (marks_of self.now ≡ no_marks) }
    {
        self.names.is_none() && self.lines.is_none()
    }
}
