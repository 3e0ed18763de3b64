use crate::file_fault::FileFault;
use command_parts::{Inputs, Refused};
use sim_inputs::Line;

/// Why files of a line can't be read or written, as far as that has come up.
#[derive(Clone, Copy, Drop)]
pub struct FileFaults {
    pub config: Option<FileFault>,
    pub program: Option<FileFault>,
    pub second: Option<FileFault>,
    pub lines: Option<FileFault>,
    /// The file that is written, or one of those of ends.
    pub written: Option<FileFault>,
    /// Whether that is the second file which is written.
    pub is_beside: bool,
    /// Standard output.
    pub output: Option<FileFault>,
}

impl FileFaults {
    /// None has come up.
    pub const NONE: FileFaults = FileFaults {
        config: None,
        program: None,
        second: None,
        lines: None,
        written: None,
        is_beside: false,
        output: None,
    };
}

/// A fault of a line, and all that its hint is made of.
#[derive(Clone, Copy, Drop)]
pub struct LineFault<'line, 'inputs> {
    pub refused: Refused,
    pub line: &'line Line<'line>,
    pub inputs: Inputs<'inputs>,
    pub files: FileFaults,
}
