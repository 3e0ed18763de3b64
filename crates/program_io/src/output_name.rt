//! The names of the files that are written, and of those beside them, as paths. They take no memory: one
//! that is longer than any path of the system has no room, as the system has none for it.

use arrayvec::ArrayString;
use std::fmt::Write;
use std::path::Path;
use stress_runs::Part;

/// Room for any path that the system takes.
pub(crate) type PathText = ArrayString<4096>;

/// The name of a file that is written.
#[derive(Clone, Copy, Drop)]
pub(crate) enum OutputName<'a> {
    /// As the line gives it.
    Given(&'a str),
    /// That of a part of an end, in the folder that the line gives.
    OfEnd {
        folder: &'a str,
        end: u64,
        part: Part,
    },
}

impl OutputName<'_> {
    /// Its path, where there is room for it.
    pub(crate) fn path(&self) -> Option<PathText> {
        let mut path = PathText::new();
        match *self {
            OutputName::Given(name) => path.try_push_str(name).ok()?,
            OutputName::OfEnd { folder, end, part } => {
                let kind = kind_of(part);
                write!(path, "{folder}/end-{end}.{kind}").ok()?
            }
        }
        Some(path)
    }
}

fn kind_of(part: Part) -> &'static str {
    match part {
        Part::Trace => "trace",
        Part::Order => "order",
        Part::Story => "story",
    }
}

/// The path of the file with this number beside another: a short name of its own, in the same folder.
pub(crate) fn path_beside(path: &str, number: u32) -> Option<PathText> {
    let folder = Path::new(path).parent()?.as_str();
    let mut beside = PathText::new();
    if !folder.is_empty() {
        write!(beside, "{folder}/").ok()?;
    }
    write!(beside, ".smtsim-{number}").ok()?;
    Some(beside)
}
