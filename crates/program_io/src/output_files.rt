//! The files that a line writes, as a sink.

ghost use Rattle.std.specs.Prelude.{◌≡◌, None, Some, false, is_some, not, true};

use crate::output_file::OutputFile;
use crate::output_name::OutputName;
use crate::read_files::{ReadFiles, is_read};
use crate::two_files::{TwoFiles, Unwritten, are_one_place};
use event_text::{Broken, Sink};
use fault_hints::FileFault;
use std::fs;
use std::io::ErrorKind;
use std::rt::Files;
use stress_runs::{EndFiles, Part};

/// Where the files of a line go that it has written, and those that it spares.
#[derive(Clone, Copy, Drop)]
pub struct Places<'a> {
    /// The file of a trace, of a chart, or of what else is one file.
    pub file: Option<&'a str>,
    /// The second file, of a chart that is two.
    pub beside: Option<&'a str>,
    /// The folder for the files of ends.
    pub folder: Option<&'a str>,
    /// The files that the line reads, of which none is written over.
    pub read: ReadFiles<'a>,
}

/// The files that a line has written, as a sink. Each is begun as the first of its bytes are put, or as it
/// is begun by name, so where there is no trace there is no file.
#[derive(Drop)]
pub struct OutputFiles<'a, S: Files> {
    files: &'a S,
    places: Places<'a>,
    /// The file that isn't finished yet.
    current: Option<OutputFile<'a, S>>,
    /// Why one of them can't be written, once that has come up.
    fault: Option<FileFault>,
    /// Whether that is the second file.
    is_beside: bool,
}

impl<'a, S: Files> OutputFiles<'a, S> {
    /// A sink that hasn't failed, and has begun no file. Without a name its first put fails, and without a
    /// folder each beginning of a file; so does the beginning of a file that the line reads.
    pub fn new(files: &'a S, places: Places<'a>) -> Self
        ensures works { is_some result.fault ≡ false }
        ensures finished { not (is_some result.current) ≡ true }
    {
        OutputFiles {
            files,
            places,
            current: None,
            fault: None,
            is_beside: false,
        }
    }

    /// Gives up the file that isn't finished, if there is one. What was under its name stays.
    pub fn discard(&mut self) {
        if let Some(file) = self.current.take() {
            file.discard();
        }
    }

    /// Why one of the files can't be written, once that has come up.
    pub fn fault(&self) -> Option<FileFault>
        ensures { result ≡ self.now.fault }
    {
        self.fault
    }

    /// Whether the one that can't be written is the second file of a chart that is two.
    pub fn is_beside(&self) -> bool {
        self.is_beside
    }

    /// From now on it has failed, for this.
    fn fail(&mut self, fault: FileFault) -> Broken
        ensures { self.new.fault ≡ Some fault }
    {
        self.discard();
        self.fault = Some(fault);
        Broken
    }

    /// The file that isn't finished yet, or else the one that the line names, begun. Answers why there is none.
    fn opened(&mut self) -> Result<OutputFile<'a, S>, FileFault>
        ensures works { self.new.fault ≡ self.old.fault }
        ensures taken { is_some self.new.current ≡ false }
    {
        if let Some(file) = self.current.take() {
            return Ok(file);
        }
        self.begun_as(self.places.file)
    }

    /// A file of this name, begun, or why it can't be, also since the line reads it.
    fn begun(&self, name: OutputName<'a>) -> Result<OutputFile<'a, S>, FileFault> {
        let Some(path) = name.path() else {
            return Err(FileFault::LongName);
        };
        if is_read(self.files, &self.places.read, path.as_str()) {
            return Err(FileFault::IsRead);
        }
        OutputFile::begin(self.files, name)
    }

    /// The file of this name that the line gives, begun, or why it can't be.
    fn begun_as(&self, name: Option<&'a str>) -> Result<OutputFile<'a, S>, FileFault> {
        match name {
            Some(name) => self.begun(OutputName::Given(name)),
            None => Err(FileFault::System(ErrorKind::NotFound)),
        }
    }

    /// Both files of a chart that is two, begun, or which of them can't be, and why.
    fn two_begun(&self) -> Result<TwoFiles<'a, S>, Unwritten> {
        let first = match self.begun_as(self.places.file) {
            Ok(first) => first,
            Err(why) => return Err(Unwritten::first(why)),
        };
        let beside = match self.beside_begun() {
            Ok(beside) => beside,
            Err(why) => {
                first.discard();
                return Err(Unwritten::beside(why));
            }
        };
        Ok(TwoFiles { first, beside })
    }

    /// The second of them, begun behind the first. It may not be the same file, nor come to be it as it is begun.
    fn beside_begun(&self) -> Result<OutputFile<'a, S>, FileFault> {
        if self.are_one() {
            return Err(FileFault::IsWritten);
        }
        let beside = match self.begun_as(self.places.beside) {
            Ok(beside) => beside,
            Err(fault) => return Err(fault),
        };
        if self.are_one() {
            beside.discard();
            return Err(FileFault::IsWritten);
        }
        Ok(beside)
    }

    fn are_one(&self) -> bool {
        are_one_place(self.files, self.places.file, self.places.beside)
    }

    /// Writes both of them, each whole.
    fn write_two(&self, first: &[u8], second: &[u8]) -> Result<(), Unwritten> {
        match self.two_begun() {
            Ok(files) => files.write(first, second),
            Err(unwritten) => Err(unwritten),
        }
    }
}

impl<'a, S: Files> Sink for OutputFiles<'a, S> {
    // Of what a file takes nothing is known.
    ghost written = { λ sink. None };

    ghost has_failed = { λ sink. is_some sink.fault };

    ghost puts = { λ sink bytes answer after. Unit {0} };

    fn put(&mut self, bytes: &[u8]) -> Result<usize, Broken> {
        let file = match self.opened() {
            Ok(file) => file,
            Err(fault) => return Err(self.fail(fault)),
        };
        match file.put(bytes) {
            Ok((count, file)) => {
                self.current = Some(file);
                Ok(count)
            }
            Err(fault) => Err(self.fail(fault)),
        }
    }
}

impl<'a, S: Files> EndFiles for OutputFiles<'a, S> {
    ghost begins = { λ sink end part after. Unit {0} };

    // No file is begun that isn't finished.
    ghost is_finished = { λ sink. not (is_some sink.current) };

    fn begin(&mut self, end: u64, part: Part) -> Result<(), Broken> {
        let Some(folder) = self.places.folder else {
            return Err(self.fail(FileFault::System(ErrorKind::NotFound)));
        };
        // A folder that is there already is none that can be made. Where it isn't there, no file is.
        let _ = fs::create_dir(self.files, folder);
        match self.begun(OutputName::OfEnd { folder, end, part }) {
            Ok(file) => {
                self.current = Some(file);
                Ok(())
            }
            Err(fault) => Err(self.fail(fault)),
        }
    }

    fn finish(&mut self) -> Result<(), Broken> {
        let file = match self.opened() {
            Ok(file) => file,
            Err(fault) => return Err(self.fail(fault)),
        };
        match file.finish() {
            Ok(()) => Ok(()),
            Err(fault) => Err(self.fail(fault)),
        }
    }

    fn put_two(&mut self, first: &[u8], second: &[u8]) -> Result<(), Broken> {
        match self.write_two(first, second) {
            Ok(()) => Ok(()),
            Err(unwritten) => {
                self.is_beside = unwritten.is_beside;
                Err(self.fail(unwritten.why))
            }
        }
    }
}
