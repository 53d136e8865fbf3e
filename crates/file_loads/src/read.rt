//! Reading one file.
ghost use Rattle.std.specs.Prelude.{◌≡◌, IfOk};
ghost use Rattle.file_loads.specs.Answers.{longest};
ghost use Rattle.file_loads.specs.Loads.{AreNotBytes};
ghost use Rattle.file_loads.specs.Lines.{Says, too_long_text};
ghost use Rattle.file_loads.specs.Views.{OnlyReads, change_of};
ghost use Rattle.file_loads.specs.Gives.{AreItems, Gives};

use crate::lines::{missing, read_fault, refused, too_long};
use crate::outcome::Outcome;
use csdn_read::ProgramWhy;
use std::alloc::{AllocError, Global};
use vericon_edge::files::{FileFault, Files};

/// What a file is read as.
#[derive(Clone, Copy, Debug, PartialEq, Eq)]
pub enum FileKind {
    Program,
    Frames,
    Logs,
    Network,
    Journal,
}

impl FileKind {
    /// How many bytes a file of this kind has at most.
    pub fn longest(self) -> usize
        ensures { result ≡ longest self }
    {
        match self {
            FileKind::Program => 65_536,
            FileKind::Frames => 16_777_216,
            FileKind::Logs => 268_435_456,
            FileKind::Network => 16_777_216,
            FileKind::Journal => 536_870_912,
        }
    }

    /// What is said of a longer one, with status 3.
    fn too_long(self, alloc: Global, name: &str) -> Result<Outcome, AllocError>
        ensures { IfOk result (Says (too_long_text self name.now) 3) }
    {
        match self {
            FileKind::Program => refused(alloc, name, 65_536, ProgramWhy::TooLong),
            FileKind::Frames | FileKind::Logs | FileKind::Network | FileKind::Journal => {
                too_long(alloc, name)
            }
        }
    }
}

/// What a file gave.
#[derive(Drop)]
pub enum Load<T: Drop> {
    /// A value.
    Loaded(T),
    /// None, and this is said of it.
    Refused(Outcome),
}

/// Reads all bytes of a file, or makes the line that says why there are none. It reads once, and takes memory for
/// the bytes.
pub fn read_file<F: Files>(
    alloc: Global,
    files: &mut F,
    kind: FileKind,
    name: &str,
) -> Result<Load<Vec<u8>>, AllocError>
    ensures load { IfOk result (Gives (change_of F.told F.read_calls F.write_calls F.read_faults F.write_faults files.old files.new) kind name.now AreItems AreNotBytes) }
    ensures reads { OnlyReads 1 (change_of F.told F.read_calls F.write_calls F.read_faults F.write_faults files.old files.new) }
{
    match files.read_all(alloc, name, kind.longest()) {
        Ok(bytes) => Ok(Load::Loaded(bytes)),
        Err(FileFault::Missing) => Ok(Load::Refused(missing(alloc, name)?)),
        Err(FileFault::TooLong) => Ok(Load::Refused(kind.too_long(alloc, name)?)),
        Err(FileFault::Failed) => Ok(Load::Refused(read_fault(alloc, name)?)),
        Err(FileFault::Memory) => Err(AllocError),
    }
}
