//! Writing one file.
ghost use Rattle.std.specs.Prelude.{◌≡◌, [], IfOk};
ghost use Rattle.file_loads.specs.Status.{code_of};
ghost use Rattle.file_loads.specs.Lines.{IsSaid, Says};
ghost use Rattle.file_loads.specs.Views.{Touches, change_of};
ghost use Rattle.file_loads.specs.Explained.{IsExplained};
ghost use Rattle.file_loads.specs.Outputs.{Writing};

use crate::outcome::{Outcome, Status};
use std::alloc::{AllocError, Global};
use vericon_edge::files::{FileFault, Files};

/// Nothing, since a file was not written.
fn not_written(alloc: Global) -> Outcome
    ensures { Says [] 8 result }
{
    Outcome {
        text: Vec::new(alloc),
        status: Status::WriteFault,
    }
}

/// Writes bytes to a file, and then gives the outcome that was made for this case; where the file was not written, one
/// that prints nothing, with status 8. It writes once, and wants no memory behind the write.
pub fn write_before<F: Files>(
    alloc: Global,
    files: &mut F,
    name: &str,
    bytes: &[u8],
    outcome: Outcome,
) -> Result<Outcome, AllocError>
    ensures output { IfOk result (λ said. IsExplained (change_of F.told F.read_calls F.write_calls F.read_faults F.write_faults files.old files.new) [] (Writing name.now bytes.now (IsSaid outcome)) said.text.items (code_of said.status)) }
    ensures touches { Touches 0 (Some name.now) (change_of F.told F.read_calls F.write_calls F.read_faults F.write_faults files.old files.new) }
{
    match files.write_all(alloc, name, bytes) {
        Ok(()) => Ok(outcome),
        Err(FileFault::Memory) => Err(AllocError),
        Err(FileFault::Failed) => Ok(not_written(alloc)),
        // No other fault comes of a write.
        Err(FileFault::Missing) => Ok(not_written(alloc)),
        Err(FileFault::TooLong) => Ok(not_written(alloc)),
    }
}
